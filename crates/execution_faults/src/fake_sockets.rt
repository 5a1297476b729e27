//! Sockets with clients of their own behind them, and a clock that goes on by a millisecond a turn.

ghost use Rattle.std.specs.Prelude.{◌≤◌, IfOk, length};

use crate::counting::{Calls, Deed, Failing};
use serve::{ProcessorTime, Socket, Sockets};
use std::alloc::Global;
use std::io::{self, ErrorKind};

/// What a client does.
#[derive(Clone, Copy)]
pub struct Habits {
    pub instance: u32,
    /// How many bytes it sends or takes at once.
    pub most: usize,
    /// Whether it leaves once it has sent all.
    pub leaves: bool,
}

/// A client.
#[derive(Drop)]
pub struct Client<'a> {
    pub habits: Habits,
    /// What it has still to send.
    unsent: &'a [u8],
    /// Under which number it was let in.
    number: Option<u32>,
    pub received: Vec<u8>,
    pub is_closed: bool,
}

impl<'a> Client<'a> {
    pub fn new(alloc: Global, habits: Habits, unsent: &'a [u8]) -> Client<'a> {
        Client {
            habits,
            unsent,
            number: None,
            received: Vec::new(alloc),
            is_closed: false,
        }
    }

    /// Whether it is the client that was let in so.
    pub fn is_at(&self, socket: Socket) -> bool {
        self.number == Some(socket.connection) && self.habits.instance == socket.instance
    }

    /// Gives the next bytes that it has to send.
    fn give(&mut self, room: &mut [u8]) -> io::Result<usize>
        ensures { IfOk result (λ count. count ≤ length room.new) }
    {
        let count = self.unsent.len().min(self.habits.most).min(room.len());
        if count == 0 && !self.habits.leaves {
            return Err(io::Error::from(ErrorKind::WouldBlock));
        }
        room[..count].copy_from_slice(&self.unsent[..count]);
        self.unsent = &self.unsent[count..];
        Ok(count)
    }
}

/// Sockets in memory.
#[derive(Drop)]
pub struct FakeSockets<'a> {
    pub clients: Vec<Client<'a>>,
    pub calls: Calls,
    /// How many turns were begun.
    pub turns: u64,
    /// How many calls named a connection that is not open.
    pub strays: u64,
}

impl<'a> FakeSockets<'a> {
    pub fn new(clients: Vec<Client<'a>>, failing: Failing) -> FakeSockets<'a> {
        FakeSockets {
            clients,
            calls: Calls::new(failing),
            turns: 0,
            strays: 0,
        }
    }

    /// The client of an open connection.
    fn client(&mut self, socket: Socket) -> io::Result<&mut Client<'a>> {
        for client in self.clients.iter_mut() {
            if client.is_at(socket) && !client.is_closed {
                return Ok(client);
            }
        }
        self.strays = self.strays.saturating_add(1);
        Err(io::Error::from(ErrorKind::NotConnected))
    }
}

impl<'a> Sockets for FakeSockets<'a> {
    fn now(&mut self) -> u64 {
        self.turns = self.turns.saturating_add(1);
        self.turns
    }

    /// The clock is read in each turn, as 50 milliseconds pass.
    fn passed(&self) -> u64 {
        self.turns.saturating_add(1).saturating_mul(50_000)
    }

    /// Something may have come in each turn.
    fn news(&self, _instance: u32) -> u64 {
        self.turns
    }

    fn may_read(&self, _socket: Socket) -> bool {
        true
    }

    /// The server is never without a processor.
    fn processor(&self) -> ProcessorTime {
        ProcessorTime {
            had: self.passed(),
            lacked: 0,
        }
    }

    fn accept(&mut self, socket: Socket) -> io::Result<()> {
        self.calls.next(Deed::Accept(socket.instance))?;
        for client in self.clients.iter_mut() {
            if client.number.is_none() && client.habits.instance == socket.instance {
                client.number = Some(socket.connection);
                return Ok(());
            }
        }
        Err(io::Error::from(ErrorKind::WouldBlock))
    }

    fn read(&mut self, socket: Socket, room: &mut [u8]) -> io::Result<usize> {
        self.calls.next(Deed::Read(socket))?;
        self.client(socket)?.give(room)
    }

    fn write(&mut self, socket: Socket, bytes: &[u8]) -> io::Result<usize> {
        self.calls.next(Deed::Write(socket))?;
        let client = self.client(socket)?;
        let count = bytes.len().min(client.habits.most);
        client.received.extend_from_slice(&bytes[..count])?;
        Ok(count)
    }

    /// The client is gone also where that fails.
    fn close(&mut self, socket: Socket) -> io::Result<()> {
        self.client(socket)?.is_closed = true;
        self.calls.next(Deed::Close(socket))
    }

    fn faults(&self) -> u64 {
        self.calls.faults
    }

    fn rest(&mut self, _most: u64) {}
}
