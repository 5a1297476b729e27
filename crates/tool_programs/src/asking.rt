//! Asks, and waits for the answer.

use crate::answer::{Answer, AnswerReader};
use std::alloc::Global;
use std::io::{self, ErrorKind, Read, Write};
use std::rt::Clock;
use std::thread;
use std::time::{Duration, Instant};

/// The most bytes that are read at a time.
const READ_LIMIT: usize = 4_096;

/// What came of trying to send or to receive.
#[derive(Drop)]
enum Tried {
    Moved,
    NotReady,
    Ended(Answer),
}

/// What an error of reading or writing means. Want of memory is the caller's.
fn failed(error: io::Error) -> io::Result<Tried> {
    match error.kind() {
        ErrorKind::WouldBlock | ErrorKind::Interrupted => Ok(Tried::NotReady),
        ErrorKind::OutOfMemory => Err(error),
        _ => Ok(Tried::Ended(Answer::Failed(error))),
    }
}

/// Sends what can be sent without waiting, and passes it.
fn send<W: Write>(unsent: &mut &[u8], peer: &mut W) -> io::Result<Tried> {
    if unsent.is_empty() {
        return Ok(Tried::NotReady);
    }
    match peer.write(*unsent) {
        Ok(count) => {
            *unsent = &unsent[count..];
            Ok(Tried::Moved)
        }
        Err(error) => failed(error),
    }
}

/// Reads what is there, and looks for the answer in it.
fn receive<R: Read>(alloc: Global, reader: &mut AnswerReader, peer: &mut R) -> io::Result<Tried> {
    let mut room = [0; READ_LIMIT];
    match peer.read(&mut room) {
        Ok(0) => Ok(Tried::Ended(Answer::Broken("it ended the connection"))),
        Ok(count) => {
            let piece = Vec::from_slice(alloc, &room[..count])?;
            match reader.feed(piece)? {
                Some(answer) => Ok(Tried::Ended(answer)),
                None => Ok(Tried::Moved),
            }
        }
        Err(error) => failed(error),
    }
}

/// Sends the question to a peer that does not let reads and writes wait, and waits for the answer
/// for so long. An error is want of memory, or a clock that cannot be read.
pub fn ask<C: Clock, R: Read, W: Write>(
    clock: &C,
    alloc: Global,
    question: &[u8],
    patience: Duration,
    from_peer: &mut R,
    to_peer: &mut W,
) -> io::Result<Answer> {
    let start = Instant::now(clock)?;
    let mut reader = AnswerReader::new(alloc);
    let mut unsent = question;
    for _ in 0..u64::MAX {
        let sent = send(&mut unsent, to_peer)?;
        if let Tried::Ended(answer) = sent {
            return Ok(answer);
        }
        match receive(alloc, &mut reader, from_peer)? {
            Tried::Ended(answer) => return Ok(answer),
            Tried::Moved => {}
            Tried::NotReady => thread::sleep(clock, Duration::from_millis(1)),
        }
        if start.elapsed(clock)? >= patience {
            break;
        }
    }
    Ok(Answer::Silent)
}
