//! What a log of sockets says of a client.

use logs::{LoggedSockets, SocketRecord};
use serve::{Socket, Sockets};

/// What a log has; nothing where it was lost.
pub fn records<S: Sockets>(sockets: &LoggedSockets<S>) -> &[SocketRecord] {
    match &sockets.log {
        Some(records) => records,
        None => &[],
    }
}

/// Whether just these bytes were written to a connection, in this order. A number that was given
/// again stands for one connection.
pub fn has_written(log: &[SocketRecord], socket: Socket, bytes: &[u8]) -> bool {
    let mut left = bytes;
    for record in log {
        if let SocketRecord::Written(at, written) = record {
            if *at == socket {
                match left.strip_prefix(written.as_slice()) {
                    Some(rest) => left = rest,
                    None => return false,
                }
            }
        }
    }
    left.is_empty()
}

/// The connection of an instance that was accepted behind so many others of it.
pub fn accepted(log: &[SocketRecord], instance: u32, before: usize) -> Option<Socket> {
    let mut left = before;
    for record in log {
        if let SocketRecord::Accepted(socket) = record {
            if socket.instance == instance {
                if left == 0 {
                    return Some(*socket);
                }
                left -= 1;
            }
        }
    }
    None
}
