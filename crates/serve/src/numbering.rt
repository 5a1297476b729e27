//! Under which number the next connection is accepted.

ghost use Rattle.std.specs.Prelude.{◌≡◌, ◌==◌};
ghost use Rattle.std.specs.List.{list_any};
ghost use Rattle.serve.specs.KeepsOpen.{IsNext, sockets_of};

use crate::open_socket::OpenSocket;

/// Whether an open socket has this number, of whichever instance. The server may have let go of its
/// connection.
fn is_taken(connections: &[OpenSocket], number: u32) -> bool
    ensures { result ≡ list_any (λ c. c.socket.connection == number) connections.now }
{
    connections
        .iter()
        .any(|open| open.socket.connection == number)
}

/// The next number that no open socket has, in a circle. There is none only where all others are
/// taken.
pub(crate) fn number_after(connections: &[OpenSocket], number: u32) -> Option<u32>
    ensures { IsNext number (sockets_of connections.now) result }
{
    for before in number..u32::MAX {
        if !is_taken(connections, before + 1) {
            return Some(before + 1);
        }
    }
    for next in 0..number {
        if !is_taken(connections, next) {
            return Some(next);
        }
    }
    None
}
