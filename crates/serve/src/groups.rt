//! Where the connections of an instance stand among all: side by side, in the order of the instances.

ghost use Rattle.std.specs.Prelude.{◌≤◌, ◌<◌, length, vec_capacity, vec_len};
ghost use Rattle.serve.specs.KeepsOpen.{IsPutAmong};

use crate::open_socket::OpenSocket;

/// The place of the first connection of an instance, or where it would stand.
pub(crate) fn first_of(connections: &[OpenSocket], instance: u32) -> usize
    ensures { result ≤ length connections.now }
{
    connections.partition_point(|open| open.socket.instance < instance)
}

/// The place behind the last connection of an instance.
pub(crate) fn end_of(connections: &[OpenSocket], instance: u32) -> usize
    ensures { result ≤ length connections.now }
{
    connections.partition_point(|open| open.socket.instance <= instance)
}

/// Puts a connection behind the others of its instance, where there is room.
pub(crate) fn put(connections: &mut Vec<OpenSocket>, opened: OpenSocket)
    requires room { vec_len connections.old < vec_capacity connections.old }
    ensures { IsPutAmong opened connections.old.items connections.new.items }
{
    let place = end_of(connections, opened.socket.instance);
    match connections.insert(place, opened) {
        Ok(()) => (),
        Err(_) => unreachable!(),
    }
}
