//! How much a program can be given.

use run_calls::Command as Ordered;
use std::io::{self, ErrorKind};

/// The most bytes of an argument, or of a variable with its name.
const MOST_TEXT: usize = 131_071;

/// The most bytes of all of them, each with the zero behind it and the pointer to it.
const MOST_ALL: usize = 6_291_456;

/// The bytes of a zero and of a pointer.
const COST: usize = 9;

/// What is left of the room behind one more text, where the system would take it.
fn room_behind(room: usize, length: usize) -> Option<usize> {
    if length > MOST_TEXT {
        return None;
    }
    room.checked_sub(length + COST)
}

/// Whether the system could start a program with these arguments and variables, as far as their
/// lengths say.
fn is_short(ordered: &Ordered) -> bool {
    let mut room = MOST_ALL;
    for argument in ordered.arguments.iter() {
        let Some(left) = room_behind(room, argument.len()) else {
            return false;
        };
        room = left;
    }
    for variable in ordered.variables.iter() {
        let length = variable.name.len().saturating_add(variable.value.len());
        let Some(left) = room_behind(room, length.saturating_add(1)) else {
            return false;
        };
        room = left;
    }
    true
}

/// Refuses, before any of it is copied, what the system would refuse for its length.
pub(crate) fn check_size(ordered: &Ordered) -> io::Result<()> {
    if is_short(ordered) {
        Ok(())
    } else {
        Err(io::Error::from(ErrorKind::ArgumentListTooLong))
    }
}
