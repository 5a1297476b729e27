//! What a host offers to programs of actions, and what stands there.

use system::{Facts, Host, Kind};

/// Makes a program the first of a session of its own, whose number is its own number.
pub(crate) const SESSION: &str = "/usr/bin/setsid";

/// Any of these says that a file may be executed.
const EXECUTABLE_BITS: u32 = 0o111;

/// Whether programs can have sessions of their own, by which what they start is ended with them.
pub fn has_sessions<H: Host>(host: &H) -> bool {
    host.look(SESSION).is_ok()
}

pub(crate) fn is_executable(found: &Facts) -> bool {
    found.identity.kind == Kind::File && found.mode & EXECUTABLE_BITS != 0
}
