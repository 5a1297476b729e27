//! What happens to a server.

use run_calls::Outcome;

/// What happens to one instance, and when.
#[derive(Drop)]
pub struct Event {
    /// In milliseconds.
    pub moment: u64,
    /// The instance's number, counted from 0.
    pub instance: u32,
    pub what: What,
}

/// What happens to an instance.
#[derive(Drop)]
pub enum What {
    /// A client opened the connection of this number.
    Open(u32),
    /// These bytes came on a connection.
    Bytes(u32, Vec<u8>),
    /// The client of a connection took so many of the bytes that wait for it.
    Took(u32, u32),
    /// A connection was closed.
    Closed(u32),
    /// Time went on.
    Tick,
    /// The run of the job of this number gave this.
    Outcome(u64, Outcome),
}
