//! Why an event is refused.

ghost use Rattle.std.specs.Prelude.{◌≡◌};
ghost use Rattle.served_instance.specs.Codes.{code_of};

/// Why an event is refused. All but want of memory leave everything as it was.
#[derive(Clone, Copy, Debug, PartialEq, Eq)]
pub enum EventRefusal {
    /// No instance has the number.
    NoSuchInstance,
    /// No open connection has the number.
    NoSuchConnection,
    /// An open connection has the number.
    ConnectionExists,
    /// As many connections are open as an instance may have.
    TooManyConnections,
    /// No running job has the number.
    NoSuchJob,
    /// The moment lies before that of the last accepted event.
    TimeWentBack,
    /// More bytes were taken than were waiting.
    TookTooMuch,
    /// Memory was refused.
    NoMemory,
}

impl EventRefusal {
    /// Its number, from 1, by which the lines that a replay writes name it.
    pub fn code(self) -> u32
        ensures { result ≡ code_of self }
    {
        match self {
            EventRefusal::NoSuchInstance => 1,
            EventRefusal::NoSuchConnection => 2,
            EventRefusal::ConnectionExists => 3,
            EventRefusal::TooManyConnections => 4,
            EventRefusal::NoSuchJob => 5,
            EventRefusal::TimeWentBack => 6,
            EventRefusal::TookTooMuch => 7,
            EventRefusal::NoMemory => 8,
        }
    }
}
