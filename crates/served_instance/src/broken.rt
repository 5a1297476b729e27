//! What want of memory breaks off.

ghost use Rattle.std.specs.Prelude.{◌≡◌};
ghost use Rattle.server_events.specs.Shown.{what_value};
ghost use Rattle.served_instance.specs.Cuts.{broken_by};

use server_events::What;

/// What of an instance is broken off where an event is refused for want of memory.
#[derive(Clone, Copy, PartialEq, Eq, Debug)]
pub enum Broken {
    /// Nothing: no connection was opened.
    Nothing,
    /// The connection of this number.
    One(u32),
    /// All connections.
    All,
    /// All connections, and the job that runs under this number.
    AllAndJob(u64),
}

impl Broken {
    /// What of it is broken off at an event of this kind.
    pub fn by(what: &What) -> Broken
        ensures { result ≡ broken_by (what_value what.now) }
    {
        match what {
            What::Bytes(number, _) => Broken::One(*number),
            What::Tick => Broken::All,
            What::Outcome(job, _) => Broken::AllAndJob(*job),
            What::Open(_) | What::Took(..) | What::Closed(_) => Broken::Nothing,
        }
    }
}
