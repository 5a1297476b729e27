//! Doors, wires and the clock of this host. The head of `host.rt` says what is believed of them.
#![tactic(auto)]

mod host;
mod options;
mod processor_clock;
mod turn_clock;
mod untold;

pub use host::{HostDoor, HostWire, ThisHost};
pub use turn_clock::{DoorsRead, TurnClock};
