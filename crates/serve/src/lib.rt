//! Serves a server's instances over sockets, and the jobs that they order over runs, turn by turn.
#![tactic(auto)]

mod absence;
mod asking;
mod calm;
mod carrying;
mod counts;
mod error_lines;
mod exchange;
mod frame_course;
mod groups;
mod laws;
mod numbering;
mod open_socket;
mod pace;
mod runs;
mod serving;
mod share;
mod sockets;
mod watch;

pub use counts::{InstanceCounts, Occurrence, ServeCounts};
pub use error_lines::ErrorLines;
pub use laws::{faults_are_told_by_whole_lines, what_serve_did, why_connections_are_closed};
pub use runs::{Doing, Runs};
pub use serving::{Beginning, serve};
pub use sockets::{ProcessorTime, Socket, Sockets};
pub use watch::{Nobody, Sight, Tally, Watch};
