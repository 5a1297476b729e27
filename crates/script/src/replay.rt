//! Scripts of events: which instances a server has, and then what happens to them.
//!
//! A script is a text of lines, M a moment in milliseconds, I an instance's number, C a
//! connection's:
//!
//! - `instance NAME QUOTA SLOTS [PARENT]` configures an instance, which may build on another one:
//!   the first of any line that is named PARENT, which builds on none; these lines come first;
//! - `open M I C`, `closed M I C`: a connection is opened or closed;
//! - `bytes M I C HEX`: bytes come on a connection;
//! - `took M I C N`: so many of a connection's bytes are taken;
//! - `tick M I`: time goes on;
//! - `exit M I JOB CODE HEX HEX PATH=HEX ..`: the program of a job exits with a code, standard
//!   output, standard error, and files that may not be executed;
//! - `fail M I JOB`: the program of a job could not be run to its end.
//!
//! HEX is lower-case hexadecimal, or `-` for no bytes; that of an exit has 2^48 bytes at most. All
//! else is a decimal number, and only CODE may have a minus before it. The last `=` of `PATH=HEX`
//! ends the path. An empty line says nothing. No line has to name an instance that is configured.

mod event;
mod instance;
pub mod laws;
mod output;
mod parser;
mod reader;

pub use crate::replay::parser::{ReplayScript, parse};
pub use crate::replay::reader::EventReader;
