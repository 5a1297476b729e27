//! The text files of the program: scripts of calls, scripts of events, and the lines that tell what
//! came of these.
//!
//! A file is a list of lines, each ended by a newline; a last line without its newline is still a
//! line. Between two words of a line stands one space. A word may stand for a decimal number, or
//! for bytes in hexadecimal.
#![tactic(auto)]

mod arguments;
mod bad_lines;
mod fault;
mod hexadecimal;
pub mod laws;
mod parts;
mod reader;
pub mod replay;
pub mod replay_lines;
pub mod unary;

pub use crate::bad_lines::{ScriptKind, fault_of_line};
pub use crate::fault::ScriptFault;
pub use crate::hexadecimal::{hex_bytes, write_hex};
pub use crate::parts::{Parts, lines, words};
pub use server_events::Limits;
