//! Scripts of calls: which instances there are, and then what is put into them and asked of them.
//!
//! A script is a text of lines:
//!
//! - `instance NAME QUOTA` configures an instance;
//! - `put NAME HEX` puts a blob into an instance;
//! - `call NAME METHOD HEX` calls a method of an instance with the bytes of a message.
//!
//! HEX is lower-case hexadecimal, or `-` for no bytes; QUOTA is a decimal number. Lines that
//! configure instances come first. An empty line says nothing.

mod command;
pub mod laws;
mod method;
mod parser;

pub use crate::unary::command::{Command, Instance, UnaryScript};
pub use crate::unary::method::Method;
pub use crate::unary::parser::parse;
