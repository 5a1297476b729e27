//! Resource names of byte streams (remote_execution.proto, "ContentAddressableStorage";
//! bytestream.proto, `resource_name`): which blob of which instance a `Read` or a `Write` names.
//!
//! A name is cut at its slashes into segments. Nothing here takes memory.
#![tactic(auto)]

mod laws;
mod name;
mod parse;
mod segments;
mod size;

pub use laws::{a_read_is_named_by_its_written_form, a_write_is_named_by_its_written_form};
pub use name::{NameError, ReadName, WriteName};
pub use parse::{MOST_UUID, parse_read, parse_write};
pub use segments::first_segment;
