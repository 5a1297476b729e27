//! `Read`, `Write` and `QueryWriteStatus` of `google.bytestream.ByteStream` (bytestream.proto),
//! from a message's bytes to what is owed for it.
//!
//! An answer, and what becomes of an instance's texts and unfinished uploads, are functions of the
//! instance's own name, quota, texts and uploads and of the message alone.
#![tactic(auto)]

mod names;
mod part;
mod querying;
mod reading;
mod writing;

pub use part::{Part, Terms};
pub use querying::query;
pub use reading::{ReadAsked, Source, read};
pub use writing::{FirstPart, OpenWrite, Written, ended_unfinished, write_first, write_next};
