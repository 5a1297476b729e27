//! Unfinished uploads of an instance (bytestream.proto, `Write`): texts that come in pieces, each
//! under a uuid and the digest that is to name it.
//!
//! An upload is no holder in the pool: its text is hashed as it comes, and is sealed where it ends.
#![tactic(auto)]

mod error;
mod key;
mod steps;
mod table;
mod uploads;

pub use error::UploadError;
pub use key::UploadKey;
pub use steps::{MOST_UPLOADS, Piece};
pub use table::UPLOAD_AGE;
pub use uploads::Uploads;
