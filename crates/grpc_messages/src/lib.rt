//! The messages of a call in the data of its stream (gRPC over HTTP2, Length-Prefixed-Message):
//! a reader that splits the received bytes into messages, however they were cut. Who sends a
//! message puts its prefix before it.
#![tactic(auto)]

mod error;
mod laws;
mod message;
mod reader;

pub use error::MessagesError;
pub use laws::{
    a_text_divides_in_one_way, framed_messages_are_split_again, more_bytes_add_messages,
};
pub use message::Message;
pub use reader::{MESSAGE_LIMIT, Messages, PREFIX_LENGTH};
