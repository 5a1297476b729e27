//! Flow-control windows of HTTP/2 (RFC 9113, sections 5.2 and 6.9): how many bytes of DATA may be
//! sent on a stream, or on the connection.
#![tactic(auto, using(std::proofs::lemmas::Int::ints))]

mod window;

pub use window::{FlowError, INITIAL_SIZE, MAX_SIZE, Window};
