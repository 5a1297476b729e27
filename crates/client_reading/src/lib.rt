//! What a client reads of the bytes that a connection puts: laws about the definitions alone.
#![tactic(auto, using(std::proofs::lemmas::Int::ints))]

mod laws;

pub use laws::{
    answers_are_owed, changes_make_pasts, ranges_bring_their_bytes, received_frames_are_frames,
    what_a_client_reads,
};
