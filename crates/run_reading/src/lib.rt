//! What the clients of an instance read, and that it is the replies: laws about runs.
#![tactic(auto, using(std::proofs::lemmas::Int::ints))]

mod laws;

pub use laws::{
    a_read_gives_its_blob, blobs_served_are_named, replies_are_read, replies_are_the_instances,
    runs_are_settled, statuses_are_narrow, what_a_run_gives,
};
