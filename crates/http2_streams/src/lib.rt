//! The streams of an HTTP/2 connection (RFC 9113 sections 5 and 6): what each received frame
//! causes.
//!
//! Header blocks (section 4.3) stand here too: putting their fragments together, decoding them, and
//! which lists of fields are requests (sections 8.2 and 8.3.1).
#![tactic(auto, using(std::proofs::lemmas::Int::ints))]

mod event;
mod fault;
mod field_syntax;
mod header_blocks;
mod laws;
mod live;
mod request;
mod stream;
mod streams;

pub use event::{Event, StreamEvent};
pub use fault::ConnectionFault;
pub use header_blocks::{HeaderBlocks, HeaderList, MAX_BLOCK, MAX_CONTINUATIONS};
pub use laws::{
    answers_are_control_frames, closed_streams_stay_closed, events_name_opened_streams,
    live_streams_rise, other_entries_change_nothing, the_live_streams_after_a_frame,
    windows_follow_from_the_history,
};
pub use live::is_live;
pub use request::is_well_formed_request;
pub use stream::Stream;
pub use streams::{MAX_STREAMS, Streams};
