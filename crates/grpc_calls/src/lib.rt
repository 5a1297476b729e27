//! gRPC calls over HTTP/2 (the protocol document "gRPC over HTTP2"): which request is a call of
//! which method, and the header blocks of its response.
#![tactic(auto)]

mod laws;
mod request;
mod response;

pub use laws::{
    a_path_names_one_method, a_refusal_is_never_ok, response_blocks_are_read_back,
    response_blocks_are_short, status_messages_need_no_encoding, the_head_says_which_call,
};
pub use request::{HeadFault, head};
pub use response::{ResponseBlock, Status};
pub use rpc::Method;
