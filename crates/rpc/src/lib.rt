//! What a call can be: its method, and why it is refused: gRPC status codes and the texts that go
//! with them.
#![tactic(auto)]

mod method;
mod refusal;

pub use method::Method;
pub use refusal::Refusal;
