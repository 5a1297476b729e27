//! What the program does beside serving: it carries out scripts of calls and of events, sends bytes
//! to a server, and asks a server on a port whether it answers.
//!
//! How a run of any of them ends, and what it writes, is here too.
#![tactic(auto)]

mod answer;
mod asking;
mod lines;
mod output;
mod probing;
mod question;
mod replay_run;
mod session;
mod status;
mod store;
mod unary_run;

pub use answer::{Answer, AnswerReader};
pub use asking::ask;
pub use output::Output;
pub use probing::{Request, probe};
pub use question::question_bytes;
pub use replay_run::replay;
pub use status::{Fault, Status, read_all, read_file, told};
pub use store::Store;
pub use unary_run::unary;
