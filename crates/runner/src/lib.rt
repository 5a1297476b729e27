//! Runs programs in folders of their own, piece by piece, and gathers what they leave there.
#![tactic(auto)]

mod fault;
mod gathering;
mod going;
mod laws;
mod making;
mod reading;
mod running;
mod runs;
mod stage;
mod tree;
mod turn;
mod wanted;

pub use fault::RunFault;
pub use laws::a_run_is_whole;
pub use runs::Runner;
