//! How calls are answered.

use std::rc::Rc;

/// How a call of Execute is answered that is not refused.
#[derive(Drop, Debug)]
pub enum ExecuteAnswer {
    /// By the Operation of an execution that is done, which is kept.
    Done(Rc<Vec<u8>>),
    /// By the Operation of one that waits, and then by those that follow under its number.
    Queued(u64, Vec<u8>),
}

/// How a call of WaitExecution is answered that is not refused.
#[derive(Drop, Debug)]
pub enum WaitAnswer {
    /// By the Operation of an execution that has ended, which is kept.
    HasTold(Rc<Vec<u8>>),
    /// By the present one, and then by those that follow under its number.
    Watches(u64, Vec<u8>),
}
