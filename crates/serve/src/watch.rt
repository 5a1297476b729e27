//! Whoever watches a server.

use crate::counts::ServeCounts;
use server_core::Server;

/// What is to see of a server after a turn.
#[derive(Clone, Copy)]
pub struct Sight<'a> {
    pub server: &'a Server,
    pub counts: &'a ServeCounts,
    /// How many lines were dropped since one was written.
    pub dropped: u64,
    /// What the clock showed last, in milliseconds since the start.
    pub moment: u64,
}

/// What came of turns.
#[derive(Clone, Copy, Debug, PartialEq, Eq)]
pub struct Tally {
    /// How many events were cut short: carried out in part, for want of memory. Where it were more
    /// than 64 bits can say, 2^64 - 1.
    pub cut: u64,
}

/// Whoever watches a server. Nothing of it can be changed by that: it is only looked at.
pub trait Watch {
    /// Looks at the server after a turn, and says whether there is to be another.
    fn look(&mut self, sight: &Sight<'_>) -> bool;
}

/// Nobody: the turns go on.
#[derive(Clone, Copy, Debug)]
pub struct Nobody;

impl Watch for Nobody {
    fn look(&mut self, _sight: &Sight<'_>) -> bool {
        true
    }
}
