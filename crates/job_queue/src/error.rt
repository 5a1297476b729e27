//! Why a call of the queue is refused.

/// Why a call of the queue is refused. The queue is then as it was.
#[derive(Clone, Copy, PartialEq, Eq, Debug)]
pub enum JobError {
    /// [`crate::MOST_WAITING`] jobs wait.
    Full,
    /// No job runs under the number.
    Unknown,
    /// A request for memory was refused.
    NoMemory,
}
