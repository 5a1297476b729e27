//! Why a tree has no plan.

ghost use Rattle.std.specs.Prelude.{◌≡◌};
ghost use Rattle.actions.specs.declared.fault.TreeFault.TheVariants.{NoMemory};

use digest::Digest;
use std::alloc::{AllocError, AllocFailed};

/// Why a tree has no plan.
#[derive(Debug, Drop)]
pub enum TreeFault {
    /// The instance has no texts of these digests, which are all that it has not, in the order met,
    /// each as often as it was met. The tree has no other fault that could be met.
    Missing(Vec<Digest>),
    /// A text is no directory that is taken (`input_tree::check`).
    BadDirectory,
    /// There are more nodes below the root than [`crate::MOST_NODES`].
    TooMany,
    /// There are more levels than [`crate::MOST_LEVELS`].
    TooDeep,
    /// A request for memory was refused.
    NoMemory,
}

impl From<AllocError> for TreeFault {
    ghost from_gives = { λ _ error. error ≡ NoMemory };

    fn from(_refused: AllocError) -> TreeFault {
        TreeFault::NoMemory
    }
}

impl<T: Drop> From<AllocFailed<T>> for TreeFault {
    ghost from_gives = { λ _ error. error ≡ NoMemory };

    fn from(_refused: AllocFailed<T>) -> TreeFault {
        TreeFault::NoMemory
    }
}
