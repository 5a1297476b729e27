//! Why a tree is not listed.

ghost use Rattle.std.specs.Prelude.{◌≡◌};
ghost use Rattle.input_tree.specs.declared.error.GetTreeError.TheVariants.{Refused, NoMemory};

use std::alloc::{AllocError, AllocFailed};

/// Why a tree is refused.
#[derive(Clone, Copy, Debug, PartialEq, Eq)]
pub enum TreeRefusal {
    /// There is no text of the root's digest.
    NotFound,
    /// The root is no directory that is taken.
    BadDirectory,
    /// There are more directories than [`crate::MOST_DIRECTORIES`].
    TooMany,
    /// The page size is negative, or the token is no place in the list.
    BadPage,
}

/// Why a tree is not given.
#[derive(Clone, Copy, Debug, PartialEq, Eq)]
pub enum GetTreeError {
    /// The tree is refused.
    Refused(TreeRefusal),
    /// A request for memory was refused.
    NoMemory,
}

impl From<TreeRefusal> for GetTreeError {
    ghost from_gives = { λ refusal error. error ≡ Refused refusal };

    fn from(refusal: TreeRefusal) -> GetTreeError {
        GetTreeError::Refused(refusal)
    }
}

impl From<AllocError> for GetTreeError {
    ghost from_gives = { λ _ error. error ≡ NoMemory };

    fn from(_refused: AllocError) -> GetTreeError {
        GetTreeError::NoMemory
    }
}

impl<T: Drop> From<AllocFailed<T>> for GetTreeError {
    ghost from_gives = { λ _ error. error ≡ NoMemory };

    fn from(_refused: AllocFailed<T>) -> GetTreeError {
        GetTreeError::NoMemory
    }
}
