//! Why a block is refused.

ghost use Rattle.std.specs.Prelude.{◌≡◌};
ghost use Rattle.hpack.specs.declared.error.HpackError.TheVariants.{NoMemory};

use std::alloc::{AllocError, AllocFailed};

/// Why a block is refused: the first fault from left to right.
#[derive(Clone, Copy, Debug, PartialEq, Eq)]
pub enum HpackError {
    /// An index is 0 or past the tables (RFC 7541, section 2.3.3).
    Index,
    /// An integer is cut off, has more than five octets after its prefix, or is 2^32 or more
    /// (section 5.1).
    Integer,
    /// A string is cut off (section 5.2).
    String,
    /// A string is no Huffman coding (section 5.2).
    Huffman,
    /// A size update is above 4,096 or follows a header field (sections 4.2 and 6.3).
    SizeUpdate,
    /// The fields up to this one have more than 65,536 octets, counting 32 more for each (RFC 9113,
    /// section 6.5.2).
    ListTooLarge,
    /// Memory could not be had.
    NoMemory,
    /// An earlier block was refused.
    Failed,
}

impl From<AllocError> for HpackError {
    ghost from_gives = { λ _ e. e ≡ NoMemory };

    fn from(_e: AllocError) -> HpackError {
        HpackError::NoMemory
    }
}

impl<T: Drop> From<AllocFailed<T>> for HpackError {
    ghost from_gives = { λ _ e. e ≡ NoMemory };

    fn from(_e: AllocFailed<T>) -> HpackError {
        HpackError::NoMemory
    }
}
