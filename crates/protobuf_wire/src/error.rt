//! Why a message could not be read.

ghost use Rattle.std.specs.Prelude.{◌≡◌};
ghost use Rattle.protobuf_wire.specs.declared.error.MessageError.TheVariants.{Wire, NoMemory};

use crate::field::WireError;
use std::alloc::{AllocError, AllocFailed};

/// Why a message could not be read.
///
/// All records of a text are read before any field, so where a text has a fault of its records
/// and also a string that is not UTF-8, `Wire` is the answer.
#[derive(Clone, Copy, Debug, PartialEq, Eq)]
pub enum MessageError {
    /// The bytes are no sequence of records, or those of an embedded message or of packed numbers
    /// are none.
    Wire(WireError),
    /// A record of a string field is not UTF-8 (proto3, "Scalar Value Types").
    NotUtf8,
    /// Memory for the message was refused.
    NoMemory,
}

impl From<WireError> for MessageError {
    ghost from_gives = { λ fault e. e ≡ Wire fault };

    fn from(fault: WireError) -> MessageError {
        MessageError::Wire(fault)
    }
}

impl From<AllocError> for MessageError {
    ghost from_gives = { λ _ e. e ≡ NoMemory };

    fn from(_refused: AllocError) -> MessageError {
        MessageError::NoMemory
    }
}

impl<T: Drop> From<AllocFailed<T>> for MessageError {
    ghost from_gives = { λ _ e. e ≡ NoMemory };

    fn from(_refused: AllocFailed<T>) -> MessageError {
        MessageError::NoMemory
    }
}
