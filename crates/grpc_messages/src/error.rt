//! Why a split of a request into messages stops.

use std::alloc::AllocError;

/// What [`crate::Messages`] refuses.
#[derive(Clone, Copy, Debug, PartialEq, Eq)]
pub enum MessagesError {
    /// A message's flag says that it is compressed.
    Compressed,
    /// A message is longer than [`crate::MESSAGE_LIMIT`].
    TooLarge,
    /// The request ends inside a message.
    CutOff,
    /// A request for memory was refused.
    NoMemory,
}

impl From<AllocError> for MessagesError {
    ghost use Rattle.std.specs.Prelude.{◌≡◌};
    ghost use Rattle.grpc_messages.specs.declared.error.MessagesError.{MessagesError};

    ghost from_gives = { λ _ e. e ≡ MessagesError.NoMemory };

    fn from(_: AllocError) -> MessagesError {
        MessagesError::NoMemory
    }
}
