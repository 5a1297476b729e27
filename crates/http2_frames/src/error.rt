//! Why a reader of frames stops.

use std::alloc::AllocError;

/// What a [`crate::FrameReader`] refuses.
#[derive(Clone, Copy, Debug, PartialEq, Eq)]
pub enum FrameError {
    /// The connection does not begin with the client's preface (RFC 9113, section 3.4).
    Preface,
    /// A frame's payload is longer than 16,384 bytes (section 4.2).
    Size,
    /// A request for memory was refused.
    NoMemory,
}

impl From<AllocError> for FrameError {
    ghost use Rattle.std.specs.Prelude.{◌≡◌};
    ghost use Rattle.http2_frames.specs.declared.error.FrameError.{FrameError};

    ghost from_gives = { λ _ e. e ≡ FrameError.NoMemory };

    fn from(_: AllocError) -> FrameError {
        FrameError::NoMemory
    }
}
