//! What ends a connection.

ghost use Rattle.std.specs.Prelude.{◌≡◌};
ghost use Rattle.http2_streams.specs.declared.fault.ConnectionFault.TheVariants.{NoMemory};

use http2_frames::ErrorCode;
use std::alloc::AllocError;

/// Why a connection does not go on.
#[derive(Clone, Copy, Debug, PartialEq, Eq)]
pub enum ConnectionFault {
    /// A connection error of this code (RFC 9113 section 5.4.1).
    Connection(ErrorCode),
    /// Memory could not be had.
    NoMemory,
}

impl From<AllocError> for ConnectionFault {
    ghost from_gives = { λ _ e. e ≡ NoMemory };

    fn from(_e: AllocError) -> ConnectionFault {
        ConnectionFault::NoMemory
    }
}
