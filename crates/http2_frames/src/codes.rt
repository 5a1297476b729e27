//! The numbers that RFC 9113 gives to frame types, flags, settings and errors.

ghost use Rattle.std.specs.Prelude.{◌≡◌};
ghost use Rattle.http2_frames.specs.Codes.{code_number};

/// Frame types (section 6).
pub mod frame_type {
    pub const DATA: u8 = 0;

    pub const HEADERS: u8 = 1;

    pub const PRIORITY: u8 = 2;

    pub const RST_STREAM: u8 = 3;

    pub const SETTINGS: u8 = 4;

    pub const PUSH_PROMISE: u8 = 5;

    pub const PING: u8 = 6;

    pub const GOAWAY: u8 = 7;

    pub const WINDOW_UPDATE: u8 = 8;

    pub const CONTINUATION: u8 = 9;
}

/// Flags (section 6): which type has which of them stands at the type.
pub mod flag {
    /// Of DATA and HEADERS.
    pub const END_STREAM: u8 = 1;
    /// Of SETTINGS and PING.
    pub const ACK: u8 = 1;
    /// Of HEADERS and CONTINUATION.
    pub const END_HEADERS: u8 = 4;
    /// Of DATA and HEADERS.
    pub const PADDED: u8 = 8;
    /// Of HEADERS.
    pub const PRIORITY: u8 = 32;
}

/// Settings (section 6.5.2).
pub mod setting {
    pub const HEADER_TABLE_SIZE: u16 = 1;

    pub const ENABLE_PUSH: u16 = 2;

    pub const MAX_CONCURRENT_STREAMS: u16 = 3;

    pub const INITIAL_WINDOW_SIZE: u16 = 4;

    pub const MAX_FRAME_SIZE: u16 = 5;

    pub const MAX_HEADER_LIST_SIZE: u16 = 6;
}

/// Why a stream or a connection ended (section 7).
#[derive(Clone, Copy, Debug, PartialEq, Eq)]
pub enum ErrorCode {
    /// Nothing went wrong: the stream or the connection is no longer wanted.
    NoError,
    /// A rule of the protocol was broken that has no code of its own.
    ProtocolError,
    /// The endpoint itself failed.
    InternalError,
    /// More was sent or granted than flow control allows.
    FlowControlError,
    /// SETTINGS was not acknowledged in time.
    SettingsTimeout,
    /// A frame came after the stream was half-closed or closed.
    StreamClosed,
    /// A frame has a length that its type or the settings do not allow.
    FrameSizeError,
    /// The stream was not begun, and may be tried again.
    RefusedStream,
    /// The stream is no longer wanted.
    Cancel,
    /// The header table can no longer be kept in step (RFC 7541).
    CompressionError,
    /// The connection behind a CONNECT failed.
    ConnectError,
    /// The peer asks for more than the endpoint will bear.
    EnhanceYourCalm,
    /// The transport below is too weak.
    InadequateSecurity,
    /// HTTP/1.1 is wanted instead.
    Http11Required,
}

impl ErrorCode {
    /// The number that stands for the code in RST_STREAM and GOAWAY.
    pub fn number(self) -> u32
        ensures { result ≡ code_number self }
    {
        self as u32
    }
}
