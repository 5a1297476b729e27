//! What a received frame causes.

use hpack::Headers;
use http2_frames::{Frame, Octets};

/// What a frame brings to those who answer requests.
#[derive(Drop)]
pub enum Event<'a> {
    Nothing,
    /// A request's header list (RFC 9113 section 8.3.1), which opens its stream.
    Request {
        stream: u32,
        fields: Headers,
        end_stream: bool,
    },
    /// Bytes of a request's content, without padding.
    Content {
        stream: u32,
        content: Octets<'a>,
        end_stream: bool,
    },
    /// Trailers, whose fields are left out: the request is at its end.
    Trailers {
        stream: u32,
    },
    /// The stream was reset by one of the two sides.
    Cancel {
        stream: u32,
    },
}

/// What a received frame causes, where it is no fault of the connection: the frames that answer it,
/// to be put in the order of these fields and before the event is acted on, and the event.
#[derive(Drop)]
pub struct StreamEvent<'a> {
    /// SETTINGS or PING with ACK.
    pub acknowledgement: Option<Frame<'a>>,
    /// WINDOW_UPDATE for the connection.
    pub connection_update: Option<Frame<'a>>,
    /// WINDOW_UPDATE for a stream.
    pub stream_update: Option<Frame<'a>>,
    /// RST_STREAM.
    pub reset: Option<Frame<'a>>,
    pub event: Event<'a>,
}
