//! What is put for a frame, and what it brings.

ghost use Rattle.std.specs.Prelude.{◌≡◌};
ghost use Rattle.http2_streams.specs.Rules.{no_effect, event_only, reset_frame, window_update, on_ping};

use crate::event::{Event, StreamEvent};
use crate::fault::ConnectionFault;
use http2_frames::{ErrorCode, Frame};

pub(super) const PROTOCOL_ERROR: ConnectionFault = ConnectionFault::Connection(
    ErrorCode::ProtocolError,
);

pub(super) fn nothing<'a>() -> StreamEvent<'a>
    ensures { result ≡ no_effect }
{
    brings(Event::Nothing)
}

pub(super) fn brings<'a>(event: Event<'a>) -> StreamEvent<'a>
    ensures { result ≡ event_only event.entry }
{
    StreamEvent {
        acknowledgement: None,
        connection_update: None,
        stream_update: None,
        reset: None,
        event,
    }
}

pub(super) fn reset_frame<'a>(stream: u32, code: ErrorCode) -> Option<Frame<'a>>
    ensures { result ≡ reset_frame stream code }
{
    Some(Frame::RstStream {
        stream,
        error_code: code.number(),
    })
}

/// The WINDOW_UPDATE that gives back received bytes.
pub(super) fn update<'a>(stream: u32, length: u32) -> Option<Frame<'a>>
    ensures { result ≡ window_update stream length }
{
    if length == 0 {
        return None;
    }
    Some(Frame::WindowUpdate {
        stream,
        increment: length,
    })
}

pub(super) fn on_ping<'a>(ack: bool, opaque_data: [u8; 8]) -> StreamEvent<'a>
    ensures { result ≡ on_ping ack opaque_data }
{
    if ack {
        return nothing();
    }
    StreamEvent {
        acknowledgement: Some(Frame::Ping {
            ack: true,
            opaque_data,
        }),
        ..nothing()
    }
}
