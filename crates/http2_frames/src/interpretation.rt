//! What a received frame says, after the rules on its stream number, its length and its padding.

ghost use Rattle.std.specs.Prelude.{◌≡◌, ◌-◌, ◌≤◌, ◌%◌, length, drop, slice_range, Ok, Err, false};
ghost use Rattle.byteorder.specs.Endian.{big_number};
ghost use Rattle.http2_frames.specs.Wire.{stream_limit};
ghost use Rattle.http2_frames.specs.Frames.{has_flag, lead_length, pad_length, unpadded_content, is_misaddressed, is_missized, is_overpadded, may_be_padded, content_of, frame_of};

use crate::codes::{ErrorCode, flag, frame_type};
use crate::frame::{Frame, RawFrame};
use crate::octets::Octets;
use crate::reader::MAX_FRAME_SIZE;
use crate::settings::SettingsList;
use byteorder::{BigEndian, ByteOrder};

fn has_flag(frame: &RawFrame<'_>, bit: u8) -> bool
    ensures { result ≡ has_flag frame.now bit }
{
    frame.flags & bit != 0
}

fn may_be_padded(frame: &RawFrame<'_>) -> bool
    ensures { result ≡ may_be_padded frame.now }
{
    frame.kind == frame_type::DATA || frame.kind == frame_type::HEADERS
}

fn is_misaddressed(frame: &RawFrame<'_>) -> bool
    ensures { result ≡ is_misaddressed frame.now }
{
    match frame.kind {
        frame_type::DATA
        | frame_type::HEADERS
        | frame_type::PRIORITY
        | frame_type::RST_STREAM
        | frame_type::CONTINUATION => frame.stream == 0,
        frame_type::SETTINGS | frame_type::PING | frame_type::GOAWAY => frame.stream != 0,
        _ => false,
    }
}

/// How many bytes stand before what may be padded.
fn lead(frame: &RawFrame<'_>) -> usize
    ensures { result ≡ lead_length frame.now }
{
    let pad_length = if has_flag(frame, flag::PADDED) { 1 } else { 0 };
    if frame.kind == frame_type::HEADERS && has_flag(frame, flag::PRIORITY) {
        return pad_length + 5;
    }
    pad_length
}

fn is_missized(frame: &RawFrame<'_>) -> bool
    ensures { result ≡ is_missized frame.now }
{
    let length = frame.payload.len();
    match frame.kind {
        frame_type::PRIORITY => length != 5,
        frame_type::RST_STREAM | frame_type::WINDOW_UPDATE => length != 4,
        frame_type::PING => length != 8,
        frame_type::GOAWAY => length < 8,
        frame_type::SETTINGS => length % 6 != 0 || (has_flag(frame, flag::ACK) && length != 0),
        frame_type::DATA | frame_type::HEADERS => length < lead(frame),
        _ => false,
    }
}

fn pad_length(frame: &RawFrame<'_>) -> usize
    requires { lead_length frame.now ≤ length frame.now.payload }
    ensures { result ≡ pad_length frame.now }
{
    if has_flag(frame, flag::PADDED) {
        return usize::from(frame.payload.as_slice()[0]);
    }
    0
}

fn is_overpadded(frame: &RawFrame<'_>) -> bool
    requires { is_missized frame.now ≡ false }
    ensures { result ≡ is_overpadded frame.now }
{
    may_be_padded(frame) && frame.payload.len() - lead(frame) < pad_length(frame)
}

/// What the frame says, or the fault of the connection that it is: the first by its stream number,
/// its length and its padding, in this order.
pub fn interpret<'a>(frame: &RawFrame<'a>) -> Result<Frame<'a>, ErrorCode>
    ensures { result ≡ frame_of frame.now }
{
    if is_misaddressed(frame) {
        return Err(ErrorCode::ProtocolError);
    }
    if is_missized(frame) {
        return Err(ErrorCode::FrameSizeError);
    }
    if is_overpadded(frame) {
        return Err(ErrorCode::ProtocolError);
    }
    Ok(content(frame))
}

fn content<'a>(frame: &RawFrame<'a>) -> Frame<'a>
    requires sized { is_missized frame.now ≡ false }
    requires padded { is_overpadded frame.now ≡ false }
    ensures { result ≡ content_of frame.now }
{
    let stream = frame.stream;
    let payload = frame.payload.as_slice();
    match frame.kind {
        frame_type::DATA => Frame::Data {
            stream,
            end_stream: has_flag(frame, flag::END_STREAM),
            data: Octets::new(unpadded(frame)),
        },
        frame_type::HEADERS => Frame::Headers {
            stream,
            end_stream: has_flag(frame, flag::END_STREAM),
            end_headers: has_flag(frame, flag::END_HEADERS),
            fragment: Octets::new(unpadded(frame)),
        },
        frame_type::PRIORITY => Frame::Priority {
            stream,
            priority: Octets::new(payload),
        },
        frame_type::RST_STREAM => Frame::RstStream {
            stream,
            error_code: BigEndian::read_u32(payload),
        },
        frame_type::SETTINGS => Frame::Settings {
            ack: has_flag(frame, flag::ACK),
            settings: SettingsList::new(payload),
        },
        frame_type::PUSH_PROMISE => Frame::PushPromise {
            flags: frame.flags,
            stream,
            payload: Octets::new(payload),
        },
        frame_type::PING => Frame::Ping {
            ack: has_flag(frame, flag::ACK),
            opaque_data: opaque_data(payload),
        },
        frame_type::GOAWAY => go_away(payload),
        frame_type::WINDOW_UPDATE => Frame::WindowUpdate {
            stream,
            increment: BigEndian::read_u32(payload) % (1 << 31),
        },
        frame_type::CONTINUATION => Frame::Continuation {
            stream,
            end_headers: has_flag(frame, flag::END_HEADERS),
            fragment: Octets::new(payload),
        },
        kind => Frame::Unknown {
            kind,
            flags: frame.flags,
            stream,
            payload: Octets::new(payload),
        },
    }
}

fn unpadded<'a>(frame: &RawFrame<'a>) -> &'a [u8]
    requires sized { lead_length frame.now ≤ length frame.now.payload }
    requires padded { pad_length frame.now ≤ length frame.now.payload - lead_length frame.now }
    ensures content { result.now ≡ unpadded_content frame.now }
    ensures few { length result.now ≤ MAX_FRAME_SIZE }
{
    let payload = frame.payload.as_slice();
    &payload[lead(frame)..payload.len() - pad_length(frame)]
}

fn go_away(payload: &[u8]) -> Frame<'_>
    requires lead { 8 ≤ length payload.now }
    requires few { length payload.now ≤ MAX_FRAME_SIZE }
    ensures { result ≡ Frame.GoAway (big_number 4 payload.now % stream_limit)
        (big_number 4 (drop 4 payload.now)) (drop 8 payload.now) }
{
    Frame::GoAway {
        last_stream: BigEndian::read_u32(payload) % (1 << 31),
        error_code: BigEndian::read_u32(&payload[4..]),
        debug_data: Octets::new(&payload[8..]),
    }
}

fn opaque_data(payload: &[u8]) -> [u8; 8]
    requires { length payload.now ≡ 8 }
    ensures { result ≡ payload.now }
{
    let mut data = [0u8; 8];
    data.copy_from_slice(payload);
    data
}
