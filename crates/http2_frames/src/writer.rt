//! Writing frames.

ghost use Rattle.std.specs.Prelude.{◌≡◌, ◌+◌, ◌++◌, ◌≤◌, length, vec_len, vec_capacity, OnOk, OnErr};
ghost use Rattle.byteorder.specs.Endian.{big_bytes};
ghost use Rattle.http2_frames.specs.declared.frame.Frame.{Frame};
ghost use Rattle.http2_frames.specs.Writing.{header_text, set_if, raw_of, text_of};

use crate::codes::{flag, frame_type};
use crate::frame::Frame;
use crate::reader::{HEADER_LENGTH, MAX_FRAME_SIZE};
use byteorder::{BigEndian, ByteOrder};
use std::alloc::AllocError;

/// Appends the nine bytes that stand before a payload of `size` bytes, which are at most
/// `MAX_FRAME_SIZE`. The vector has room for the nine, so no memory is asked for.
pub fn put_header(out: &mut Vec<u8>, size: usize, kind: u8, flags: u8, stream: u32)
    requires room { vec_len out.old + HEADER_LENGTH ≤ vec_capacity out.old }
    requires short { size ≤ MAX_FRAME_SIZE }
    ensures items { out.new.items ≡ out.old.items ++ header_text size kind flags stream }
    ensures capacity { vec_capacity out.old ≤ vec_capacity out.new }
{
    let mut bytes = [0u8; HEADER_LENGTH];
    let header: &mut [u8] = &mut bytes;
    BigEndian::write_u24(header, size as u32);
    header[3] = kind;
    header[4] = flags;
    BigEndian::write_u32(&mut header[5..], stream);
    out.extend_from_slice(&bytes).unwrap();
}

fn set_if(is: bool, flag: u8) -> u8
    ensures { result ≡ set_if is flag }
{
    if is { flag } else { 0 }
}

fn put(out: &mut Vec<u8>, kind: u8, flags: u8, stream: u32, payload: &[u8])
    requires room { vec_len out.old + (HEADER_LENGTH + length payload.now) ≤ vec_capacity out.old }
    requires short { length payload.now ≤ MAX_FRAME_SIZE }
    ensures items { out.new.items ≡ out.old.items
        ++ (header_text (length payload.now) kind flags stream ++ payload.now) }
    ensures capacity { vec_capacity out.old ≤ vec_capacity out.new }
{
    put_header(out, payload.len(), kind, flags, stream);
    out.extend_from_slice(payload).unwrap();
}

fn put_number(out: &mut Vec<u8>, kind: u8, stream: u32, number: u32)
    requires { vec_len out.old + (HEADER_LENGTH + 4) ≤ vec_capacity out.old }
    ensures items { out.new.items ≡ out.old.items
        ++ (header_text 4 kind 0 stream ++ big_bytes 4 number) }
    ensures capacity { vec_capacity out.old ≤ vec_capacity out.new }
{
    let mut bytes = [0u8; 4];
    BigEndian::write_u32(&mut bytes, number);
    put(out, kind, 0, stream, &bytes);
}

/// Appends what stands before the debug data of a GOAWAY.
fn put_numbers(out: &mut Vec<u8>, last_stream: u32, error_code: u32)
    requires { vec_len out.old + 8 ≤ vec_capacity out.old }
    ensures items { out.new.items ≡ out.old.items
        ++ (big_bytes 4 last_stream ++ big_bytes 4 error_code) }
    ensures capacity { vec_capacity out.old ≤ vec_capacity out.new }
{
    let mut bytes = [0u8; 8];
    let payload: &mut [u8] = &mut bytes;
    BigEndian::write_u32(payload, last_stream);
    BigEndian::write_u32(&mut payload[4..], error_code);
    out.extend_from_slice(&bytes).unwrap();
}

fn put_go_away(out: &mut Vec<u8>, last_stream: u32, error_code: u32, debug_data: &[u8])
    requires room { vec_len out.old + (HEADER_LENGTH + (8 + length debug_data.now))
        ≤ vec_capacity out.old }
    requires short { 8 + length debug_data.now ≤ MAX_FRAME_SIZE }
    ensures items { out.new.items ≡ out.old.items
        ++ text_of (Frame.GoAway last_stream error_code debug_data.now) }
    ensures capacity { vec_capacity out.old ≤ vec_capacity out.new }
{
    put_header(out, 8 + debug_data.len(), frame_type::GOAWAY, 0, 0);
    put_numbers(out, last_stream, error_code);
    out.extend_from_slice(debug_data).unwrap();
}

fn length_of(bytes: &[u8]) -> usize
    ensures { result ≡ length bytes.now }
{
    bytes.len()
}

/// The number of bytes in the frame's payload, at most `MAX_FRAME_SIZE`.
pub fn payload_length(frame: &Frame<'_>) -> usize
    requires { length (raw_of frame.now).payload ≤ MAX_FRAME_SIZE }
    ensures { result ≡ length (raw_of frame.now).payload }
{
    match frame {
        Frame::Data { data, .. } => data.len(),
        Frame::Headers { fragment, .. } | Frame::Continuation { fragment, .. } => fragment.len(),
        Frame::Priority { priority, .. } => priority.len(),
        Frame::RstStream { .. } | Frame::WindowUpdate { .. } => 4,
        Frame::Settings { settings, .. } => settings.as_slice().len(),
        Frame::PushPromise { payload, .. } | Frame::Unknown { payload, .. } => payload.len(),
        Frame::Ping { opaque_data, .. } => length_of(opaque_data),
        Frame::GoAway { debug_data, .. } => 8 + debug_data.len(),
    }
}

/// Appends the frame, whose payload has at most `MAX_FRAME_SIZE` bytes. The vector has room for it,
/// so no memory is asked for.
pub fn put_frame(out: &mut Vec<u8>, frame: &Frame<'_>)
    requires room { vec_len out.old + (HEADER_LENGTH + length (raw_of frame.now).payload)
        ≤ vec_capacity out.old }
    requires short { length (raw_of frame.now).payload ≤ MAX_FRAME_SIZE }
    ensures items { out.new.items ≡ out.old.items ++ text_of frame.now }
    ensures capacity { vec_capacity out.old ≤ vec_capacity out.new }
{
    match frame {
        Frame::Data {
            stream,
            end_stream,
            data,
        } => {
            let flags = set_if(*end_stream, flag::END_STREAM);
            put(out, frame_type::DATA, flags, *stream, data.as_slice());
        }
        Frame::Headers {
            stream,
            end_stream,
            end_headers,
            fragment,
        } => {
            let end_stream = set_if(*end_stream, flag::END_STREAM);
            let end_headers = set_if(*end_headers, flag::END_HEADERS);
            put(
                out,
                frame_type::HEADERS,
                end_stream + end_headers,
                *stream,
                fragment.as_slice(),
            );
        }
        Frame::Priority { stream, priority } => {
            put(out, frame_type::PRIORITY, 0, *stream, priority.as_slice());
        }
        Frame::RstStream { stream, error_code } => {
            put_number(out, frame_type::RST_STREAM, *stream, *error_code);
        }
        Frame::Settings { ack, settings } => {
            put(
                out,
                frame_type::SETTINGS,
                set_if(*ack, flag::ACK),
                0,
                settings.as_slice(),
            );
        }
        Frame::PushPromise {
            flags,
            stream,
            payload,
        } => {
            put(
                out,
                frame_type::PUSH_PROMISE,
                *flags,
                *stream,
                payload.as_slice(),
            );
        }
        Frame::Ping { ack, opaque_data } => {
            put(
                out,
                frame_type::PING,
                set_if(*ack, flag::ACK),
                0,
                opaque_data,
            );
        }
        Frame::GoAway {
            last_stream,
            error_code,
            debug_data,
        } => {
            put_go_away(out, *last_stream, *error_code, debug_data.as_slice());
        }
        Frame::WindowUpdate { stream, increment } => {
            put_number(out, frame_type::WINDOW_UPDATE, *stream, *increment);
        }
        Frame::Continuation {
            stream,
            end_headers,
            fragment,
        } => {
            let flags = set_if(*end_headers, flag::END_HEADERS);
            put(
                out,
                frame_type::CONTINUATION,
                flags,
                *stream,
                fragment.as_slice(),
            );
        }
        Frame::Unknown {
            kind,
            flags,
            stream,
            payload,
        } => {
            put(out, *kind, *flags, *stream, payload.as_slice());
        }
    }
}

/// Appends the frame, whose payload has at most `MAX_FRAME_SIZE` bytes. Where memory is refused the
/// bytes are as they were.
pub fn write_frame(out: &mut Vec<u8>, frame: &Frame<'_>) -> Result<(), AllocError>
    requires { length (raw_of frame.now).payload ≤ MAX_FRAME_SIZE }
    ensures ok { OnOk result (out.new.items ≡ out.old.items ++ text_of frame.now) }
    ensures err { OnErr result (out.new.items ≡ out.old.items) }
{
    out.reserve(HEADER_LENGTH + payload_length(frame))?;
    put_frame(out, frame);
    Ok(())
}
