//! HTTP/2 frames: as they are read, what they say, and how a server writes that.

ghost use Rattle.std.specs.Prelude.{◌≡◌, ◌≤◌, length, true};
ghost use Rattle.http2_frames.specs.Writing.{raw_of};

use crate::octets::octets;
use http2_frames::{
    Frame, FrameError, FrameReader, MAX_FRAME_SIZE, RawFrame, interpret, write_frame,
};
use tool_programs::Output;

fn length_of(bytes: &[u8]) -> usize
    ensures { result ≡ length bytes.now }
{
    bytes.len()
}

/// Whether the frame has no more than 16,384 bytes of payload when it is written.
fn fits(frame: &Frame<'_>) -> bool
    ensures { result ≡ true → length (raw_of frame.now).payload ≤ MAX_FRAME_SIZE }
{
    match frame {
        Frame::Data { data, .. } => data.len() <= MAX_FRAME_SIZE,
        Frame::Headers { fragment, .. } => fragment.len() <= MAX_FRAME_SIZE,
        Frame::Continuation { fragment, .. } => fragment.len() <= MAX_FRAME_SIZE,
        Frame::Priority { priority, .. } => priority.len() <= MAX_FRAME_SIZE,
        Frame::Settings { settings, .. } => settings.as_slice().len() <= MAX_FRAME_SIZE,
        Frame::PushPromise { payload, .. } => payload.len() <= MAX_FRAME_SIZE,
        Frame::Unknown { payload, .. } => payload.len() <= MAX_FRAME_SIZE,
        Frame::GoAway { debug_data, .. } => debug_data.len() <= MAX_FRAME_SIZE - 8,
        Frame::RstStream { .. } => true,
        Frame::WindowUpdate { .. } => true,
        Frame::Ping { opaque_data, .. } => length_of(opaque_data) <= MAX_FRAME_SIZE,
    }
}

/// Writes how a server writes a frame: no bytes where it does not fit.
fn show_written(frame: &Frame<'_>, out: &mut Output) {
    let mut bytes = Vec::new(out.alloc);
    if fits(frame) {
        out.expect(write_frame(&mut bytes, frame));
    }
    out.print(b" is ");
    out.print_hex(&bytes);
}

/// Writes what a frame says, or its error.
fn show_meaning(frame: &RawFrame<'_>, out: &mut Output) {
    match interpret(frame) {
        Ok(frame) => show_written(&frame, out),
        Err(code) => {
            let number = code.number();
            out.print_text(format!(in out.alloc; " error {number}"));
        }
    }
    out.print(b"\n");
}

/// Writes a frame as it was read.
fn show_frame(frame: &RawFrame<'_>, out: &mut Output) {
    let (kind, flags, stream) = (frame.kind, frame.flags, frame.stream);
    out.print_text(format!(in out.alloc; "frame {kind} {flags} {stream} "));
    out.print_hex(frame.payload.as_slice());
}

fn show_fault(fault: FrameError, out: &mut Output) {
    out.print_text(format!(in out.alloc; "{fault:?}\n"));
}

/// Writes the next frame, where it is whole, or else what the reader answers; tells whether there
/// may be more.
fn show_next(reader: &mut FrameReader, out: &mut Output) -> bool {
    match reader.find() {
        Ok(true) => {
            let frame = reader.frame();
            show_frame(&frame, out);
            show_meaning(&frame, out);
            reader.pass();
            return true;
        }
        Ok(false) => out.print(b"wait\n"),
        Err(fault) => show_fault(fault, out),
    }
    false
}

/// Feeds a piece, and writes the frames that are whole, and what the reader answers then.
fn show_piece(reader: &mut FrameReader, piece: Vec<u8>, out: &mut Output) {
    let most = piece.len();
    if let Err(fault) = reader.feed(piece) {
        return show_fault(fault, out);
    }
    for _ in 0..=most {
        if !show_next(reader, out) {
            break;
        }
    }
}

/// Feeds each line's bytes to a reader.
fn feed_all(reader: &mut FrameReader, operations: &[&[u8]], out: &mut Output) {
    for line in operations {
        show_piece(reader, octets(line, out), out);
    }
}

/// Reads what a client sends.
pub fn client(operations: &[&[u8]], out: &mut Output) {
    feed_all(&mut FrameReader::new(out.alloc), operations, out);
}

/// Reads what a server sends, which has no preface.
pub fn server(operations: &[&[u8]], out: &mut Output) {
    feed_all(
        &mut FrameReader::without_preface(out.alloc),
        operations,
        out,
    );
}
