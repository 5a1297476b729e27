//! What is sent between received frames. What received frames cause is shown by the stored scripts
//! of `acceptance`.

use http2_frames::{FrameReader, RawFrame};
use http2_streams::*;
use std::alloc::Global;
use std::test::*;

/// What a frame brings.
#[derive(Clone, Copy, PartialEq, Eq)]
enum Brought {
    NoFrame,
    Nothing,
    Request(u32),
    Other,
    Fault,
}

fn brings(streams: &mut Streams, frame: &RawFrame<'_>) -> Brought {
    match streams.on_frame(frame) {
        Ok(event) => match event.event {
            Event::Nothing => Brought::Nothing,
            Event::Request { stream, .. } => Brought::Request(stream),
            _ => Brought::Other,
        },
        Err(_) => Brought::Fault,
    }
}

fn reads(streams: &mut Streams, reader: &mut FrameReader, piece: Vec<u8>) -> Brought {
    if reader.feed(piece).is_err() {
        return Brought::NoFrame;
    }
    match reader.find() {
        Ok(true) => brings(streams, &reader.frame()),
        _ => Brought::NoFrame,
    }
}

/// What the frame of these bytes brings.
fn receives(alloc: Global, streams: &mut Streams, bytes: &[u8]) -> Brought {
    let mut reader = FrameReader::without_preface(alloc);
    match Vec::from_slice(alloc, bytes) {
        Ok(piece) => reads(streams, &mut reader, piece),
        Err(_) => Brought::NoFrame,
    }
}

/// A request on stream 1 that goes on, and one on stream 3 that has ended.
fn opens_two(alloc: Global, streams: &mut Streams) -> bool {
    receives(alloc, streams, b"\0\0\0\x04\0\0\0\0\0") == Brought::Nothing
        && receives(alloc, streams, b"\0\0\x03\x01\x04\0\0\0\x01\x82\x86\x84")
            == Brought::Request(1)
        && receives(alloc, streams, b"\0\0\x03\x01\x05\0\0\0\x03\x82\x86\x84")
            == Brought::Request(3)
}

/// Puts all that the connection's window takes on stream 3.
fn fills_the_window(streams: &mut Streams) -> bool {
    let live = streams.is_live(3) && !streams.is_live(5) && !streams.can_send(5, 1);
    let open = streams.can_send(1, 65_535) && !streams.can_send(1, 65_536);
    if streams.is_live(3) {
        streams.on_headers_put(3, false);
    }
    if streams.can_send(3, 65_535) {
        streams.on_data_put(3, 65_535, false);
    }
    live && open && streams.connection_window() == 0 && !streams.can_send(1, 1)
}

/// Ends both responses where the connection's window takes one byte more, and resets stream 1.
fn ends_both(streams: &mut Streams) -> bool {
    let open = streams.can_send(1, 1) && !streams.can_send(3, 1);
    if streams.can_send(1, 1) {
        streams.on_data_put(1, 1, true);
    }
    if streams.is_live(3) {
        streams.on_headers_put(3, true);
    }
    let ended = streams.is_live(1) && !streams.is_live(3);
    if 1 <= streams.highest() {
        streams.on_reset_put(1);
    }
    open && ended && streams.live().is_empty()
}

/// Sends on both streams, in between what the client sends.
fn sends(alloc: Global, streams: &mut Streams) -> bool {
    let opened = opens_two(alloc, streams);
    let filled = fills_the_window(streams);
    let granted = receives(alloc, streams, b"\0\0\x04\x08\0\0\0\0\0\0\0\0\x01");
    let ended = ends_both(streams);
    let ignored = receives(alloc, streams, b"\0\0\0\0\0\0\0\0\x01");
    streams.fail();
    opened
        && filled
        && granted == Brought::Nothing
        && ended
        && ignored == Brought::Nothing
        && streams.has_failed()
}

fn passes(alloc: Global) -> bool {
    match Streams::new(alloc) {
        Ok(mut streams) => sends(alloc, &mut streams),
        Err(_) => false,
    }
}

#[test]
fn sending(rt: HostRuntime) {
    assert!(rt; passes(rt.alloc()));
}
