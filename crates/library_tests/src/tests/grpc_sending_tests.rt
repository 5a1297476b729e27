//! What is sent of messages and ranges, and in which pieces.

ghost use Rattle.std.specs.Prelude.{◌<◌, length};
ghost use Rattle.conn_core.specs.GrpcMessagesWire.{message_length_limit};
ghost use Rattle.grpc_sending.specs.StoredSending.{SourceTexts, QueuesEndWithin};

use crate::tests::one_byte::OneByte;
use grpc_calls::{ResponseBlock, Status};
use grpc_sending::*;
use http2_frames::{Frame, FrameReader};
use http2_streams::Streams;
use rpc::Refusal;
use std::alloc::{AllocError, Global};
use std::test::*;

const SETTINGS: &[u8] = b"\x00\x00\x00\x04\x00\x00\x00\x00\x00";

/// A request on stream 1 that the client has ended, or not.
const ENDED: &[u8] = b"\x00\x00\x03\x01\x05\x00\x00\x00\x01\x83\x86\x84";

const NOT_ENDED: &[u8] = b"\x00\x00\x03\x01\x04\x00\x00\x00\x01\x83\x86\x84";

fn read(streams: &mut Streams, reader: &mut FrameReader, piece: Vec<u8>) -> bool {
    if reader.feed(piece).is_err() {
        return false;
    }
    for _ in 0..9 {
        match reader.find() {
            Ok(true) => {
                let _ = streams.on_frame(&reader.frame());
                reader.pass();
            }
            _ => break,
        }
    }
    true
}

/// Gives the streams the frames of these bytes, unless memory is refused.
fn receive(alloc: Global, streams: &mut Streams, bytes: &[u8]) -> bool {
    let mut reader = FrameReader::without_preface(alloc);
    match Vec::from_slice(alloc, bytes) {
        Ok(piece) => read(streams, &mut reader, piece),
        Err(_) => false,
    }
}

const RESPONSE: &[u8] = b"\x00\x00\x15\x01\x04\x00\x00\x00\x01\x20\x88\x0f\x10\x10application/grpc\
    \x00\x00\x08\x00\x00\x00\x00\x00\x01\x00\x00\x00\x00\x03abc\
    \x00\x00\x0f\x01\x05\x00\x00\x00\x01\x00\x0bgrpc-status\x010";

// No range is owed in these tests: what is to be put fits any texts of sources.

fn owe_block(streams: &Streams, sender: &mut Sender, block: ResponseBlock) -> Result<(), AllocError>
    requires { (texts : SourceTexts) → QueuesEndWithin texts sender.old.queues }
    ensures { (texts : SourceTexts) → QueuesEndWithin texts sender.new.queues }
{
    sender.owe_block(streams, 1, block)
}

fn owe_message(
    streams: &Streams,
    sender: &mut Sender,
    stream: u32,
    message: Vec<u8>,
) -> Result<(), AllocError>
    requires fit { (texts : SourceTexts) → QueuesEndWithin texts sender.old.queues }
    requires short { length message.items < message_length_limit }
    ensures { (texts : SourceTexts) → QueuesEndWithin texts sender.new.queues }
{
    sender.owe_message(streams, stream, message)
}

fn take_all(sender: &mut Sender)
    requires { (texts : SourceTexts) → QueuesEndWithin texts sender.old.queues }
    ensures { (texts : SourceTexts) → QueuesEndWithin texts sender.new.queues }
{
    let all = sender.pending().len();
    sender.took(all);
}

fn pump(streams: &mut Streams, sender: &mut Sender)
    requires { (texts : SourceTexts) → QueuesEndWithin texts sender.old.queues }
    ensures { (texts : SourceTexts) → QueuesEndWithin texts sender.new.queues }
{
    sender.pump(streams, &OneByte);
}

/// Owes a response on stream 1, and a message on a stream that is not there.
fn owe_response(alloc: Global, streams: &Streams, sender: &mut Sender) -> Result<(), AllocError>
    requires { (texts : SourceTexts) → QueuesEndWithin texts sender.old.queues }
    ensures { (texts : SourceTexts) → QueuesEndWithin texts sender.new.queues }
{
    owe_block(streams, sender, ResponseBlock::Head)?;
    owe_message(streams, sender, 1, Vec::from_slice(alloc, b"abc")?)?;
    owe_block(streams, sender, ResponseBlock::Trailers(Status::Success))?;
    let message = Vec::from_slice(alloc, b"to no stream")?;
    owe_message(streams, sender, 3, message)
}

/// Whether these bytes wait, which are all taken.
fn gives(sender: &mut Sender, wanted: &[u8]) -> bool {
    if sender.pending() != wanted {
        return false;
    }
    sender.took(wanted.len());
    sender.pending().is_empty()
}

fn sends_response(alloc: Global, streams: &mut Streams, sender: &mut Sender) -> bool
    requires { (texts : SourceTexts) → QueuesEndWithin texts sender.old.queues }
{
    let owed = owe_response(alloc, streams, sender).is_ok();
    pump(streams, sender);
    owed && gives(sender, RESPONSE) && streams.live().is_empty()
}

const REFUSAL: &[u8] = b"\x00\x00\x06\x01\x05\x00\x00\x00\x01\x20\x08\x03405\
    \x00\x00\x04\x03\x00\x00\x00\x00\x01\x00\x00\x00\x00";

/// The client has not ended the stream, so it is reset after its response.
fn sends_refusal(streams: &mut Streams, sender: &mut Sender) -> bool
    requires { (texts : SourceTexts) → QueuesEndWithin texts sender.old.queues }
{
    let owed = owe_block(streams, sender, ResponseBlock::MethodNotAllowed).is_ok();
    pump(streams, sender);
    owed && sender.pending() == REFUSAL
}

/// The length of the next frame's payload.
fn next_length(reader: &mut FrameReader) -> Option<usize> {
    match reader.find() {
        Ok(true) => {
            let length = reader.frame().payload.len();
            reader.pass();
            Some(length)
        }
        _ => None,
    }
}

fn reads_lengths(reader: &mut FrameReader, piece: Vec<u8>, wanted: &[usize]) -> bool {
    if reader.feed(piece).is_err() {
        return false;
    }
    for length in wanted {
        if next_length(reader) != Some(*length) {
            return false;
        }
    }
    next_length(reader).is_none()
}

/// Whether these are the lengths of the frames of these bytes.
fn has_lengths(alloc: Global, bytes: &[u8], wanted: &[usize]) -> bool {
    let mut reader = FrameReader::without_preface(alloc);
    match Vec::from_slice(alloc, bytes) {
        Ok(piece) => reads_lengths(&mut reader, piece, wanted),
        Err(_) => false,
    }
}

/// Owes a message of 100,000 bytes and an end on stream 1.
fn owe_large(alloc: Global, streams: &Streams, sender: &mut Sender) -> Result<(), AllocError>
    requires { (texts : SourceTexts) → QueuesEndWithin texts sender.old.queues }
    ensures { (texts : SourceTexts) → QueuesEndWithin texts sender.new.queues }
{
    let message = vec![in alloc; 7u8; 100_000]?;
    owe_message(streams, sender, 1, message)?;
    let end = Status::Refused(Refusal::BlobNotFound);
    owe_block(streams, sender, ResponseBlock::Trailers(end))
}

/// As many bytes more for the connection and for stream 1 as the rest of the message has.
const UPDATES: &[u8] =
    b"\x00\x00\x04\x08\x00\x00\x00\x00\x00\x00\x00\x86\xb3\x00\x00\x04\x08\x00\x00\x00\x00\x01\x00\x00\x86\xb3";

/// With the default windows of 65,535 bytes.
fn sends_large(alloc: Global, streams: &mut Streams, sender: &mut Sender) -> bool
    requires { (texts : SourceTexts) → QueuesEndWithin texts sender.old.queues }
{
    let owed = owe_large(alloc, streams, sender).is_ok();
    pump(streams, sender);
    let first = has_lengths(alloc, sender.pending(), &[16384, 16384, 16384, 16383]);
    take_all(sender);
    let received = receive(alloc, streams, UPDATES);
    pump(streams, sender);
    let second = has_lengths(alloc, sender.pending(), &[16384, 16384, 1702, 45]);
    owed && first && received && second
}

/// What is sent on stream 1.
#[derive(Clone, Copy)]
enum Sent {
    Response,
    Refusal,
    Large,
}

fn sends(alloc: Global, streams: &mut Streams, sender: &mut Sender, sent: Sent) -> bool
    requires { (texts : SourceTexts) → QueuesEndWithin texts sender.old.queues }
{
    match sent {
        Sent::Response => sends_response(alloc, streams, sender),
        Sent::Refusal => sends_refusal(streams, sender),
        Sent::Large => sends_large(alloc, streams, sender),
    }
}

/// Whether that is sent after this request as it should be.
fn passes(alloc: Global, request: &[u8], sent: Sent) -> bool {
    let Ok(mut streams) = Streams::new(alloc) else {
        return false;
    };
    let Ok(mut sender) = Sender::new(alloc) else {
        return false;
    };
    receive(alloc, &mut streams, SETTINGS)
        && receive(alloc, &mut streams, request)
        && sends(alloc, &mut streams, &mut sender, sent)
}

#[test]
fn a_whole_response(rt: HostRuntime) {
    assert!(rt; passes(rt.alloc(), ENDED, Sent::Response));
}

#[test]
fn a_response_before_the_end(rt: HostRuntime) {
    assert!(rt; passes(rt.alloc(), NOT_ENDED, Sent::Refusal));
}

#[test]
fn as_much_as_the_windows_take(rt: HostRuntime) {
    assert!(rt; passes(rt.alloc(), ENDED, Sent::Large));
}

/// Puts answers to PING as long as there is room for control frames, and tells how many.
fn puts_pings(sender: &mut Sender) -> usize {
    let ping = Frame::Ping {
        ack: true,
        opaque_data: *b"12345678",
    };
    let mut count = 0;
    for i in 0..10_000 {
        if !sender.has_room(&ping) {
            break;
        }
        sender.put_control(&ping);
        count = i + 1;
    }
    count
}

/// Whether there is room for one more after as many bytes were taken, and the same number waits
/// then.
fn puts_one_more(sender: &mut Sender) -> bool {
    let ping = Frame::Ping {
        ack: true,
        opaque_data: *b"12345678",
    };
    let all = sender.pending().len();
    if all < 17 {
        return false;
    }
    sender.took(17);
    if !sender.has_room(&ping) {
        return false;
    }
    sender.put_control(&ping);
    sender.pending().len() == all
}

fn controls(alloc: Global) -> bool {
    let Ok(mut sender) = Sender::new(alloc) else {
        return false;
    };
    let count = puts_pings(&mut sender);
    let all = sender.pending().len();
    let more = puts_one_more(&mut sender);
    sender.forget(1);
    sender.forget_all();
    count == 7709 && all == 131_053 && more
}

#[test]
fn control_frames(rt: HostRuntime) {
    assert!(rt; controls(rt.alloc()));
}
