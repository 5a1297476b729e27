//! A connection from its preface to the answer of a call.

ghost use Rattle.grpc_sending.specs.StoredSending.{SourceTexts, QueuesEndWithin};

use crate::tests::one_byte::OneByte;
use conn_core::*;
use grpc_calls::{Method, ResponseBlock, Status};
use rpc::Refusal;
use std::alloc::{AllocError, Global};
use std::test::*;

const PREFACE: &[u8] = b"PRI * HTTP/2.0\r\n\r\nSM\r\n\r\n\x00\x00\x00\x04\x00\x00\x00\x00\x00";

/// A call of FindMissingBlobs on stream 1, and one message of 70 bytes, which is its answer, too.
const HEADERS: &[u8] = b"\x00\x00\x6f\x01\x04\x00\x00\x00\x01\x83\x86\x04\x4b\
    /build.bazel.remote.execution.v2.ContentAddressableStorage/FindMissingBlobs\
    \x0f\x10\x10application/grpc\x00\x02te\x08trailers";

const DATA: &[u8] = b"\x00\x00\x4b\x00\x01\x00\x00\x00\x01\x00\x00\x00\x00\x46";

const MESSAGE: &[u8] =
    b"\x12\x44\x0a\x40ba7816bf8f01cfea414140de5dae2223b00361a396177a9cb410ff61f20015ad\x10\x03";

/// The server's SETTINGS, and all that answers the call.
const ANSWERS: &[u8] = b"\x00\x00\x06\x04\x00\x00\x00\x00\x00\x00\x03\x00\x00\x00\x64\
    \x00\x00\x00\x04\x01\x00\x00\x00\x00\
    \x00\x00\x04\x08\x00\x00\x00\x00\x00\x00\x00\x00\x4b\
    \x00\x00\x15\x01\x04\x00\x00\x00\x01\x20\x88\x0f\x10\x10application/grpc\
    \x00\x00\x4b\x00\x00\x00\x00\x00\x01\x00\x00\x00\x00\x46";

const TRAILERS: &[u8] = b"\x00\x00\x0f\x01\x05\x00\x00\x00\x01\x00\x0bgrpc-status\x010";

const PING: &[u8] = b"\x00\x00\x08\x06\x00\x00\x00\x00\x00\x01\x02\x03\x04\x05\x06\x07\x08";

/// GOAWAY names stream 1 and the code 11.
const GOAWAY: &[u8] = b"\x00\x00\x08\x07\x00\x00\x00\x00\x00\x00\x00\x00\x01\x00\x00\x00\x0b";

fn letter(event: &CallEvent) -> u8 {
    match event {
        CallEvent::Head { method, .. } => {
            if *method == Method::FindMissingBlobs {
                b'H'
            } else {
                b'?'
            }
        }
        CallEvent::Message { .. } => b'M',
        CallEvent::Fault { refusal, .. } => match refusal {
            Refusal::CompressedMessage => b'c',
            Refusal::MessageTooLarge => b'l',
            _ => b'o',
        },
        CallEvent::End { .. } => b'E',
        CallEvent::Cancel { .. } => b'C',
    }
}

// No range is owed in these tests: what is to be put fits any texts of sources.

fn owe_block(connection: &mut Connection, block: ResponseBlock) -> Result<(), AllocError>
    requires { (texts : SourceTexts) → QueuesEndWithin texts connection.old.sending.queues }
    ensures { (texts : SourceTexts) → QueuesEndWithin texts connection.new.sending.queues }
{
    connection.owe_block(1, block)
}

fn owe_message(alloc: Global, connection: &mut Connection) -> Result<(), AllocError>
    requires { (texts : SourceTexts) → QueuesEndWithin texts connection.old.sending.queues }
    ensures { (texts : SourceTexts) → QueuesEndWithin texts connection.new.sending.queues }
{
    connection.owe_message(1, Vec::from_slice(alloc, MESSAGE)?)
}

fn feed(connection: &mut Connection, piece: Vec<u8>) -> Result<(), AllocError>
    requires { (texts : SourceTexts) → QueuesEndWithin texts connection.old.sending.queues }
    ensures { (texts : SourceTexts) → QueuesEndWithin texts connection.new.sending.queues }
{
    connection.feed(piece)
}

fn pop_event(connection: &mut Connection) -> Option<CallEvent>
    requires { (texts : SourceTexts) → QueuesEndWithin texts connection.old.sending.queues }
    ensures { (texts : SourceTexts) → QueuesEndWithin texts connection.new.sending.queues }
{
    connection.pop_event()
}

fn read_frame(connection: &mut Connection) -> Result<bool, AllocError>
    requires { (texts : SourceTexts) → QueuesEndWithin texts connection.old.sending.queues }
    ensures { (texts : SourceTexts) → QueuesEndWithin texts connection.new.sending.queues }
{
    connection.read_frame()
}

fn pump(connection: &mut Connection)
    requires { (texts : SourceTexts) → QueuesEndWithin texts connection.old.sending.queues }
    ensures { (texts : SourceTexts) → QueuesEndWithin texts connection.new.sending.queues }
{
    connection.pump(&OneByte);
}

/// Owes the answer to the call.
fn answer(alloc: Global, connection: &mut Connection) -> Result<(), AllocError>
    requires { (texts : SourceTexts) → QueuesEndWithin texts connection.old.sending.queues }
    ensures { (texts : SourceTexts) → QueuesEndWithin texts connection.new.sending.queues }
{
    owe_block(connection, ResponseBlock::Head)?;
    owe_message(alloc, connection)?;
    owe_block(connection, ResponseBlock::Trailers(Status::Success))
}

/// Notes each event of calls that is due as a letter.
fn note_events(connection: &mut Connection, all: &mut Vec<u8>) -> Result<(), AllocError>
    requires { (texts : SourceTexts) → QueuesEndWithin texts connection.old.sending.queues }
    ensures { (texts : SourceTexts) → QueuesEndWithin texts connection.new.sending.queues }
{
    'events: for _ in 0..1_000_000 {
        match pop_event(connection) {
            None => return Ok(()),
            Some(event) => all.push(letter(&event))?,
        }
    }
    Ok(())
}

/// Notes each event of calls as a letter, and each frame as a dot.
fn note_frames(connection: &mut Connection, all: &mut Vec<u8>) -> Result<(), AllocError>
    requires { (texts : SourceTexts) → QueuesEndWithin texts connection.old.sending.queues }
    ensures { (texts : SourceTexts) → QueuesEndWithin texts connection.new.sending.queues }
{
    'frames: for _ in 0..1_000_000 {
        note_events(connection, all)?;
        if !read_frame(connection)? {
            return Ok(());
        }
        all.push(b'.')?;
    }
    Ok(())
}

/// Takes bytes, notes what they bring, and pumps.
fn receive(connection: &mut Connection, piece: &[u8], all: &mut Vec<u8>) -> Result<(), AllocError>
    requires { (texts : SourceTexts) → QueuesEndWithin texts connection.old.sending.queues }
    ensures { (texts : SourceTexts) → QueuesEndWithin texts connection.new.sending.queues }
{
    feed(connection, Vec::from_slice(*all.allocator(), piece)?)?;
    note_frames(connection, all)?;
    pump(connection);
    Ok(())
}

fn receive_all(
    connection: &mut Connection,
    pieces: &[&[u8]],
    all: &mut Vec<u8>,
) -> Result<(), AllocError>
    requires { (texts : SourceTexts) → QueuesEndWithin texts connection.old.sending.queues }
    ensures { (texts : SourceTexts) → QueuesEndWithin texts connection.new.sending.queues }
{
    for piece in pieces {
        receive(connection, *piece, all)?;
    }
    Ok(())
}

fn call_and_answer(connection: &mut Connection, all: &mut Vec<u8>) -> Result<(), AllocError>
    requires { (texts : SourceTexts) → QueuesEndWithin texts connection.old.sending.queues }
    ensures { (texts : SourceTexts) → QueuesEndWithin texts connection.new.sending.queues }
{
    receive_all(connection, &[PREFACE, HEADERS, DATA, MESSAGE], all)?;
    answer(*all.allocator(), connection)?;
    pump(connection);
    Ok(())
}

fn is_answered(connection: &mut Connection, all: &mut Vec<u8>) -> bool
    requires { (texts : SourceTexts) → QueuesEndWithin texts connection.old.sending.queues }
{
    let done = call_and_answer(connection, all).is_ok();
    let pending = connection.pending();
    let answered = pending.starts_with(ANSWERS)
        && pending.ends_with(TRAILERS)
        && pending.len() == ANSWERS.len() + MESSAGE.len() + TRAILERS.len();
    let ended = connection.ended();
    if !connection.pending().is_empty() {
        connection.took(1);
    }
    let taken = connection.pending().len();
    done && answered
        && !ended
        && taken + 1 == ANSWERS.len() + MESSAGE.len() + TRAILERS.len()
        && all.as_slice() == b"..H.ME".as_slice()
}

/// Two messages, then a fault; behind it the stream's reset alone is told.
const MESSAGES_AND_A_FAULT: &[&[u8]] = &[
    PREFACE,
    HEADERS,
    b"\x00\x00\x0c\x00\x00\x00\x00\x00\x01\x00\x00\x00\x00\x01a\x00\x00\x00\x00\x01b",
    b"\x00\x00\x05\x00\x00\x00\x00\x00\x01\x01\x00\x00\x00\x00",
    b"\x00\x00\x05\x00\x00\x00\x00\x00\x01\x00\x00\x00\x00\x00",
    b"\x00\x00\x04\x03\x00\x00\x00\x00\x01\x00\x00\x00\x08",
];

fn has_events(connection: &mut Connection, all: &mut Vec<u8>) -> bool
    requires { (texts : SourceTexts) → QueuesEndWithin texts connection.old.sending.queues }
{
    let done = receive_all(connection, MESSAGES_AND_A_FAULT, all).is_ok();
    done && connection.pop_call() == None && all.as_slice() == b"..H.MM.c..C".as_slice()
}

fn gives_its_calls(connection: &mut Connection, all: &mut Vec<u8>) -> bool
    requires { (texts : SourceTexts) → QueuesEndWithin texts connection.old.sending.queues }
{
    let done = receive_all(connection, &[PREFACE, HEADERS], all).is_ok();
    done && connection.pop_call() == Some(1) && connection.pop_call() == None
}

/// After these pings there is room for no further answer.
fn fill(connection: &mut Connection, all: &mut Vec<u8>) -> Result<(), AllocError>
    requires { (texts : SourceTexts) → QueuesEndWithin texts connection.old.sending.queues }
    ensures { (texts : SourceTexts) → QueuesEndWithin texts connection.new.sending.queues }
{
    receive_all(connection, &[PREFACE, HEADERS], all)?;
    for _ in 0..7707 {
        receive(connection, PING, all)?;
    }
    all.clear();
    receive(connection, PING, all)
}

fn is_filled(connection: &mut Connection, all: &mut Vec<u8>) -> bool
    requires { (texts : SourceTexts) → QueuesEndWithin texts connection.old.sending.queues }
{
    let done = fill(connection, all).is_ok();
    done && connection.ended()
        && connection.pending().ends_with(GOAWAY)
        && connection.pending().len() == 15 + 9 + 7707 * 17 + GOAWAY.len()
        && all.as_slice() == b".C".as_slice()
}

/// What a connection goes through.
#[derive(Clone, Copy)]
enum Scenario {
    CallAndAnswer,
    MessagesAndFault,
    Closing,
    Filling,
}

fn goes(connection: &mut Connection, all: &mut Vec<u8>, scenario: Scenario) -> bool
    requires { (texts : SourceTexts) → QueuesEndWithin texts connection.old.sending.queues }
{
    match scenario {
        Scenario::CallAndAnswer => is_answered(connection, all),
        Scenario::MessagesAndFault => has_events(connection, all),
        Scenario::Closing => gives_its_calls(connection, all),
        Scenario::Filling => is_filled(connection, all),
    }
}

/// Whether a new connection goes through that as it should.
fn passes(alloc: Global, scenario: Scenario) -> bool {
    let mut all = Vec::new(alloc);
    match Connection::new(alloc, 65_535) {
        Ok(mut connection) => goes(&mut connection, &mut all, scenario),
        Err(_) => false,
    }
}

#[test]
fn a_call_and_its_answer(rt: HostRuntime) {
    assert!(rt; passes(rt.alloc(), Scenario::CallAndAnswer));
}

#[test]
fn events_of_a_call(rt: HostRuntime) {
    assert!(rt; passes(rt.alloc(), Scenario::MessagesAndFault));
}

#[test]
fn calls_of_a_connection_that_closes(rt: HostRuntime) {
    assert!(rt; passes(rt.alloc(), Scenario::Closing));
}

#[test]
fn an_answer_that_does_not_fit(rt: HostRuntime) {
    assert!(rt; passes(rt.alloc(), Scenario::Filling));
}
