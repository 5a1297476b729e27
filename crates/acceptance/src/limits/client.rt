//! A client of one instance of a server at a time, on a connection of its own.

use grpc_messages::{Message as Reply, Messages, MessagesError};
use http2_frames::{FrameError, FrameReader, MAX_FRAME_SIZE, RawFrame};
use server_core::Server;
use server_events::{Event, What};
use std::alloc::{AllocError, Global};
use tool_programs::{Fault, Output};

/// What the client sends first: the preface of RFC 9113, section 3.4, SETTINGS with an
/// INITIAL_WINDOW_SIZE of 2^31 - 1, and a WINDOW_UPDATE that brings the connection's there.
const GREETING: &[u8] = b"PRI * HTTP/2.0\r\n\r\nSM\r\n\r\n\
    \x00\x00\x06\x04\x00\x00\x00\x00\x00\x00\x04\x7f\xff\xff\xff\
    \x00\x00\x04\x08\x00\x00\x00\x00\x00\x7f\xff\x00\x00";

/// `:method` POST, `:scheme` http, and the beginning of a `:path` of fewer than 128 bytes.
const METHOD_AND_SCHEME: &[u8] = b"\x83\x86\x04";

/// `content-type: application/grpc`.
const CONTENT_TYPE: &[u8] = b"\x0f\x10\x10application/grpc";

const DATA: u8 = 0;

const HEADERS: u8 = 1;

const END_STREAM: u8 = 1;

const END_HEADERS: u8 = 4;

/// That the server does not do what every server does.
const FAULT: Fault = Fault::InputOrOutput;

/// Why frames could not be read.
fn fault_of_frames(error: FrameError) -> Fault {
    match error {
        FrameError::NoMemory => Fault::OutOfMemory,
        _ => FAULT,
    }
}

/// Why messages could not be read.
fn fault_of_messages(error: MessagesError) -> Fault {
    match error {
        MessagesError::NoMemory => Fault::OutOfMemory,
        _ => FAULT,
    }
}

/// A frame (RFC 9113, section 4.1).
fn frame(
    alloc: Global,
    (kind, flags): (u8, u8),
    stream: u32,
    payload: &[u8],
) -> Result<Vec<u8>, AllocError> {
    let [_, high, middle, low] = u32::try_from(payload.len()).unwrap_or(0).to_be_bytes();
    let beginning = [high, middle, low, kind, flags];
    [&beginning[..], &stream.to_be_bytes()[..], payload].concat(alloc)
}

/// The header block of a call of this path, which has fewer than 128 bytes.
fn call_block(alloc: Global, path: &str) -> Result<Vec<u8>, AllocError> {
    let length = [u8::try_from(path.len()).unwrap_or(0)];
    [
        METHOD_AND_SCHEME,
        &length[..],
        path.as_bytes(),
        CONTENT_TYPE,
    ]
    .concat(alloc)
}

/// What came back for a call.
#[derive(Drop)]
pub struct Answer {
    /// The block of its last HEADERS.
    pub trailers: Vec<u8>,
    pub messages: Vec<Reply>,
    data: Messages,
}

impl Answer {
    fn new(alloc: Global) -> Answer {
        Answer {
            trailers: Vec::new(alloc),
            messages: Vec::new(alloc),
            data: Messages::new(alloc),
        }
    }

    /// Takes a frame of the call's stream.
    fn take(&mut self, frame: &RawFrame<'_>, output: &mut Output) {
        let payload = frame.payload.as_slice();
        match frame.kind {
            HEADERS => self.trailers = output.bytes(Vec::from_slice(output.alloc, payload)),
            DATA => self.take_data(payload, output),
            _ => {}
        }
    }

    fn take_data(&mut self, payload: &[u8], output: &mut Output) {
        if let Err(error) = self.data.feed(payload) {
            output.fail(fault_of_messages(error));
        }
        for _ in 0..u32::MAX {
            match self.data.next() {
                Ok(Some(message)) => output.expect(self.messages.push(message)),
                Ok(None) => break,
                Err(error) => return output.fail(fault_of_messages(error)),
            }
        }
    }
}

#[derive(Drop)]
pub struct Client {
    server: Box<Server>,
    instance: u32,
    received: FrameReader,
    next_stream: u32,
}

impl Client {
    /// The client of a server, of which it has yet to greet an instance.
    pub fn new(alloc: Global, server: Box<Server>) -> Client {
        Client {
            server,
            instance: 0,
            received: FrameReader::without_preface(alloc),
            next_stream: 1,
        }
    }

    /// Opens connection 0 of an instance, on which the calls are made from now on.
    pub fn greet(&mut self, instance: u32, output: &mut Output) {
        self.instance = instance;
        self.received = FrameReader::without_preface(output.alloc);
        let greeting = output.bytes(Vec::from_slice(output.alloc, GREETING));
        self.step(What::Open(0), output);
        self.step(What::Bytes(0, greeting), output);
    }

    fn step(&mut self, what: What, output: &mut Output) {
        let event = Event {
            moment: 0,
            instance: self.instance,
            what,
        };
        if self.server.step(event).is_err() {
            output.fail(Fault::OutOfMemory);
        }
    }

    fn send(&mut self, head: (u8, u8), stream: u32, payload: &[u8], output: &mut Output) {
        let bytes = output.bytes(frame(output.alloc, head, stream, payload));
        self.step(What::Bytes(0, bytes), output);
    }

    /// Takes what waits, and tells whether more may come.
    fn receive(&mut self, output: &mut Output) -> bool {
        let Some(pending) = self.server.pending(self.instance, 0) else {
            return false;
        };
        let count = u32::try_from(pending.len()).unwrap_or(0);
        if count == 0 {
            return false;
        }
        let piece = output.bytes(Vec::from_slice(output.alloc, pending));
        if let Err(error) = self.received.feed(piece) {
            output.fail(fault_of_frames(error));
        }
        self.step(What::Took(0, count), output);
        !output.has_failed()
    }

    /// Reads the next frame, for the answer where it is one of the stream; tells whether one came.
    fn read(&mut self, stream: u32, answer: &mut Answer, output: &mut Output) -> bool {
        match self.received.find() {
            Ok(true) => {
                let frame = self.received.frame();
                if frame.stream == stream {
                    answer.take(&frame, output);
                }
                self.received.pass();
                return true;
            }
            Ok(false) => {}
            Err(error) => output.fail(fault_of_frames(error)),
        }
        false
    }

    /// Sends the frames of a call with one message.
    fn send_call(&mut self, stream: u32, path: &str, message: &[u8], output: &mut Output) {
        let block = output.bytes(call_block(output.alloc, path));
        self.send((HEADERS, END_HEADERS), stream, &block, output);
        let [a, b, c, d] = u32::try_from(message.len()).unwrap_or(0).to_be_bytes();
        self.send((DATA, 0), stream, &[0, a, b, c, d], output);
        for piece in message.chunks(MAX_FRAME_SIZE) {
            self.send((DATA, 0), stream, piece, output);
        }
        self.send((DATA, END_STREAM), stream, &[], output);
    }

    /// Calls a method by a path of fewer than 128 bytes, and takes what is answered.
    pub fn call(&mut self, path: &str, request: &[u8], output: &mut Output) -> Answer {
        let stream = self.next_stream;
        self.next_stream = stream.saturating_add(2);
        self.send_call(stream, path, request, output);
        for _ in 0..u32::MAX {
            if !self.receive(output) {
                break;
            }
        }
        let mut answer = Answer::new(output.alloc);
        for _ in 0..u32::MAX {
            if !self.read(stream, &mut answer, output) {
                break;
            }
        }
        answer
    }
}
