//! The question of `check`, and what is made of what a server sends.

use crate::tests::cases::{Case, all_hold};
use std::alloc::Global;
use std::io::{self, ErrorKind, Read, Write};
use std::test::*;
use std::time::Duration;
use tool_programs::*;

// A server that at each read gives a few of its bytes or has nothing, in turn, and then ends, fails
// or stays silent.
#[derive(Drop)]
struct Peer<'a> {
    bytes: &'a [u8],
    is_ready: bool,
    end: End,
}

/// What a server does once its bytes are sent.
#[derive(Clone, Copy)]
enum End {
    Closes,
    Resets,
    Waits,
}

impl<'a> Read for Peer<'a> {
    fn read(&mut self, buf: &mut [u8]) -> io::Result<usize> {
        self.is_ready = !self.is_ready;
        if self.is_ready {
            return Err(io::Error::from(ErrorKind::WouldBlock));
        }
        if self.bytes.is_empty() {
            return match self.end {
                End::Closes => Ok(0),
                End::Resets => Err(io::Error::from(ErrorKind::ConnectionReset)),
                End::Waits => Err(io::Error::from(ErrorKind::WouldBlock)),
            };
        }
        let most = buf.len().min(7);
        self.bytes.read(&mut buf[..most])
    }
}

// Where the question is sent to: five bytes are taken at each other write.
#[derive(Drop)]
struct Sink {
    taken: Vec<u8>,
    is_ready: bool,
}

impl Write for Sink {
    fn write(&mut self, buf: &[u8]) -> io::Result<usize> {
        self.is_ready = !self.is_ready;
        if self.is_ready {
            return Err(io::Error::from(ErrorKind::WouldBlock));
        }
        let count = buf.len().min(5);
        self.taken.extend_from_slice(&buf[..count])?;
        Ok(count)
    }

    fn flush(&mut self) -> io::Result<()> {
        Ok(())
    }
}

/// What a server sends, and what is made of it.
struct Served {
    bytes: &'static [u8],
    end: End,
    wanted: Wanted,
}

/// An answer, with the text that says why it is none.
#[derive(Clone, Copy)]
enum Wanted {
    Given,
    Refused(&'static str),
    Broken(&'static str),
    Failed,
    Silent,
}

impl Wanted {
    fn is(self, answer: &Answer) -> bool {
        match (self, answer) {
            (Wanted::Given, Answer::Given) => true,
            (Wanted::Refused(wanted), Answer::Refused(text)) => text.as_str() == wanted,
            (Wanted::Broken(wanted), Answer::Broken(text)) => *text == wanted,
            (Wanted::Failed, Answer::Failed(_)) => true,
            (Wanted::Silent, Answer::Silent) => true,
            _ => false,
        }
    }
}

impl Case for Served {
    fn holds(&self, host: &HostRuntime, _name: &str) -> bool {
        let mut peer = Peer {
            bytes: self.bytes,
            is_ready: false,
            end: self.end,
        };
        let mut sink = Sink {
            taken: Vec::new(host.alloc()),
            is_ready: false,
        };
        let question = b"what can you do?";
        let patience = Duration::from_millis(500);
        match ask(host, host.alloc(), question, patience, &mut peer, &mut sink) {
            Ok(answer) => self.wanted.is(&answer),
            Err(_) => false,
        }
    }
}

/// The head of an answer, in an own frame: `:status: 200`, `content-type: application/grpc`.
const HEAD: &[u8] =
    b"\0\0\0\x04\0\0\0\0\0\0\0\x14\x01\x04\0\0\0\x01\x88\x0f\x10\x10application/grpc";

static SERVED: [(&str, Served); 13] = [
    (
        "a good answer",
        Served {
            bytes: b"\0\0\0\x04\0\0\0\0\0\0\0\x14\x01\x04\0\0\0\x01\x88\x0f\x10\x10application/grpc\0\0\x05\0\0\0\0\0\x01\0\0\0\0\0\0\0\x0f\x01\x05\0\0\0\x01\0\x0bgrpc-status\x010",
            end: End::Waits,
            wanted: Wanted::Given,
        },
    ),
    (
        "trailers in two frames",
        Served {
            bytes: b"\0\0\x07\x01\x01\0\0\0\x01\0\x0bgrpc-\0\0\x08\x09\x04\0\0\0\x01status\x010",
            end: End::Waits,
            wanted: Wanted::Given,
        },
    ),
    (
        "a block that cannot be read",
        Served {
            bytes: b"\0\0\x01\x01\x05\0\0\0\x01\xff",
            end: End::Waits,
            wanted: Wanted::Broken("its headers cannot be read"),
        },
    ),
    (
        "a refusal without a head",
        Served {
            bytes: b"\0\0+\x01\x05\0\0\0\x01\x88\0\x0bgrpc-status\x015\0\x0cgrpc-message\x0cno \x07instance",
            end: End::Waits,
            wanted: Wanted::Refused("5 no ?instance"),
        },
    ),
    (
        "a refusal without a text",
        Served {
            bytes: b"\0\0\x10\x01\x05\0\0\0\x01\x88\0\x0bgrpc-status\x018",
            end: End::Waits,
            wanted: Wanted::Refused("8"),
        },
    ),
    (
        "a server of something else",
        Served {
            bytes: b"\0\0\x05\x01\x05\0\0\0\x01\x08\x03404",
            end: End::Waits,
            wanted: Wanted::Refused("HTTP 404"),
        },
    ),
    (
        "a server of HTTP/1.1",
        Served {
            bytes: b"HTTP/1.1 400 Bad Request\r\n\r\n",
            end: End::Closes,
            wanted: Wanted::Broken("it speaks no HTTP/2"),
        },
    ),
    (
        "a call that is reset",
        Served {
            bytes: b"\0\0\x04\x03\0\0\0\0\x01\0\0\0\x07",
            end: End::Waits,
            wanted: Wanted::Broken("it reset the call"),
        },
    ),
    (
        "a connection that is closed with a word",
        Served {
            bytes: b"\0\0\x08\x07\0\0\0\0\0\0\0\0\0\0\0\0\x01",
            end: End::Waits,
            wanted: Wanted::Broken("it closed the connection"),
        },
    ),
    (
        "a frame that is none",
        Served {
            bytes: b"\0\0\x05\x06\0\0\0\0\0\0\0\0\0\x01",
            end: End::Waits,
            wanted: Wanted::Broken("it sent a frame that is none"),
        },
    ),
    (
        "an answer that is cut off",
        Served {
            bytes: HEAD,
            end: End::Closes,
            wanted: Wanted::Broken("it ended the connection"),
        },
    ),
    (
        "a connection that is reset",
        Served {
            bytes: b"\0\0\0\x04",
            end: End::Resets,
            wanted: Wanted::Failed,
        },
    ),
    (
        "a silent server",
        Served {
            bytes: HEAD,
            end: End::Waits,
            wanted: Wanted::Silent,
        },
    ),
];

#[test]
fn what_is_made_of_answers(rt: HostRuntime) {
    all_hold(&rt, &rt, &SERVED);
}

/// The whole question to a server at 127.0.0.1:8980, for the instance red.
const OF_RED: &[u8] =
    b"PRI * HTTP/2.0\r\n\r\nSM\r\n\r\n\0\0\0\x04\0\0\0\0\0\0\0{\x01\x04\0\0\0\x01\x02\x04POST\x06\x04http\x04=/build.bazel.remote.execution.v2.Capabilities/GetCapabilities\x01\x0e127.0.0.1:8980\x0f\x10\x10application/grpc\0\x02te\x08trailers\0\0\n\0\x01\0\0\0\x01\0\0\0\0\x05\n\x03red";

/// The same, where no instance is named.
const OF_NONE: &[u8] =
    b"PRI * HTTP/2.0\r\n\r\nSM\r\n\r\n\0\0\0\x04\0\0\0\0\0\0\0{\x01\x04\0\0\0\x01\x02\x04POST\x06\x04http\x04=/build.bazel.remote.execution.v2.Capabilities/GetCapabilities\x01\x0e127.0.0.1:8980\x0f\x10\x10application/grpc\0\x02te\x08trailers\0\0\x05\0\x01\0\0\0\x01\0\0\0\0\0";

fn asks(alloc: Global, instance: &str, wanted: &[u8]) -> bool {
    match question_bytes(alloc, "127.0.0.1:8980", instance) {
        Ok(bytes) => bytes.as_slice() == wanted,
        Err(_) => false,
    }
}

#[test]
fn the_whole_question(rt: HostRuntime) {
    assert!(rt; asks(rt.alloc(), "red", OF_RED));
    assert!(rt; asks(rt.alloc(), "", OF_NONE));
}
