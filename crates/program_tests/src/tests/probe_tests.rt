//! The probe beside a peer that gives a few bytes at a time, ends or fails.

use crate::tests::cases::{Case, all_hold};
use std::io::{self, ErrorKind, Read, Write};
use std::test::*;
use tool_programs::*;

// A peer that at each read gives a few of its bytes or has nothing, in turn, and then ends or
// fails.
#[derive(Drop)]
struct Peer<'a> {
    bytes: &'a [u8],
    is_ready: bool,
    fails: bool,
}

impl<'a> Read for Peer<'a> {
    fn read(&mut self, buf: &mut [u8]) -> io::Result<usize> {
        self.is_ready = !self.is_ready;
        if self.is_ready {
            return Err(io::Error::from(ErrorKind::WouldBlock));
        }
        if self.bytes.is_empty() && self.fails {
            return Err(io::Error::from(ErrorKind::ConnectionReset));
        }
        let most = buf.len().min(3);
        self.bytes.read(&mut buf[..most])
    }
}

// Where bytes are sent to: two are taken at each other write.
#[derive(Drop)]
struct Sink {
    taken: Vec<u8>,
    is_ready: bool,
    fails: bool,
}

impl Write for Sink {
    fn write(&mut self, buf: &[u8]) -> io::Result<usize> {
        if self.fails {
            return Err(io::Error::from(ErrorKind::BrokenPipe));
        }
        self.is_ready = !self.is_ready;
        if self.is_ready {
            return Err(io::Error::from(ErrorKind::WouldBlock));
        }
        let count = buf.len().min(2);
        self.taken.extend_from_slice(&buf[..count])?;
        Ok(count)
    }

    fn flush(&mut self) -> io::Result<()> {
        Ok(())
    }
}

/// A peer and a sink, what is asked of them, and what is then shown and told.
struct Asked {
    bytes: &'static [u8],
    reading_fails: bool,
    writing_fails: bool,
    request: Request<'static>,
    shown: &'static [u8],
    told: &'static [u8],
    status: Status,
}

impl Asked {
    fn is_met(&self, ended: Status, shown: &[u8], told: &[u8], sent: &[u8]) -> bool {
        ended == self.status
            && shown == self.shown
            && told == self.told
            && (ended != Status::Done || sent == self.request.bytes)
    }
}

impl Case for Asked {
    fn holds(&self, host: &HostRuntime, _name: &str) -> bool {
        let mut peer = Peer {
            bytes: self.bytes,
            is_ready: false,
            fails: self.reading_fails,
        };
        let mut sink = Sink {
            taken: Vec::new(host.alloc()),
            is_ready: false,
            fails: self.writing_fails,
        };
        let mut shown = Vec::new(host.alloc());
        let mut told = Vec::new(host.alloc());
        let ended = probe(
            host,
            host.alloc(),
            self.request,
            &mut peer,
            &mut sink,
            &mut shown,
            &mut told,
        );
        self.is_met(ended, &shown, &told, &sink.taken)
    }
}

const HELLO: Request<'static> = Request {
    bytes: b"hello",
    want: 4,
    turns: 100,
};

/// What fails tells of it.
const FAILED: &[u8] = b"remoted: input or output failed\n";

static CASES: [(&str, Asked); 7] = [
    (
        "the first bytes are shown",
        Asked {
            bytes: b"\x00\xff\x10\x0a and more",
            reading_fails: false,
            writing_fails: false,
            request: HELLO,
            shown: b"00ff100a\n",
            told: b"",
            status: Status::Done,
        },
    ),
    (
        "no bytes are wanted",
        Asked {
            bytes: b"abc",
            reading_fails: false,
            writing_fails: false,
            request: Request { want: 0, ..HELLO },
            shown: b"\n",
            told: b"",
            status: Status::Done,
        },
    ),
    (
        "too few bytes come",
        Asked {
            bytes: b"abc",
            reading_fails: false,
            writing_fails: false,
            request: HELLO,
            shown: b"",
            told: b"remoted: 3 bytes came\n",
            status: Status::TooFew(3),
        },
    ),
    (
        "the turns are over",
        Asked {
            bytes: b"abcdef",
            reading_fails: false,
            writing_fails: false,
            request: Request { turns: 2, ..HELLO },
            shown: b"",
            told: b"remoted: 3 bytes came\n",
            status: Status::TooFew(3),
        },
    ),
    (
        "there are no turns",
        Asked {
            bytes: b"abcdef",
            reading_fails: false,
            writing_fails: false,
            request: Request { turns: 0, ..HELLO },
            shown: b"",
            told: b"remoted: 0 bytes came\n",
            status: Status::TooFew(0),
        },
    ),
    (
        "reading fails",
        Asked {
            bytes: b"abc",
            reading_fails: true,
            writing_fails: false,
            request: HELLO,
            shown: b"",
            told: FAILED,
            status: Status::Failed,
        },
    ),
    (
        "writing fails",
        Asked {
            bytes: b"abcdef",
            reading_fails: false,
            writing_fails: true,
            request: HELLO,
            shown: b"",
            told: FAILED,
            status: Status::Failed,
        },
    ),
];

#[test]
fn what_is_shown_and_told(rt: HostRuntime) {
    all_hold(&rt, &rt, &CASES);
}
