//! What no stored script can show: content of many megabytes, and streams that fail.

use crate::tests::cases::{Case, all_hold};
use server_events::Limits;
use std::alloc::Global;
use std::io;
use std::test::*;
use tool_programs::*;

/// Whether a run of a script ends well, and prints this alone.
fn prints(alloc: Global, script: &[u8], printed: &[u8]) -> bool {
    let mut input = script;
    let mut written = Vec::new(alloc);
    let mut told = Vec::new(alloc);
    let ended = unary(alloc, Limits::usual(), &mut input, &mut written, &mut told);
    ended == Status::Done && written.as_slice() == printed && told.is_empty()
}

/// A call of BatchUpdateBlobs with one blob of zero bytes under its digest.
struct Upload {
    /// How many digits the blob is written in.
    digits: usize,
    /// The digits that stand before it: the length of the request, the digest, and the length of
    /// the blob.
    front: &'static str,
    printed: &'static str,
}

fn writes_upload(script: &mut Vec<u8>, upload: &Upload, zeros: &[u8]) -> bool {
    let start = b"instance a 10000000\ncall a BatchUpdateBlobs ";
    script.extend_from_slice(start).is_ok()
        && script.extend_from_slice(upload.front.as_bytes()).is_ok()
        && script.extend_from_slice(zeros).is_ok()
        && script.push(b'\n').is_ok()
}

impl Case for Upload {
    fn holds(&self, host: &HostRuntime, _name: &str) -> bool {
        let alloc = host.alloc();
        let mut script = Vec::new(alloc);
        match vec![in alloc; b'0'; self.digits] {
            Ok(zeros) => {
                writes_upload(&mut script, self, &zeros)
                    && prints(alloc, &script, self.printed.as_bytes())
            }
            Err(_) => false,
        }
    }
}

static UPLOADS: [(&str, Upload); 2] = [
    (
        "as many bytes as a batch may have",
        Upload {
            digits: 8_000_000,
            front: "12ce92f4010a470a4038646265356631333966643934366434636438346538636336313263643966363863626338376533393434353738383461636330633564616435366464386464108092f401128092f401",
            printed: "ok 0a4b0a470a4038646265356631333966643934366434636438346538636336313263643966363863626338376533393434353738383461636330633564616435366464386464108092f4011200\n",
        },
    ),
    (
        "one byte more",
        Upload {
            digits: 8_000_002,
            front: "12cf92f4010a470a4038386635633264653530373831316661326132343437303632323638306438623664366135646633666435643934623362323666643131366661663534306534108192f401128192f401",
            printed: "status 3 batch too large\n",
        },
    ),
];

#[test]
fn the_largest_batch_and_a_larger_one(rt: HostRuntime) {
    all_hold(&rt, &rt, &UPLOADS);
}

/// A reader, and a writer, that always fail.
#[derive(Drop)]
struct Broken;

impl io::Read for Broken {
    fn read(&mut self, _buffer: &mut [u8]) -> io::Result<usize> {
        Err(io::Error::from(io::ErrorKind::Other))
    }
}

impl io::Write for Broken {
    fn write(&mut self, _buffer: &[u8]) -> io::Result<usize> {
        Err(io::Error::from(io::ErrorKind::Other))
    }

    fn flush(&mut self) -> io::Result<()> {
        Ok(())
    }
}

const FAILURE: &[u8] = b"remoted: input or output failed\n";

/// Whether a run fails, and tells so.
fn tells_failure<I: io::Read, O: io::Write>(alloc: Global, input: &mut I, output: &mut O) -> bool {
    let mut told = Vec::new(alloc);
    unary(alloc, Limits::usual(), input, output, &mut told) == Status::Failed
        && told.as_slice() == FAILURE
}

fn tells_of_a_broken_reader(alloc: Global) -> bool {
    let mut written = Vec::new(alloc);
    tells_failure(alloc, &mut Broken, &mut written) && written.is_empty()
}

fn tells_of_a_broken_writer(alloc: Global) -> bool {
    let mut input = b"instance a 1\nput a -\n".as_slice();
    tells_failure(alloc, &mut input, &mut Broken)
}

fn fails_where_nothing_can_be_told(alloc: Global) -> bool {
    let mut bad = b"frob\n".as_slice();
    let mut written = Vec::new(alloc);
    unary(alloc, Limits::usual(), &mut bad, &mut written, &mut Broken) == Status::Failed
}

fn tells_of_broken_streams(alloc: Global) -> bool {
    tells_of_a_broken_reader(alloc)
        && tells_of_a_broken_writer(alloc)
        && fails_where_nothing_can_be_told(alloc)
}

#[test]
fn streams_that_fail(rt: HostRuntime) {
    assert!(rt; tells_of_broken_streams(rt.alloc()));
}
