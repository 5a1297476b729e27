//! Header blocks, whole and cut, and a decoder that stays refused. The limits of a block are shown
//! by the stored scripts of `acceptance`.

use http2_frames::ErrorCode;
use http2_streams::*;
use std::test::*;

/// GET, http, `/`.
const BLOCK: &[u8] = b"\x82\x86\x84";

/// A stream, whether the request ends there, and how many fields it has.
type List = (u32, bool, usize);

fn gives(outcome: Result<Option<HeaderList>, ConnectionFault>, wanted: Option<List>) -> bool {
    match (outcome, wanted) {
        (Ok(Some(list)), Some((stream, end_stream, count))) => {
            list.stream == stream && list.end_stream == end_stream && list.fields.len() == count
        }
        (Ok(None), None) => true,
        _ => false,
    }
}

fn refuses(outcome: Result<Option<HeaderList>, ConnectionFault>, code: ErrorCode) -> bool {
    match outcome {
        Err(ConnectionFault::Connection(fault)) => fault == code,
        _ => false,
    }
}

fn reads_blocks(blocks: &mut HeaderBlocks) -> bool {
    gives(blocks.begin(1, true, true, BLOCK), Some((1, true, 3)))
        && gives(blocks.begin(3, false, false, &BLOCK[..1]), None)
        && blocks.unfinished_stream() == Some(3)
        && gives(blocks.go_on(false, b""), None)
        && gives(blocks.go_on(true, &BLOCK[1..]), Some((3, false, 3)))
        && blocks.unfinished_stream().is_none()
}

/// A block that cannot be decoded, and after it one that could.
fn stays_refused(blocks: &mut HeaderBlocks) -> bool {
    refuses(
        blocks.begin(1, true, true, b"\x80"),
        ErrorCode::CompressionError,
    ) && refuses(
        blocks.begin(3, true, true, BLOCK),
        ErrorCode::CompressionError,
    )
}

#[test]
fn whole_and_cut_blocks(rt: HostRuntime) {
    let mut blocks = HeaderBlocks::new(rt.alloc());
    let passed = reads_blocks(&mut blocks);
    let fault = blocks.go_on(true, BLOCK);
    drop(blocks);
    assert!(rt; passed && refuses(fault, ErrorCode::ProtocolError));
}

#[test]
fn a_refusal_stays(rt: HostRuntime) {
    let mut blocks = HeaderBlocks::new(rt.alloc());
    let passed = stays_refused(&mut blocks);
    drop(blocks);
    assert!(rt; passed);
}
