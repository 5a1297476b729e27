//! The lines that a replay writes.

use script::replay_lines::*;
use std::alloc::Global;
use std::test::*;

fn writes(out: &mut Vec<u8>) -> bool {
    write_sent(out, 0, 7, b"").is_ok()
        && write_sent(out, 255, 4294967295, b"\x00\xab").is_ok()
        && write_start(out, 1, 12, 1).is_ok()
        && write_kill(out, 1, 18446744073709551615, 9223372036854775807).is_ok()
        && write_refusal(out, 3, 4, 6).is_ok()
        && write_stray(out, 10).is_ok()
}

const WRITTEN: &[u8] =
    b"out 0 7 -\nout 255 4294967295 00ab\norder 1 12 start 1\norder 1 18446744073709551615 kill 9223372036854775807\nrefused 3 4 6\nstray 10\n";

fn are_written(alloc: Global) -> bool {
    let mut out = Vec::new(alloc);
    writes(&mut out) && out.as_slice() == WRITTEN
}

#[test]
fn lines(rt: HostRuntime) {
    assert!(rt; are_written(rt.alloc()));
}
