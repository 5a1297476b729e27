//! Lines of a job's outcome, read as events.

use digest::Digest;
use script::replay::*;
use server_events::{Content, Event, Limits, Outcome, Output, OutputKind, What};
use std::alloc::Global;
use std::test::*;

fn is_text(content: &Content, text: &[u8]) -> bool {
    let digest = Digest::of(text);
    content.digest_like(&digest) == digest
}

fn is_file(output: &Output, path: &str, text: &[u8]) -> bool {
    match &output.kind {
        OutputKind::File {
            content,
            is_executable,
        } => output.path.as_str() == path && is_text(content, text) && !*is_executable,
        OutputKind::Tree { .. } => false,
    }
}

fn are_files(files: &[Output]) -> bool {
    match files {
        [first, second, third] => {
            is_file(first, "a/b", b"a")
                && is_file(second, "x=y", b"")
                && is_file(third, "", b"\0\0")
        }
        _ => false,
    }
}

fn is_exit(event: &Event) -> bool {
    match &event.what {
        What::Outcome(job, Outcome::Exited(exited)) => {
            *job == u64::MAX
                && exited.code == i32::MIN
                && exited.streams.stdout.is_empty()
                && is_text(&exited.streams.stderr, b"ou")
                && are_files(&exited.outputs)
        }
        _ => false,
    }
}

fn is_failure(event: &Event) -> bool {
    match &event.what {
        What::Outcome(job, Outcome::Failed) => *job == 3,
        _ => false,
    }
}

/// Whether this is the script's event of this number.
fn is_event(number: usize, event: &Event) -> bool {
    match number {
        0 => is_exit(event),
        1 => is_failure(event),
        _ => false,
    }
}

/// Whether the script's event of this number comes next, or after the last one the end.
fn is_next(alloc: Global, events: &mut EventReader, number: usize) -> bool {
    match events.next_event(alloc) {
        Ok(Some(event)) => is_event(number, &event),
        Ok(None) => number == 2,
        Err(_) => false,
    }
}

const SCRIPT: &[u8] =
    b"exit 9 0 18446744073709551615 -2147483648 - 6f75 a/b=61 x=y=- =0000\nfail 9 0 3\n";

fn reads_outcomes(alloc: Global, events: &mut EventReader) -> bool {
    is_next(alloc, events, 0) && is_next(alloc, events, 1) && is_next(alloc, events, 2)
}

fn is_read(alloc: Global) -> bool {
    match parse(alloc, Limits::usual(), SCRIPT) {
        Ok(script) => {
            let mut events = script.events;
            reads_outcomes(alloc, &mut events)
        }
        Err(_) => false,
    }
}

#[test]
fn outcomes(rt: HostRuntime) {
    assert!(rt; is_read(rt.alloc()));
}
