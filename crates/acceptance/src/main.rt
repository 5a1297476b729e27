//! Carries out the cases of standard input one by one, and writes what becomes of each.
//!
//! A line `# KIND NAME` begins a case. The lines below it, up to the next such line, are its
//! script, which ends without a newline: one that ends with a newline has an empty line as its
//! last. KIND says what carries the script out:
//!
//! | kind | what is carried out |
//! |---|---|
//! | `unary`, `replay` | what the program does for a script of calls, and for one of events |
//! | `stored` | a script of events: after each, how many texts the server has, of how many bytes |
//! | `limits` | lines that reach each limit of trees and of results, and pass it by one |
//! | `sockets` | clients over fake sockets and over real ones, each of which sends a line's bytes |
//! | `floods` | a script of events with very many frames: how many bytes are put, and the last |
//! | `broken` | a script of events, its first client broken off at each byte, its second not |
//! | `memory` | a script of events that goes on past refused requests for memory |
//!
//! A case of `sockets` whose first line is `silent TURNS` has clients that fall silent, and callers
//! after them.
#![tactic(auto)]

mod broken;
mod floods;
mod instances;
mod limits;
mod memory;
mod numbers;
mod runs;
mod scripts;
mod sockets;
mod stored;

use script::{Limits, lines};
use std::process::ExitCode;
use tool_programs::{Fault, Output, Status, read_all, replay, unary};

/// What carries a script out.
#[derive(Clone, Copy)]
enum Kind {
    Unary,
    Replay,
    Stored,
    Limits,
    Sockets,
    Floods,
    Broken,
    Memory,
}

/// How the line begins that begins a case.
static KINDS: [(&[u8], Kind); 8] = [
    (b"# unary ", Kind::Unary),
    (b"# replay ", Kind::Replay),
    (b"# stored ", Kind::Stored),
    (b"# limits ", Kind::Limits),
    (b"# sockets ", Kind::Sockets),
    (b"# floods ", Kind::Floods),
    (b"# broken ", Kind::Broken),
    (b"# memory ", Kind::Memory),
];

/// A case that has begun.
#[derive(Clone, Copy)]
struct Case {
    kind: Kind,
    /// Where in the text its script begins.
    start: usize,
}

/// Carries a script out, which prints and tells of errors, and gives its status.
fn status_of(
    rt: &HostRuntime,
    kind: Kind,
    mut script: &[u8],
    output: &mut Output,
    errors: &mut Vec<u8>,
) -> Status {
    match kind {
        Kind::Unary => unary(
            rt.alloc(),
            Limits::usual(),
            &mut script,
            &mut output.text,
            errors,
        ),
        Kind::Replay => replay(
            rt.alloc(),
            Limits::usual(),
            &mut script,
            &mut output.text,
            errors,
        ),
        Kind::Stored => stored::carry_out(script, output),
        Kind::Limits => limits::carry_out(script, output),
        Kind::Sockets => sockets::carry_out(rt, script, output),
        Kind::Floods => floods::carry_out(script, output),
        Kind::Broken => broken::carry_out(script, output),
        Kind::Memory => memory::carry_out(script, output),
    }
}

/// Carries out the case, if one has begun, whose last line ends in front of this place; prints what
/// it tells of errors, and its status.
fn finish(rt: &HostRuntime, case: Option<Case>, text: &[u8], place: usize, output: &mut Output) {
    if let Some(Case { kind, start }) = case {
        let script = text.get(start..place.saturating_sub(1)).unwrap_or(b"");
        let mut errors = Vec::new(rt.alloc());
        let code = status_of(rt, kind, script, output, &mut errors).code();
        output.print(&errors);
        output.print_text(format!(in rt.alloc(); "status {code}\n"));
    }
}

/// What the case that a line begins is carried out by; `None` where the line begins none.
fn kind_of(line: &[u8]) -> Option<Kind> {
    for (beginning, kind) in &KINDS {
        if line.starts_with(beginning) {
            return Some(*kind);
        }
    }
    None
}

/// Carries out the cases of a text.
fn carry_out_all(rt: &HostRuntime, text: &[u8], output: &mut Output) {
    let mut case = None;
    let mut place: usize = 0;
    for line in lines(text) {
        let start = place.saturating_add(line.len()).saturating_add(1);
        if let Some(kind) = kind_of(line) {
            finish(rt, case, text, place, output);
            output.print(line);
            output.print(b"\n");
            case = Some(Case { kind, start });
        }
        place = start;
    }
    finish(rt, case, text, place, output);
}

fn run(rt: &HostRuntime) -> Result<(), Fault> {
    let text = read_all(rt.alloc(), &mut rt.stdin())?;
    let mut output = Output::new(rt.alloc());
    carry_out_all(rt, &text, &mut output);
    output.write_to(&mut rt.stdout())
}

fn main(rt: HostRuntime) -> ExitCode {
    let status = match run(&rt) {
        Ok(()) => Status::Done,
        Err(fault) => fault.status(),
    };
    ExitCode::from(status.code())
}
