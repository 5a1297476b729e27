//! Flow-control windows.

ghost use Rattle.std.specs.Prelude.{◌≤◌, IfSome};

use crate::octets::{BAD_LINE, named};
use http2_flow::{FlowError, MAX_SIZE, Window};
use numerals::decimal;
use script::words;
use tool_programs::Output;

/// The number of a word, where it is at most 2^32 - 1.
fn number(word: &[u8]) -> Option<u32> {
    u32::try_from(decimal(word)?).ok()
}

/// The initial size that a number is.
fn size(word: &[u8]) -> Option<u32>
    ensures { IfSome result (λ size. size ≤ MAX_SIZE) }
{
    match number(word) {
        Some(size) if size <= MAX_SIZE => Some(size),
        _ => None,
    }
}

/// What is done to a window.
#[derive(Clone, Copy)]
enum Change {
    Grant,
    Spend,
    Shift,
}

static CHANGES: [(&[u8], Change); 3] = [
    (b"grant", Change::Grant),
    (b"spend", Change::Spend),
    (b"shift", Change::Shift),
];

/// Changes a window by a number, and gives what it answers.
fn changed(window: &mut Window, change: Change, by: u32) -> Option<Result<(), FlowError>> {
    match change {
        Change::Grant => Some(window.grant(by)),
        Change::Spend => Some(window.spend(by)),
        Change::Shift if by <= MAX_SIZE => Some(window.shift(by)),
        Change::Shift => None,
    }
}

/// What a line says is done, and by which number, where it says so.
fn change_of(line: &[u8]) -> (Option<Change>, Option<u32>) {
    let mut parts = words(line);
    let change = named(&CHANGES, parts.next().unwrap_or(b""));
    (change, number(parts.next().unwrap_or(b"")))
}

/// Changes a window as a line says, and gives what it answers, if the line says something.
fn changed_as(window: &mut Window, line: &[u8]) -> Option<Result<(), FlowError>> {
    match change_of(line) {
        (Some(change), Some(by)) => changed(window, change, by),
        _ => None,
    }
}

/// The word for what a window answers.
fn word_of(answer: Result<(), FlowError>) -> &'static [u8] {
    match answer {
        Ok(()) => b"ok",
        Err(FlowError::Zero) => b"Zero",
        Err(FlowError::TooLarge) => b"TooLarge",
        Err(FlowError::NotEnough) => b"NotEnough",
    }
}

/// Changes a window as a line says, and writes what it answers and what is left.
fn show_change(window: &mut Window, line: &[u8], out: &mut Output) {
    match changed_as(window, line) {
        Some(answer) => out.print(word_of(answer)),
        None => out.fail(BAD_LINE),
    }
    let left = window.left();
    out.print_text(format!(in out.alloc; " left {left}\n"));
}

/// Changes a window of an initial size as each line says.
pub fn window(initial: &[u8], operations: &[&[u8]], out: &mut Output) {
    let Some(initial) = size(initial) else {
        return out.fail(BAD_LINE);
    };
    let mut window = Window::new(initial);
    for line in operations {
        show_change(&mut window, line, out);
    }
}
