//! A line as an event.
ghost use Rattle.std.specs.Prelude.{◌≡◌, Some, None, Ok, Err, IfOk, option_map};
ghost use Rattle.script.specs.ReplayEvents.{event_of, what_of, received_of, took_of, exit_of, fail_of};
ghost use Rattle.server_events.specs.Shown.{event_value, what_value};

use crate::arguments::{exit_code, number, one, only_number, two};
use crate::fault::LineFault;
use crate::replay::output::{read_content, read_outputs};
use crate::{Parts, hex_bytes};
use numerals::decimal;
use run_calls::{Exited, Outcome, Streams};
use server_events::{Event, What};
use std::alloc::Global;

/// The event of a line of this kind: its moment, its instance, and what happens.
pub(crate) fn read_event(alloc: Global, kind: &[u8], mut words: Parts) -> Result<Event, LineFault>
    ensures read { IfOk result (λ event. event_of kind.now words.entry ≡ Some (event_value event)) }
    ensures bad { result ≡ Err LineFault.Bad → event_of kind.now words.entry ≡ None }
{
    let moment = words.next().ok_or(LineFault::Bad)?;
    let instance = words.next().ok_or(LineFault::Bad)?;
    let moment = decimal(moment).ok_or(LineFault::Bad)?;
    let instance = number(instance).ok_or(LineFault::Bad)?;
    let what = read_what(alloc, kind, words)?;
    Ok(Event {
        moment,
        instance,
        what,
    })
}

// What happens, of the words after moment and instance.
fn read_what(alloc: Global, kind: &[u8], mut words: Parts) -> Result<What, LineFault>
    ensures read { IfOk result (λ what. what_of kind.now words.entry ≡ Some (what_value what)) }
    ensures bad { result ≡ Err LineFault.Bad → what_of kind.now words.entry ≡ None }
{
    if kind == b"open".as_slice() {
        Ok(What::Open(only_number(words).ok_or(LineFault::Bad)?))
    } else if kind == b"closed".as_slice() {
        Ok(What::Closed(only_number(words).ok_or(LineFault::Bad)?))
    } else if kind == b"bytes".as_slice() {
        read_bytes(alloc, words)
    } else if kind == b"took".as_slice() {
        read_took(words).ok_or(LineFault::Bad)
    } else if kind == b"tick".as_slice() {
        match words.next() {
            None => Ok(What::Tick),
            Some(_) => Err(LineFault::Bad),
        }
    } else if kind == b"exit".as_slice() {
        read_exit(alloc, words)
    } else if kind == b"fail".as_slice() {
        read_fail(words).ok_or(LineFault::Bad)
    } else {
        Err(LineFault::Bad)
    }
}

// C HEX
fn read_bytes(alloc: Global, words: Parts) -> Result<What, LineFault>
    ensures read { IfOk result (λ what. received_of words.entry ≡ Some (what_value what)) }
    ensures bad { result ≡ Err LineFault.Bad → received_of words.entry ≡ None }
{
    let (connection, bytes) = two(words).ok_or(LineFault::Bad)?;
    let connection = number(connection).ok_or(LineFault::Bad)?;
    let bytes = hex_bytes(alloc, bytes)?.ok_or(LineFault::Bad)?;
    Ok(What::Bytes(connection, bytes))
}

// C N
fn read_took(words: Parts) -> Option<What>
    ensures { option_map what_value result ≡ took_of words.entry }
{
    let (connection, count) = two(words)?;
    Some(What::Took(number(connection)?, number(count)?))
}

// JOB CODE HEX HEX PATH=HEX ..
fn read_exit(alloc: Global, mut words: Parts) -> Result<What, LineFault>
    ensures read { IfOk result (λ what. exit_of words.entry ≡ Some (what_value what)) }
    ensures bad { result ≡ Err LineFault.Bad → exit_of words.entry ≡ None }
{
    let job = words.next().ok_or(LineFault::Bad)?;
    let code = words.next().ok_or(LineFault::Bad)?;
    let stdout = words.next().ok_or(LineFault::Bad)?;
    let stderr = words.next().ok_or(LineFault::Bad)?;
    let job = decimal(job).ok_or(LineFault::Bad)?;
    let code = exit_code(code).ok_or(LineFault::Bad)?;
    let streams = Streams {
        stdout: read_content(alloc, stdout)?,
        stderr: read_content(alloc, stderr)?,
    };
    let outputs = read_outputs(alloc, words)?;
    let exited = Exited::new(alloc, code, streams, outputs)?;
    Ok(What::Outcome(job, Outcome::Exited(exited)))
}

// JOB
fn read_fail(words: Parts) -> Option<What>
    ensures { option_map what_value result ≡ fail_of words.entry }
{
    let job = decimal(one(words)?)?;
    Some(What::Outcome(job, Outcome::Failed))
}
