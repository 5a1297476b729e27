//! Runs that go on past refused requests for memory. Memory is refused by whoever starts the
//! program; where none is, nothing may differ.
//!
//! The script has several instances. Its lines `blob HASH SIZE` name all blobs that it stores.
//! Each instance is `alone` where it gives what it gives alone, `short` where an event of it was
//! refused for want of memory, and else `WRONG`. What the server has stored at the end, when all
//! connections are closed, has to be what the instances are found to have.

mod found;

use crate::instances::server;
use crate::memory::found::{Texts, found};
use crate::runs::{outcome, outcome_of, shown, shown_at};
use crate::scripts::{configs, events, expanded};
use script::lines;
use server_core::{InstanceOutput, Outputs, Server, run_on};
use server_events::{Configs, Event, What};
use tool_programs::{Fault, Output, Status};

/// How many connections a script may open: those with numbers below this.
const CONNECTIONS: u32 = 10;

/// The number of the refusal that is want of memory.
const NO_MEMORY: u32 = 8;

/// The lines of a text that begin so, without that, or all others.
fn lines_with(text: &[u8], beginning: &[u8], is_wanted: bool, output: &mut Output) -> Vec<u8> {
    let mut chosen = Vec::new(output.alloc);
    for line in lines(text) {
        if line.starts_with(beginning) == is_wanted {
            output.expect(chosen.extend_from_slice(line));
            output.expect(chosen.push(b'\n'));
        }
    }
    chosen
}

/// Whether an event was refused for want of memory.
fn is_short(given: &InstanceOutput) -> bool {
    let mut is_short = false;
    for refused in &given.refusals {
        is_short = is_short || refused.refusal.code() == NO_MEMORY;
    }
    is_short
}

/// How an instance fared beside others.
fn word_of(given: &InstanceOutput, alone: &[u8], output: &mut Output) -> &'static [u8] {
    if is_short(given) {
        b"short"
    } else if shown(0, given, output).as_slice() == alone {
        b"alone"
    } else {
        b"WRONG"
    }
}

/// What the instance of this number gives alone.
fn alone(script: &[u8], number: usize, output: &mut Output) -> Vec<u8> {
    match outcome_of(script, u32::try_from(number).ok(), output) {
        Some(outputs) => shown_at(&outputs, 0, output),
        None => Vec::new(output.alloc),
    }
}

/// Prints how each instance fared.
fn judge(script: &[u8], outputs: &Outputs, output: &mut Output) {
    for (number, given) in outputs.instances.iter().enumerate() {
        let alone = alone(script, number, output);
        let word = word_of(given, &alone, output);
        output.print_text(format!(in output.alloc; "instance {number}: "));
        output.print(word);
        output.print(b"\n");
    }
}

/// The lines of all instances, one behind the other.
fn all_shown(outputs: &Outputs, output: &mut Output) -> Vec<u8> {
    let mut text = Vec::new(output.alloc);
    for given in &outputs.instances {
        let lines = shown(0, given, output);
        output.expect(text.extend_from_slice(&lines));
    }
    text
}

/// Prints whether a run that goes on gave what one gives that ends when memory is refused, where
/// none was refused.
fn compare(configs: &Configs, script: &[u8], outputs: &Outputs, output: &mut Output) {
    let events = events(script, None, output);
    if let Some(whole) = outcome(configs, events, output) {
        let is_same = all_shown(outputs, output).as_slice() == all_shown(&whole, output).as_slice();
        output.print(if is_same {
            b"as a run that ends then\n"
        } else {
            b"not as a run that ends then\n"
        });
    }
}

/// Runs a script past refused requests for memory, and prints how each instance fared.
fn go_on(configs: &Configs, script: &[u8], output: &mut Output) {
    let events = events(script, None, output);
    match run_on(output.alloc, configs, events) {
        Ok(outputs) => {
            judge(script, &outputs, output);
            compare(configs, script, &outputs, output);
        }
        Err(_) => output.fail(Fault::OutOfMemory),
    }
}

/// Closes each connection of an instance.
fn close_all(server: &mut Server, instance: u32) {
    for connection in 0..CONNECTIONS {
        let closed = Event {
            moment: 0,
            instance,
            what: What::Closed(connection),
        };
        let _ = server.step(closed);
    }
}

/// Gives a server the events of a script, and closes all connections.
fn serve(mut server: Box<Server>, count: usize, script: &[u8], output: &mut Output) -> Box<Server> {
    for event in events(script, None, output) {
        let _ = server.step(event);
    }
    for instance in 0..count {
        close_all(&mut server, u32::try_from(instance).unwrap_or(0));
    }
    server
}

/// Prints what a server has stored, and what its instances are found to have.
fn show_stored((texts, bytes): (u64, u128), found: Texts, output: &mut Output) {
    let is_same = texts == found.count && bytes == found.bytes;
    let word = if is_same { "found" } else { "WRONG" };
    let (count, found) = (found.count, found.bytes);
    output.print_text(format!(in output.alloc;
        "stored {texts} texts of {bytes} bytes, found {count} of {found}: {word}\n"
    ));
}

/// Gives a server a script, and compares what it has stored then with what its instances have of
/// these blobs.
fn count(configs: &Configs, script: &[u8], blobs: &[u8], output: &mut Output) {
    if let Some(server) = server(configs, output) {
        let instances = configs.instances().len();
        let server = serve(server, instances, script, output);
        let stored = server.stored();
        let found = found(server, instances, blobs, output);
        show_stored(stored, found, output);
    }
}

/// Runs a script past refused requests for memory, and prints what came of it.
pub fn carry_out(text: &[u8], output: &mut Output) -> Status {
    let blobs = lines_with(text, b"blob ", true, output);
    let events = lines_with(text, b"blob ", false, output);
    let script = expanded(&events, output);
    if let Some(configs) = configs(&script, None, output) {
        go_on(&configs, &script, output);
        count(&configs, &script, &blobs, output);
    }
    Status::Done
}
