//! Scripts of events, of which a line may stand for many frames.
//!
//! They are scripts of `replay`, but that a line `many M I C N FIRST HEX` stands for the line
//! `bytes M I C` with N times these bytes. An `@` among them stands for the number of a stream, in
//! eight digits: FIRST at the first time, and two more each time.

use crate::numbers::number;
use script::replay::{EventReader, parse};
use script::{Parts, ScriptFault, lines, words, write_hex};
use server_events::{Configs, Event, InstanceConfig, Limits};
use tool_programs::{Fault, Output};

/// Appends bytes in hexadecimal, with the number of this stream for each `@`.
fn write_bytes(hex: &[u8], stream: u64, text: &mut Vec<u8>, output: &mut Output) {
    let number = u32::try_from(stream).unwrap_or(0).to_be_bytes();
    for digit in hex {
        if *digit == b'@' {
            output.expect(write_hex(text, &number));
        } else {
            output.expect(text.push(*digit));
        }
    }
}

/// Appends the line `bytes M I C HEX` that the words `M I C N FIRST HEX` stand for.
fn write_line(mut words: Parts<'_>, text: &mut Vec<u8>, output: &mut Output) {
    output.expect(text.extend_from_slice(b"bytes "));
    for _ in 0..3 {
        output.expect(text.extend_from_slice(words.next().unwrap_or(b"")));
        output.expect(text.push(b' '));
    }
    let count = number(words.next().unwrap_or(b""), output);
    let first = number(words.next().unwrap_or(b""), output);
    let hex = words.next().unwrap_or(b"");
    for place in 0..count {
        let stream = first.saturating_add(place.saturating_mul(2));
        write_bytes(hex, stream, text, output);
    }
}

/// The script of `replay` that a text stands for.
pub fn expanded(text: &[u8], output: &mut Output) -> Vec<u8> {
    let mut script = Vec::new(output.alloc);
    for line in lines(text) {
        match line.strip_prefix(b"many ") {
            Some(rest) => write_line(words(rest), &mut script, output),
            None => output.expect(script.extend_from_slice(line)),
        }
        output.expect(script.push(b'\n'));
    }
    script
}

/// Those instances, by their numbers, that are this one, where one is named.
fn chosen(
    instances: Vec<InstanceConfig>,
    only: Option<u32>,
    output: &mut Output,
) -> Vec<InstanceConfig> {
    let mut chosen = Vec::new(output.alloc);
    let mut number: u32 = 0;
    for instance in instances {
        if only.is_none() || only == Some(number) {
            output.expect(chosen.push(instance));
        }
        number = number.saturating_add(1);
    }
    chosen
}

/// The instances of a script, or just the one of this number.
pub fn configs(script: &[u8], only: Option<u32>, output: &mut Output) -> Option<Configs> {
    match parse(output.alloc, Limits::usual(), script) {
        Ok(script) => {
            let chosen = chosen(script.configs, only, output);
            Configs::new(chosen).ok()
        }
        Err(ScriptFault::NoMemory) => {
            output.fail(Fault::OutOfMemory);
            None
        }
        Err(ScriptFault::BadLine(_)) => {
            output.fail(Fault::InputOrOutput);
            None
        }
    }
}

/// Adds an event, or, where one instance is named, an event of that instance, as instance 0.
fn add(events: &mut Vec<Event>, event: Event, only: Option<u32>, output: &mut Output) {
    let mut event = event;
    if let Some(number) = only {
        if event.instance != number {
            return;
        }
        event.instance = 0;
    }
    output.expect(events.push(event));
}

/// The events of a script, or just those of the instance of this number, as instance 0.
pub fn events(script: &[u8], only: Option<u32>, output: &mut Output) -> Vec<Event> {
    let mut reader = EventReader::new(script);
    let mut events = Vec::new(output.alloc);
    for _ in 0..u64::MAX {
        match reader.next_event(output.alloc) {
            Ok(Some(event)) => add(&mut events, event, only, output),
            Ok(None) => break,
            Err(_) => {
                output.fail(Fault::OutOfMemory);
                break;
            }
        }
    }
    events
}
