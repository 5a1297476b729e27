//! What runs of scripts give.

use crate::scripts::{configs, events};
use script::replay_lines::{write_kill, write_refusal, write_sent, write_start};
use server_core::{InstanceOutput, OrderedAt, Outputs, RunOrder, run};
use server_events::{Configs, Event};
use tool_programs::{Fault, Output};

/// What a run of these events gives; where memory is refused, that is remembered.
pub fn outcome(configs: &Configs, events: Vec<Event>, output: &mut Output) -> Option<Outputs> {
    match run(output.alloc, configs, events) {
        Ok(outputs) => Some(outputs),
        Err(_) => {
            output.fail(Fault::OutOfMemory);
            None
        }
    }
}

/// What a script gives, or just the instance of this number, alone.
pub fn outcome_of(script: &[u8], only: Option<u32>, output: &mut Output) -> Option<Outputs> {
    let configs = configs(script, only, output)?;
    let events = events(script, only, output);
    outcome(&configs, events, output)
}

/// Appends the line that tells what the instance of this number ordered.
fn show_order(instance: u32, ordered: &OrderedAt, text: &mut Vec<u8>, output: &mut Output) {
    let place = ordered.place;
    match &ordered.order {
        RunOrder::Start { job, .. } => output.expect(write_start(text, instance, place, *job)),
        RunOrder::Kill { job } => output.expect(write_kill(text, instance, place, *job)),
    }
}

/// The lines that tell what the instance of this number gave, as `replay` writes them.
pub fn shown(instance: u32, given: &InstanceOutput, output: &mut Output) -> Vec<u8> {
    let mut text = Vec::new(output.alloc);
    for sent in &given.sent {
        output.expect(write_sent(&mut text, instance, sent.connection, &sent.bytes));
    }
    for ordered in &given.orders {
        show_order(instance, ordered, &mut text, output);
    }
    for refused in &given.refusals {
        let code = refused.refusal.code();
        output.expect(write_refusal(&mut text, instance, refused.place, code));
    }
    text
}

/// The lines of the instance of this number, or none.
pub fn shown_at(outputs: &Outputs, instance: u32, output: &mut Output) -> Vec<u8> {
    match outputs.instances.get(instance as usize) {
        Some(given) => shown(instance, given, output),
        None => Vec::new(output.alloc),
    }
}
