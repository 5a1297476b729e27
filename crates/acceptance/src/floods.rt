//! Floods of frames, of which the end of what is sent tells what became of them.

use crate::runs::outcome_of;
use crate::scripts::expanded;
use server_core::{InstanceOutput, SentBytes};
use tool_programs::{Output, Status};

/// How many bytes the last of what was sent are: those of a GOAWAY without debug data.
const LAST: usize = 17;

/// Prints how many bytes were put on a connection, and the last of them.
fn show_sent(instance: usize, sent: &SentBytes, output: &mut Output) {
    let (connection, count) = (sent.connection, sent.bytes.len());
    output.print_text(format!(in output.alloc; "out {instance} {connection} {count} bytes, "));
    let last = sent.bytes.get(count.saturating_sub(LAST)..).unwrap_or(b"");
    output.print(b"the last ");
    output.print_hex(last);
    output.print(b"\n");
}

fn show(instance: usize, given: &InstanceOutput, output: &mut Output) {
    for sent in &given.sent {
        show_sent(instance, sent, output);
    }
    for refused in &given.refusals {
        let (place, code) = (refused.place, refused.refusal.code());
        output.print_text(format!(in output.alloc; "refused {instance} {place} {code}\n"));
    }
}

/// Runs a script, and prints of each connection how many bytes were put on it, and the last 17.
pub fn carry_out(text: &[u8], output: &mut Output) -> Status {
    let script = expanded(text, output);
    if let Some(outputs) = outcome_of(&script, None, output) {
        for (instance, given) in outputs.instances.iter().enumerate() {
            show(instance, given, output);
        }
    }
    Status::Done
}
