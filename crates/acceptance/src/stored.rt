//! How much a server holds.

use crate::instances::server;
use script::replay::{EventReader, parse};
use server_core::Server;
use server_events::{Configs, InstanceConfig, Limits};
use tool_programs::{Fault, Output, Status};

/// Gives a server the next event, and tells what it has stored then; answers whether there was one.
fn tell_next(
    place: u64,
    server: &mut Server,
    events: &mut EventReader<'_>,
    output: &mut Output,
) -> bool {
    match events.next_event(output.alloc) {
        Ok(Some(event)) => {
            let _ = server.step(event);
            let (texts, bytes) = server.stored();
            let line = format!(in output.alloc; "stored {place} {texts} {bytes}\n");
            output.print_text(line);
            return true;
        }
        Ok(None) => {}
        Err(_) => output.fail(Fault::OutOfMemory),
    }
    false
}

/// Gives a server of these instances the events one by one, and tells after each what is stored.
fn serve(configs: &Configs, events: &mut EventReader<'_>, output: &mut Output) -> Status {
    if let Some(mut server) = server(configs, output) {
        for place in 1..u64::MAX {
            if !tell_next(place, &mut server, events, output) {
                break;
            }
        }
    }
    Status::Done
}

fn configure(
    configs: Vec<InstanceConfig>,
    events: &mut EventReader<'_>,
    output: &mut Output,
) -> Status {
    match Configs::new(configs) {
        Ok(configs) => serve(&configs, events, output),
        Err(_) => Status::Failed,
    }
}

/// Gives a server the events of a script, and tells after each what it has stored.
pub fn carry_out(text: &[u8], output: &mut Output) -> Status {
    match parse(output.alloc, Limits::usual(), text) {
        Ok(mut script) => configure(script.configs, &mut script.events, output),
        Err(fault) => Status::from(fault),
    }
}
