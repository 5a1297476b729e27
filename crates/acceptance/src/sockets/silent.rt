//! Clients that fall silent on all connections that an instance may have, and callers after them.

use crate::sockets::alone::{Outcome, judge};
use crate::sockets::fake::{Client, Fake, Habits};
use crate::sockets::no_runs::serve_alone;
use logs::LoggedSockets;
use server_events::{Configs, Event, What};
use tool_programs::{Fault, Output};

/// How many connections an instance may have open.
const CONNECTION_LIMIT: u64 = 64;

/// How many milliseconds pass in a turn.
const PACE: u64 = 100;

/// What a client sends: the silent ones a text each, the last text where there are fewer; a caller
/// nothing.
fn text_at<'a>(texts: &'a [Vec<u8>], place: u64) -> &'a [u8] {
    if place >= CONNECTION_LIMIT {
        return &[];
    }
    match texts.get((place as usize).min(texts.len().saturating_sub(1))) {
        Some(text) => text,
        None => &[],
    }
}

/// A client for each turn. Each is accepted in its turn, under its place as its number.
fn clients<'a>(texts: &'a [Vec<u8>], turns: u64, output: &mut Output) -> Vec<Client<'a>> {
    let mut clients = Vec::new(output.alloc);
    for place in 0..turns {
        let client = Client::new(output.alloc, 0, text_at(texts, place));
        output.expect(clients.push(client));
    }
    clients
}

/// Tells of a caller that is not closed at once that it was let in.
fn tell_let_in(opened: Option<u32>, moment: u64, output: &mut Output) {
    if let Some(number) = opened {
        if number as u64 >= CONNECTION_LIMIT {
            let text = format!(in output.alloc; "{number} let in at {moment}\n");
            output.print_text(text);
        }
    }
}

/// Tells which connections were closed and which callers were let in, and when.
fn tell_events(events: &[Event], output: &mut Output) {
    let mut opened = None;
    let mut moment = 0;
    for event in events {
        if let What::Closed(number) = event.what {
            if opened != Some(number) {
                let at = event.moment;
                let text = format!(in output.alloc; "{number} closed at {at}\n");
                output.print_text(text);
            }
        } else {
            tell_let_in(opened, moment, output);
        }
        opened = match event.what {
            What::Open(number) => Some(number),
            _ => None,
        };
        moment = event.moment;
    }
}

/// Serves clients that send a text each, one accepted in a turn, and tells what came of it.
pub fn serve_silent(configs: &Configs, texts: &[Vec<u8>], turns: u64, output: &mut Output) {
    let habits = Habits {
        seed: 1,
        is_steady: true,
        pace: Some(PACE),
    };
    let fake = Fake::new(output.alloc, clients(texts, turns, output), habits);
    let mut sockets = LoggedSockets::new(output.alloc, fake);
    serve_alone(configs, &mut sockets, turns, output);
    if sockets.sockets.is_out_of_memory {
        output.fail(Fault::OutOfMemory);
    }
    tell_events(&sockets.sockets.events, output);
    let Outcome {
        differing,
        served,
        refused,
    } = judge(configs, &mut sockets, output);
    output.print_text(format!(in output.alloc;
        "{served} served, {refused} refused, {differing} differ from alone\n"
    ));
}
