//! Serves clients over fake sockets and over real ones, and compares what each is sent with what
//! its instance gives alone.
//!
//! Each line is what a client sends, in hexadecimal. A line is written for each seed, by which the
//! fake sockets cut and fail, and one for the real ones.
//!
//! Where the first line is `silent TURNS`, the clients fall silent on fake sockets, and callers
//! come after them. A line is written for each connection that is closed, and for each caller that
//! is let in, with the moment.

mod alone;
mod fake;
mod log;
mod no_runs;
mod peers;
mod silent;

use crate::instances::configs;
use crate::sockets::alone::{Outcome, judge};
use crate::sockets::fake::{Client, Fake, Habits};
use crate::sockets::no_runs::serve_alone;
use crate::sockets::peers::serve_peers;
use crate::sockets::silent::serve_silent;
use hex::FromHexError;
use logs::LoggedSockets;
use numerals::decimal;
use script::lines;
use serve::Sockets;
use server_events::Configs;
use tool_programs::{Fault, Output, Status};

/// How many turns a case takes.
const TURNS: u64 = 2_000;

/// What a line in hexadecimal says; `-` says nothing.
fn text_of(line: &[u8], output: &mut Output) -> Vec<u8> {
    if line == b"-".as_slice() {
        return Vec::new(output.alloc);
    }
    match hex::decode(output.alloc, line) {
        Ok(text) => text,
        Err(error) => {
            output.fail(match error {
                FromHexError::OutOfMemory => Fault::OutOfMemory,
                _ => Fault::InputOrOutput,
            });
            Vec::new(output.alloc)
        }
    }
}

/// The texts that clients send.
fn texts(input: &[u8], output: &mut Output) -> Vec<Vec<u8>> {
    let mut texts = Vec::new(output.alloc);
    for line in lines(input) {
        if !line.is_empty() {
            let text = text_of(line, output);
            output.expect(texts.push(text));
        }
    }
    texts
}

/// So many clients, of which every fourth is one of instance 1 where they are not steady.
fn clients<'a>(
    texts: &'a [Vec<u8>],
    count: usize,
    is_steady: bool,
    output: &mut Output,
) -> Vec<Client<'a>> {
    let mut clients = Vec::new(output.alloc);
    for place in 0..count {
        let instance = u32::from(!is_steady && place % 4 == 0);
        if let Some(text) = texts.get(place % texts.len().max(1)) {
            output.expect(clients.push(Client::new(output.alloc, instance, text)));
        }
    }
    clients
}

/// Serves so many clients with these habits, and tells what came of it.
fn case(configs: &Configs, texts: &[Vec<u8>], count: usize, habits: Habits, output: &mut Output) {
    let clients = clients(texts, count, habits.is_steady, output);
    let fake = Fake::new(output.alloc, clients, habits);
    let mut sockets = LoggedSockets::new(output.alloc, fake);
    serve_alone(configs, &mut sockets, TURNS, output);
    if sockets.sockets.is_out_of_memory {
        output.fail(Fault::OutOfMemory);
    }
    let outcome = judge(configs, &mut sockets, output);
    tell(habits, outcome, sockets.faults() > 0, output);
}

/// Tells what came of a case.
fn tell(habits: Habits, outcome: Outcome, faults: bool, output: &mut Output) {
    let Habits {
        seed,
        is_steady,
        ..
    } = habits;
    let Outcome {
        differing,
        served,
        refused,
    } = outcome;
    let alloc = output.alloc;
    output.print_text(if is_steady {
        format!(in alloc;
            "seed {seed}, steady: {served} served, {refused} refused, \
             {differing} differ from alone\n"
        )
    } else {
        format!(in alloc; "seed {seed}: {differing} differ from alone; faults: {faults}\n")
    });
}

/// Serves clients over fake sockets for each seed, and then over real ones.
fn serve_all(rt: &HostRuntime, configs: &Configs, texts: &[Vec<u8>], output: &mut Output) {
    for seed in 1..=20 {
        let habits = Habits {
            seed,
            is_steady: false,
            pace: None,
        };
        case(configs, texts, 40, habits, output);
    }
    let steady = Habits {
        seed: 21,
        is_steady: true,
        pace: None,
    };
    case(configs, texts, 70, steady, output);
    let differing = serve_peers(rt, configs, texts, output);
    output.print_text(format!(in output.alloc; "over ports: {differing} differ from alone\n"));
}

/// How many turns are taken with clients that fall silent, and their lines, where the first line
/// tells that.
fn silent_lines(input: &[u8]) -> Option<(u64, &[u8])> {
    let first = lines(input).next()?;
    if !first.starts_with(b"silent ") {
        return None;
    }
    Some((decimal(first.get(7..)?)?, input.get(first.len()..)?))
}

/// Serves clients that send the texts of these lines, and compares what each is sent with what its
/// instance gives alone.
pub fn carry_out(rt: &HostRuntime, input: &[u8], output: &mut Output) -> Status {
    if let Some(configs) = configs(&["a", "b"], 1_000, output) {
        match silent_lines(input) {
            Some((turns, silent)) => {
                let texts = texts(silent, output);
                serve_silent(&configs, &texts, turns, output);
            }
            None => {
                let texts = texts(input, output);
                serve_all(rt, &configs, &texts, output);
            }
        }
    }
    Status::Done
}
