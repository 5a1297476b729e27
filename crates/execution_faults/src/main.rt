//! Executes actions while one call goes wrong: the first, the second, and so on, of the folders, of
//! the programs and of the sockets, until a run of the whole ends in which none does.
//!
//! Each line of standard input is what a client sends, in hexadecimal. Written is what each client
//! is sent, where nothing goes wrong and where the run of a job fails; and then for each way to go
//! wrong how many calls there are, how many runs of the whole there were, how many of these came to
//! something that is not right, and what the others came to, the first of them once more where no
//! start is noted by itself; and last what is left where only a few turns are taken, and what then, once all that is left was ended, also where the first removal of
//! these fails. Behind that stand lines that were written to an output which takes some in part, or
//! not at once.
#![tactic(auto)]

mod case;
mod counting;
mod fake_folder;
mod fake_programs;
mod fake_sockets;
mod judging;
mod slow_errors;

use crate::case::{Fake, NAMES, carry_out, cut_short_each};
use crate::counting::CallFault::{Fails, IsTooLong};
use crate::counting::{CallFault, Deed, Failing};
use crate::judging::{Judge, LAUNCHER, START};
use crate::slow_errors::write_lines;
use hex::FromHexError;
use script::lines;
use server_events::{Configs, InstanceConfig, Limits};
use std::io::ErrorKind;
use std::process::ExitCode;
use tool_programs::{Fault, Output, Status, read_all};

const OTHER: ErrorKind = ErrorKind::Other;

const LACK: ErrorKind = ErrorKind::OutOfMemory;

/// More calls than there are.
const MOST_CALLS: u64 = 10_000;

/// What goes wrong, at which fake, and how; and why a run fails then, as it is written to the
/// errors.
type Pass = (&'static str, Fake, CallFault, &'static str);

static PASSES: [Pass; 7] = [
    ("folders fail", Fake::Folder, Fails(OTHER), "folder"),
    ("folders lack memory", Fake::Folder, Fails(LACK), "memory"),
    ("programs fail", Fake::Programs, Fails(OTHER), START),
    (
        "launchers are lost",
        Fake::Programs,
        Fails(ErrorKind::ConnectionAborted),
        LAUNCHER,
    ),
    (
        "programs lack memory",
        Fake::Programs,
        Fails(LACK),
        "memory",
    ),
    (
        "programs write too much",
        Fake::Programs,
        IsTooLong,
        "too large",
    ),
    ("sockets fail", Fake::Sockets, Fails(OTHER), ""),
];

/// What came of a run of the whole.
#[derive(Clone, Copy)]
struct Ran {
    is_right: bool,
    /// How many calls there were that may go wrong.
    calls: u64,
    /// What the call was for that went wrong.
    wrong: Option<Deed>,
}

/// How many runs of the whole came to something.
#[derive(Clone, Copy)]
struct Tally {
    what: &'static str,
    runs: u64,
}

/// What it is to come to where such a call goes wrong.
fn due(deed: Deed) -> &'static str {
    match deed {
        Deed::Work(_) => "failed: ",
        Deed::Kill(_) => "ended again",
        Deed::Remove(_) => "folder left",
        Deed::Accept(_) => "let in later",
        Deed::Read(_) => "closed on read",
        Deed::Write(_) => "closed on write",
        Deed::Close(_) => "gone all the same",
    }
}

/// Counts one more.
fn count(tallies: &mut Vec<Tally>, what: &'static str, output: &mut Output) {
    for tally in tallies.iter_mut() {
        if tally.what == what {
            tally.runs = tally.runs.saturating_add(1);
            return;
        }
    }
    output.expect(tallies.push(Tally { what, runs: 1 }));
}

/// What a line in hexadecimal says.
fn text_of(line: &[u8], output: &mut Output) -> Vec<u8> {
    match hex::decode(output.alloc, line) {
        Ok(text) => text,
        Err(error) => {
            output.fail(match error {
                FromHexError::OutOfMemory => Fault::OutOfMemory,
                _ => Fault::InputOrOutput,
            });
            Vec::new(output.alloc)
        }
    }
}

/// What each client sends.
fn texts(input: &[u8], output: &mut Output) -> Vec<Vec<u8>> {
    let mut texts = Vec::new(output.alloc);
    for line in lines(input) {
        if !line.is_empty() {
            let text = text_of(line, output);
            output.expect(texts.push(text));
        }
    }
    texts
}

/// The instances, each of which runs one action at a time.
fn configs(output: &mut Output) -> Option<Configs> {
    let mut configs = Vec::new(output.alloc);
    for name in &NAMES {
        let name = output.string(String::from_str(output.alloc, name));
        output.expect(configs.push(InstanceConfig {
            name,
            quota: 100_000,
            slots: 1,
            limits: Limits::usual(),
            parent: None,
        }));
    }
    match Configs::new(configs) {
        Ok(configs) => Some(configs),
        Err(_) => {
            output.fail(Fault::InputOrOutput);
            None
        }
    }
}

/// A run of the whole in which the call of this number goes wrong, counted from 1. There is room to
/// note so many starts by themselves.
fn try_one(
    configs: &Configs,
    texts: &[Vec<u8>],
    pass: Pass,
    room: usize,
    at: u64,
    judge: &mut Judge,
    output: &mut Output,
) -> Ran {
    let (alloc, (name, fake, fault, word)) = (output.alloc, pass);
    let Ok(told) = carry_out(alloc, configs, texts, fake, Failing { at, fault }, room) else {
        output.fail(Fault::OutOfMemory);
        return Ran {
            is_right: false,
            calls: 0,
            wrong: None,
        };
    };
    let fault = judge.fault(&told, word, output);
    if let Some(fault) = fault {
        output.print_text(format!(in alloc; "{name}, call {at}: {fault}\n"));
    }
    Ran {
        is_right: fault.is_none(),
        calls: told.calls,
        wrong: told.wrong,
    }
}

/// Lets each call of a fake go wrong in turn, and tells what came of it. There is room to note so
/// many starts by themselves.
fn carry_out_pass(
    configs: &Configs,
    texts: &[Vec<u8>],
    pass: Pass,
    room: usize,
    judge: &mut Judge,
    output: &mut Output,
) {
    let (alloc, (name, _, _, word)) = (output.alloc, pass);
    let mut tallies = Vec::new(alloc);
    let (mut calls, mut runs, mut differing): (u64, u64, u64) = (0, 0, 0);
    for at in 1..MOST_CALLS {
        let ran = try_one(configs, texts, pass, room, at, judge, output);
        (calls, runs) = (ran.calls, at);
        differing = differing.saturating_add(u64::from(!ran.is_right));
        match ran.wrong {
            Some(deed) => count(&mut tallies, due(deed), output),
            None => break,
        }
    }
    output.print_text(format!(in alloc;
        "{name}: {calls} calls, {runs} runs, {differing} not right\n"
    ));
    for Tally { what, runs } in &tallies {
        let why = if what.ends_with(' ') { word } else { "" };
        output.print_text(format!(in alloc; "{what}{why} {runs}\n"));
    }
}

/// Carries out all, where clients send the texts of these lines.
fn carry_out_all(input: &[u8], output: &mut Output) {
    let Some(configs) = configs(output) else {
        return;
    };
    let texts = texts(input, output);
    let mut judge = Judge::new(output);
    // In the first run nothing goes wrong.
    let room = NAMES.len();
    let _ = try_one(&configs, &texts, PASSES[0], room, 0, &mut judge, output);
    for pass in &PASSES {
        carry_out_pass(&configs, &texts, *pass, room, &mut judge, output);
    }
    output.print(b"no room for starts, ");
    carry_out_pass(&configs, &texts, PASSES[0], 0, &mut judge, output);
    for turns in [4, 8, 12] {
        let told = cut_short_each(&configs, &texts, turns, output);
        output.expect(told);
    }
    let told = write_lines(output);
    output.expect(told);
}

fn run(rt: &HostRuntime) -> Result<(), Fault> {
    let text = read_all(rt.alloc(), &mut rt.stdin())?;
    let mut output = Output::new(rt.alloc());
    carry_out_all(&text, &mut output);
    output.write_to(&mut rt.stdout())
}

fn main(rt: HostRuntime) -> ExitCode {
    let status = match run(&rt) {
        Ok(()) => Status::Done,
        Err(fault) => fault.status(),
    };
    ExitCode::from(status.code())
}
