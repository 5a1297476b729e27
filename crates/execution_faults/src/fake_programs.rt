//! Programs in memory. The first word of a command says whether its program ends by itself, at the
//! second question, or runs until it is ended; the others are what it writes. What cannot be done
//! is passed over: what comes of the run shows it.

ghost use Rattle.std.specs.Prelude.{◌≡◌, ◌≤◌, IfSome, length};
ghost use Rattle.run_calls.specs.Values.{IsInRange};

use crate::counting::{Calls, Deed, Failing};
use crate::fake_folder::piece;
use run_calls::{Command, Place, Programs, RunKey, Stream};
use std::alloc::{AllocError, Global};
use std::io;

/// What a launcher said last, whichever program is asked for.
const LAST_WORDS: &[u8] = b"it is \"lost\"\n\xff";

#[derive(Drop)]
struct Program {
    run: RunKey,
    ends: bool,
    questions: u64,
    kills: u64,
    output: Vec<u8>,
    error: Vec<u8>,
}

impl Program {
    fn has_ended(&self) -> bool {
        self.ends && self.questions >= 2
    }

    /// Whether it was ended, which takes two calls.
    fn is_killed(&self) -> bool {
        self.kills >= 2
    }
}

/// Programs in memory.
#[derive(Drop)]
pub struct FakePrograms {
    alloc: Global,
    programs: Vec<Program>,
    pub calls: Calls,
}

/// A command's argument of this number.
fn argument(command: &Command, number: usize) -> &str {
    match command.arguments.get(number) {
        Some(argument) => argument.as_str(),
        None => "",
    }
}

/// What a program writes to standard output: an argument, where it runs, and its variables.
fn output(alloc: Global, place: &Place, command: &Command) -> Result<Vec<u8>, AllocError> {
    let mut text = format!(in alloc; "{} in {}", argument(command, 1), place.directory)?;
    for variable in &command.variables {
        let more = format!(in alloc; " with {}={}", variable.name, variable.value)?;
        text.push_str(more.as_str())?;
    }
    Vec::from_slice(alloc, text.as_bytes())
}

fn started(alloc: Global, place: &Place, command: &Command) -> Result<Program, AllocError> {
    let output = output(alloc, place, command)?;
    let error = Vec::from_slice(alloc, argument(command, 2).as_bytes())?;
    Ok(Program {
        run: place.run,
        ends: argument(command, 0) == "ends",
        questions: 0,
        kills: 0,
        output,
        error,
    })
}

/// The program of a run.
fn find(programs: &[Program], run: RunKey) -> Option<&Program> {
    for program in programs {
        if program.run == run {
            return Some(program);
        }
    }
    None
}

/// The code with which a program ended, if it has.
fn asked(programs: &mut [Program], run: RunKey) -> Option<i32>
    ensures { IfSome result IsInRange }
{
    for program in programs {
        if program.run == run {
            program.questions = program.questions.saturating_add(1);
            if program.has_ended() {
                return Some(0);
            }
        }
    }
    None
}

/// Ends a program. Whether that is done.
fn killed(programs: &mut [Program], run: RunKey) -> bool {
    for program in programs {
        if program.run == run {
            program.kills = program.kills.saturating_add(1);
            return program.is_killed();
        }
    }
    true
}

impl FakePrograms {
    /// None runs.
    pub fn new(alloc: Global, failing: Failing) -> FakePrograms {
        FakePrograms {
            alloc,
            programs: Vec::new(alloc),
            calls: Calls::new(failing),
        }
    }

    /// How many were started, and not both ended and forgotten.
    pub fn left(&self) -> usize {
        self.programs.len()
    }
}

impl Programs for FakePrograms {
    ghost failures = { λ p. p.calls.faults };

    fn start(&mut self, place: &Place, command: &Command) -> io::Result<()> {
        self.calls.next(Deed::Work(place.run))?;
        if let Ok(program) = started(self.alloc, place, command) {
            let _ = self.programs.push(program);
        }
        Ok(())
    }

    fn ask(&mut self, run: RunKey) -> io::Result<Option<i32>> {
        self.calls.next(Deed::Work(run))?;
        Ok(asked(&mut self.programs, run))
    }

    fn look(&mut self, number: usize) -> Option<RunKey> {
        let program = self.programs.get(number)?;
        Some(program.run)
    }

    fn kill(&mut self, run: RunKey) -> io::Result<bool> {
        self.calls.next(Deed::Kill(run))?;
        Ok(killed(&mut self.programs, run))
    }

    fn length(&mut self, run: RunKey) -> io::Result<u64> {
        self.calls.next(Deed::Work(run))?;
        if self.calls.is_too_long(Deed::Work(run)) {
            return Ok(u64::MAX);
        }
        match find(&self.programs, run) {
            Some(program) => Ok(program.output.len() as u64),
            None => Ok(0),
        }
    }

    fn read(&mut self, run: RunKey, stream: Stream, from: u64, most: u32) -> io::Result<Vec<u8>> {
        self.calls.next(Deed::Work(run))?;
        let bytes = match find(&self.programs, run) {
            Some(program) if program.is_killed() => match stream {
                Stream::Output => &program.output,
                Stream::Error => &program.error,
            },
            _ => return Ok(Vec::new(self.alloc)),
        };
        Ok(piece(self.alloc, bytes, from, most))
    }

    fn forget(&mut self, run: RunKey) {
        self.programs
            .retain(|program| program.run != run || !program.is_killed());
    }

    fn last_words(&self, _run: RunKey, most: u32) -> io::Result<Vec<u8>> {
        Ok(piece(self.alloc, LAST_WORDS, 0, most))
    }

    fn faults(&self) -> u64 {
        self.calls.faults
    }
}
