//! Programs with a log of all that was asked of them.

ghost use Rattle.std.specs.Prelude.{◌≡◌, [], Some, IfOk};
ghost use Rattle.run_calls.specs.Calls.{Adds, called, start_asked, started_of, state_of, killed_of, length_of, bytes_of};
ghost use Rattle.logs.specs.LoggedCalls.{program_log, program_question, program_result};
ghost use Rattle.run_calls.specs.Values.{command_shown, place_shown};

use crate::copies::{copied_bytes, copied_command, copied_place};
use run_calls::{Command, Place, Programs, RunKey, Stream};
use std::alloc::{AllocError, Global};
use std::io::{self, ErrorKind};

/// What is asked of programs (`Programs`).
#[derive(Drop)]
pub enum ProgramAsked {
    Start(Place, Command),
    End(RunKey),
    Kill(RunKey),
    Length(RunKey),
    Read(RunKey, Stream, u64, u32),
    Forget(RunKey),
}

/// What programs answer.
#[derive(Drop)]
pub enum ProgramAnswered {
    Done,
    /// The code with which one ended, or that it runs.
    State(Option<i32>),
    Killed(bool),
    Length(u64),
    Bytes(Vec<u8>),
}

/// A call of programs: what was asked, and the answer or the kind of the error.
#[derive(Drop)]
pub struct ProgramRecord {
    pub asked: ProgramAsked,
    pub answered: Result<ProgramAnswered, ErrorKind>,
}

/// Programs with a log of all that was asked of them, and of what they answered. Where memory is
/// refused for it, the log is lost.
#[derive(Drop)]
pub struct LoggedPrograms<P> {
    pub programs: P,
    pub log: Option<Vec<ProgramRecord>>,
    alloc: Global,
}

/// Puts one more call into a log.
fn add(
    log: &mut Option<Vec<ProgramRecord>>,
    asked: ProgramAsked,
    answered: Result<ProgramAnswered, ErrorKind>,
)
    ensures { Adds (program_log log.old) (program_log log.new)
        (called (program_question asked) (program_result answered)) }
{
    if let Some(records) = log {
        if records.push(ProgramRecord { asked, answered }).is_ok() {
            return;
        }
    }
    *log = None;
}

fn start(alloc: Global, place: &Place, command: &Command) -> Result<ProgramAsked, AllocError>
    ensures { IfOk result (λ asked. program_question asked
        ≡ start_asked (place_shown place.now) (command_shown command.now)) }
{
    let place = copied_place(alloc, place)?;
    let command = copied_command(alloc, command)?;
    Ok(ProgramAsked::Start(place, command))
}

fn start_answer(answer: &io::Result<()>) -> Result<ProgramAnswered, ErrorKind>
    ensures { program_result result ≡ started_of answer.now }
{
    match answer {
        Ok(()) => Ok(ProgramAnswered::Done),
        Err(error) => Err(error.kind()),
    }
}

fn state_answer(answer: &io::Result<Option<i32>>) -> Result<ProgramAnswered, ErrorKind>
    ensures { program_result result ≡ state_of answer.now }
{
    match answer {
        Ok(code) => Ok(ProgramAnswered::State(*code)),
        Err(error) => Err(error.kind()),
    }
}

fn kill_answer(answer: &io::Result<bool>) -> Result<ProgramAnswered, ErrorKind>
    ensures { program_result result ≡ killed_of answer.now }
{
    match answer {
        Ok(is_killed) => Ok(ProgramAnswered::Killed(*is_killed)),
        Err(error) => Err(error.kind()),
    }
}

fn length_answer(answer: &io::Result<u64>) -> Result<ProgramAnswered, ErrorKind>
    ensures { program_result result ≡ length_of answer.now }
{
    match answer {
        Ok(count) => Ok(ProgramAnswered::Length(*count)),
        Err(error) => Err(error.kind()),
    }
}

fn bytes_answer(
    alloc: Global,
    answer: &io::Result<Vec<u8>>,
) -> Result<Result<ProgramAnswered, ErrorKind>, AllocError>
    ensures { IfOk result (λ answered. program_result answered ≡ bytes_of answer.now) }
{
    match answer {
        Ok(bytes) => {
            let bytes = copied_bytes(alloc, bytes)?;
            Ok(Ok(ProgramAnswered::Bytes(bytes)))
        }
        Err(error) => Ok(Err(error.kind())),
    }
}

impl<P: Programs> LoggedPrograms<P> {
    /// Programs of which nothing was asked yet.
    pub fn new(alloc: Global, programs: P) -> LoggedPrograms<P>
        ensures { program_log result.log ≡ Some [] }
    {
        LoggedPrograms {
            programs,
            log: Some(Vec::new(alloc)),
            alloc,
        }
    }
}

impl<P: Programs> Programs for LoggedPrograms<P> {
    ghost use Rattle.logs.specs.LoggedCalls.{program_log};

    ghost asked = { λ p. program_log p.log };

    ghost failures = { λ p. P.failures p.programs };

    fn start(&mut self, place: &Place, command: &Command) -> io::Result<()> {
        let answer = self.programs.start(place, command);
        match start(self.alloc, place, command) {
            Ok(asked) => add(&mut self.log, asked, start_answer(&answer)),
            Err(_) => self.log = None,
        }
        answer
    }

    fn ask(&mut self, run: RunKey) -> io::Result<Option<i32>> {
        let answer = self.programs.ask(run);
        add(&mut self.log, ProgramAsked::End(run), state_answer(&answer));
        answer
    }

    fn look(&mut self, number: usize) -> Option<RunKey> {
        self.programs.look(number)
    }

    fn kill(&mut self, run: RunKey) -> io::Result<bool> {
        let answer = self.programs.kill(run);
        add(&mut self.log, ProgramAsked::Kill(run), kill_answer(&answer));
        answer
    }

    fn length(&mut self, run: RunKey) -> io::Result<u64> {
        let answer = self.programs.length(run);
        add(
            &mut self.log,
            ProgramAsked::Length(run),
            length_answer(&answer),
        );
        answer
    }

    fn read(&mut self, run: RunKey, stream: Stream, from: u64, most: u32) -> io::Result<Vec<u8>> {
        let answer = self.programs.read(run, stream, from, most);
        match bytes_answer(self.alloc, &answer) {
            Ok(answered) => {
                add(
                    &mut self.log,
                    ProgramAsked::Read(run, stream, from, most),
                    answered,
                );
            }
            Err(_) => self.log = None,
        }
        answer
    }

    fn forget(&mut self, run: RunKey) {
        self.programs.forget(run);
        add(
            &mut self.log,
            ProgramAsked::Forget(run),
            Ok(ProgramAnswered::Done),
        );
    }

    fn last_words(&self, run: RunKey, most: u32) -> io::Result<Vec<u8>> {
        self.programs.last_words(run, most)
    }

    fn faults(&self) -> u64 {
        self.programs.faults()
    }
}
