//! Runs that keep a log of what happened at them.

ghost use Rattle.std.specs.Prelude.{◌≡◌, ◌⊎◌, [], ◌∷◌, List, None, Some, Err, IfOk, IfSome, IsTrue};
ghost use Rattle.std.specs.Option.{option_map};
ghost use Rattle.execution.specs.Job.{TaskValue};
ghost use Rattle.execution.specs.Orders.{kill, start};
ghost use Rattle.server_core.specs.Lent.{lent_shown};
ghost use Rattle.runner.specs.declared.fault.RunFault.TheVariants.{NoMemory};
ghost use Rattle.run_calls.specs.Calls.{Adds};
ghost use Rattle.logs.specs.LoggedSockets.{IsKept};
ghost use Rattle.logs.specs.LoggedRuns.{faults_logged, run_event, run_events, runs_logged, task_copied};
ghost use Rattle.serve.specs.RunEvents.{AddsRuns, IsBegun, WasBegun, RunEvent, asked_events, faults_of, lent, ordered, outcome_events};

use crate::run_copies::{TaskCopy, copied_task, two_outcomes};
use run_calls::{Outcome, RunKey};
use runner::RunFault;
use serve::{Doing, Runs};
use server_core::LentTask;
use std::alloc::{AllocError, Global};
use std::io;

/// What happened at runs.
#[derive(Drop)]
pub enum RunRecord {
    Begun(RunKey, TaskCopy),
    Killed(RunKey),
    /// A run was asked, and lent its task, if it had one.
    Asked(RunKey, Option<TaskCopy>),
    Gave(RunKey, Outcome),
}

/// Runs with a log of all that happened at them, and one of the faults that were answered. Where
/// memory is refused for one, that log is lost. A run whose outcome was to be logged then has the
/// fault that memory was refused, as its outcome is used up where it is read.
#[derive(Drop)]
pub struct LoggedRuns<R: Runs> {
    pub runs: R,
    pub log: Option<Vec<RunRecord>>,
    pub faults: Option<Vec<(RunKey, RunFault)>>,
    ghost carried: { (h : List RunEvent) → runs_logged log ≡ Some h → ∥ R.carries runs h ∥₁ },
    alloc: Global,
}

/// Puts one more record into a log.
fn add(log: &mut Option<Vec<RunRecord>>, entry: RunRecord)
    ensures adds { AddsRuns (runs_logged log.old) (runs_logged log.new) (run_event entry ∷ []) }
    ensures kept { IsKept log.old log.new }
{
    if let Some(records) = log {
        if records.push(entry).is_ok() {
            return;
        }
    }
    *log = None;
}

/// Whether a record says that a run was begun.
fn begins(entry: &RunRecord, run: RunKey) -> bool
    ensures { IsTrue result → (task : TaskValue)
        × (run_event entry.now ≡ ordered run.instance (start run.job task)) }
{
    match entry {
        RunRecord::Begun(begun, _) => *begun == run,
        RunRecord::Killed(_) => false,
        RunRecord::Asked(_, _) => false,
        RunRecord::Gave(_, _) => false,
    }
}

/// Whether a log says that a run was begun.
fn has_begun(records: &[RunRecord], run: RunKey) -> bool
    ensures { IsTrue result → IsBegun run (run_events records.now) }
{
    let mut left = records;
    while let [first, rest @ ..] = left {
        if begins(first, run) {
            return true;
        }
        left = rest;
    }
    false
}

/// The run, unless a log says that it was not begun.
fn begun_by(log: &Option<Vec<RunRecord>>, run: RunKey) -> Option<RunKey>
    ensures { IfSome result (λ begun. WasBegun begun (runs_logged log.now)) }
{
    match log {
        Some(records) => {
            if has_begun(records, run) {
                Some(run)
            } else {
                None
            }
        }
        None => Some(run),
    }
}

/// What is lent with a question, if anything.
fn copied_lent(alloc: Global, task: Option<LentTask<'_>>) -> Result<Option<TaskCopy>, AllocError>
    ensures { IfOk result (λ copy. option_map task_copied copy ≡ option_map lent_shown task.entry) }
{
    match task {
        Some(lent) => {
            let copy = copied_task(alloc, lent)?;
            Ok(Some(copy))
        }
        None => Ok(None),
    }
}

/// Puts what a run answered into a log of faults, if it is one.
fn add_fault(
    faults: &mut Option<Vec<(RunKey, RunFault)>>,
    run: RunKey,
    answer: &Result<Option<Outcome>, RunFault>,
)
    ensures adds { Adds (faults_logged faults.old) (faults_logged faults.new)
        (faults_of run answer.now) }
    ensures kept { IsKept faults.old faults.new }
{
    let Err(fault) = answer else {
        return;
    };
    if let Some(answered) = faults {
        if answered.push((run, *fault)).is_ok() {
            return;
        }
    }
    *faults = None;
}

/// Puts what came of a question into a log. What the run gave is answered, from its copy.
fn log_answer(
    alloc: Global,
    log: &mut Option<Vec<RunRecord>>,
    run: RunKey,
    answer: Result<Option<Outcome>, RunFault>,
) -> Result<Option<Outcome>, RunFault>
    ensures adds { AddsRuns (runs_logged log.old) (runs_logged log.new)
        (outcome_events run result) }
    ensures told { (runs_logged log.new ≡ None) ⊎ (outcome_events run result
        ≡ outcome_events run answer) }
    ensures refused { (result ≡ Err NoMemory) ⊎ (outcome_events run result
        ≡ outcome_events run answer) }
{
    if log.is_none() {
        return answer;
    }
    match answer {
        Ok(None) => Ok(None),
        Ok(Some(outcome)) => match two_outcomes(alloc, outcome) {
            Ok((told, logged)) => {
                add(log, RunRecord::Gave(run, logged));
                Ok(Some(told))
            }
            Err(_) => {
                *log = None;
                Err(RunFault::NoMemory)
            }
        },
        Err(RunFault::Left) => Err(RunFault::Left),
        Err(fault) => {
            add(log, RunRecord::Gave(run, Outcome::Failed));
            Err(fault)
        }
    }
}

impl<R: Runs> LoggedRuns<R> {
    /// Runs at which nothing has happened yet.
    pub fn new(alloc: Global, runs: R) -> LoggedRuns<R>
        requires new { R.carries runs [] }
        ensures log { runs_logged result.log ≡ Some [] }
        ensures faults { faults_logged result.faults ≡ Some [] }
    {
        LoggedRuns {
            runs,
            log: Some(Vec::new(alloc)),
            faults: Some(Vec::new(alloc)),
            alloc,
        }
    }

    /// The runs, without their logs.
    pub fn into_runs(self) -> R
        ensures { result ≡ self.runs }
    {
        let LoggedRuns {
            runs,
            log,
            faults,
            alloc: _,
        } = self;
        drop(log);
        drop(faults);
        runs
    }
}

impl<R: Runs> Runs for LoggedRuns<R> {
    ghost use Rattle.logs.specs.LoggedRuns.{faults_logged, runs_logged};

    ghost happened = { λ r. runs_logged r.log };

    ghost faulted = { λ r. faults_logged r.faults };

    fn start(&mut self, run: RunKey, task: LentTask<'_>) {
        match copied_task(self.alloc, task) {
            Ok(copy) => add(&mut self.log, RunRecord::Begun(run, copy)),
            Err(_) => self.log = None,
        }
        self.runs.start(run, task);
    }

    fn kill(&mut self, run: RunKey)
        ensures adds { AddsRuns (runs_logged self.old.log) (runs_logged self.new.log)
            (ordered run.instance (kill run.job) ∷ []) }
        ensures no_fault { self.new.faults ≡ self.old.faults }
        ensures kept { IsKept self.old.log self.new.log }
    {
        add(&mut self.log, RunRecord::Killed(run));
        self.runs.kill(run);
    }

    fn count(&self) -> usize {
        self.runs.count()
    }

    /// The run whose turn it is. None is where, by the log, that run was not begun.
    fn next(&mut self) -> Option<RunKey> {
        let run = self.runs.next()?;
        begun_by(&self.log, run)
    }

    fn ask(&mut self, run: RunKey, task: Option<LentTask<'_>>) -> Result<Option<Outcome>, RunFault>
        ensures adds { AddsRuns (runs_logged self.old.log) (runs_logged self.new.log)
            (asked_events run task.entry result) }
        ensures fault { Adds (faults_logged self.old.faults) (faults_logged self.new.faults)
            (faults_of run result) }
        ensures kept { IsKept self.old.faults self.new.faults }
    {
        match copied_lent(self.alloc, task) {
            Ok(copy) => add(&mut self.log, RunRecord::Asked(run, copy)),
            Err(_) => self.log = None,
        }
        let answer = self.runs.ask(run, task);
        let answer = log_answer(self.alloc, &mut self.log, run, answer);
        add_fault(&mut self.faults, run, &answer);
        answer
    }

    fn next_doing(&self) -> Doing {
        self.runs.next_doing()
    }

    fn pass(&mut self) -> usize {
        self.runs.pass()
    }

    /// None is where, by the log, that run was not begun.
    fn look(&mut self, number: usize) -> Option<RunKey> {
        let run = self.runs.look(number)?;
        begun_by(&self.log, run)
    }

    fn reason(
        &self,
        run: RunKey,
        task: Option<LentTask<'_>>,
        fault: RunFault,
        most: u32,
    ) -> io::Result<Vec<u8>> {
        self.runs.reason(run, task, fault, most)
    }

    fn is_busy(&self) -> bool {
        self.runs.is_busy()
    }
}
