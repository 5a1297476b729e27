//! Runs whose jobs an operator may end, whose outputs are looked at, and of whose faults it is
//! known why they came.

ghost use Rattle.std.specs.Prelude.{◌≡◌, ◌≤◌, ◌<◌, ◌⊎◌, ◌+◌, ◌++◌, ◌∷◌, ◌||◌, [], true, false, Some, None, Ok, length, nat_lt, slice_get, vec_capacity, vec_len, IfOk, IfSome};
ghost use Rattle.std.specs.List.{list_any};
ghost use Rattle.std.specs.Option.{is_some, option_map};
ghost use Rattle.runner.specs.Runs.{can_go_on};
ghost use Rattle.runner.specs.declared.stage.Run.{Run};
ghost use Rattle.server_core.specs.Lent.{lent_shown};
ghost use Rattle.execution.specs.Orders.{kill, start};
ghost use Rattle.run_calls.specs.Calls.{Adds};
ghost use Rattle.serve.specs.RunEvents.{AddsRuns, CarriesRuns, WasBegun, asked_events, faults_of, ordered};
ghost use Rattle.job_runs.specs.Running.{Carry};
ghost use Rattle.run_calls.specs.declared.task.RunKey.{RunKey};
ghost use Rattle.job_runs.specs.Spans.{IsAmong};
ghost use Rattle.job_runs.specs.Keys.{AreOnce, IsToBegin, all_keys, asked_keys, count_of, has_key, next_in, turn_in, without_key};
ghost use Rattle.job_runs.specs.Runs.{AreKilled, IsEnded};
ghost use Rattle.job_runs.specs.Operated.{IsAskedOrFailed};
ghost use Rattle.job_runs.specs.OutputRules.{IsJudged, IsRefusal};

use crate::ended::EndedJobs;
use crate::job_runner::JobRunner;
use crate::output_rules::{OutputRule, breaking_path, broken_rule, found_as};
use crate::reasons::{Met, reason_of, tell_output};
use crate::run_counts::RunCounts;
use run_calls::{Folder, Outcome, Output, Programs, RunKey};
use runner::RunFault;
use serve::{Doing, ErrorLines, Runs};
use server_core::LentTask;
use server_events::Configs;
use std::alloc::{AllocError, Global};
use std::cell::{Cell, RefCell};
use std::io::{self, Write};

/// How much is told at most of what a launcher said.
const MOST_SAID: u32 = 200;

/// What an operator shares with runs.
#[derive(Drop)]
pub struct Oversight {
    /// The jobs that the operator ends.
    pub ended: EndedJobs,
    /// What befell runs.
    pub counts: RunCounts,
    /// Why the call of folders or programs failed that did last, which these note.
    pub failure: Cell<Option<io::Error>>,
    /// The path of the output at which the call of folders failed that did last, which these note.
    pub failed_at: RefCell<Vec<u8>>,
    /// What is told of the output that broke a rule, where one did since a run was asked last.
    output: RefCell<Vec<u8>>,
}

impl Oversight {
    /// Nothing yet, of these instances.
    pub fn new(alloc: Global, configs: &Configs) -> Result<Oversight, AllocError> {
        Ok(Oversight {
            ended: EndedJobs::new(alloc, configs.instances().len())?,
            counts: RunCounts::new(alloc, configs)?,
            failure: Cell::new(None),
            failed_at: RefCell::new(Vec::new(alloc)),
            output: RefCell::new(Vec::new(alloc)),
        })
    }

    /// A run is asked: nothing is known of why it fails.
    fn begin(&self) {
        self.failure.set(None);
        for noted in [&self.failed_at, &self.output] {
            if let Ok(mut noted) = noted.try_borrow_mut() {
                noted.clear();
            }
        }
    }

    /// What is told of the output at which a run failed, where it did at one.
    fn output_of(&self, alloc: Global, fault: RunFault) -> Vec<u8> {
        let mut told = Vec::new(alloc);
        if let Ok(output) = self.output.try_borrow() {
            let _ = told.extend_from_slice(&output);
        }
        if let (RunFault::Folder, true, Ok(path)) = (
            fault,
            told.is_empty(),
            self.failed_at.try_borrow(),
        ) {
            if !path.is_empty() {
                let _ = tell_output(&mut told, &path, b"");
            }
        }
        told
    }

    /// Notes that outputs break a rule, and by which one they do, where memory is there for that.
    fn note_broken(&self, alloc: Global, task: LentTask<'_>, outputs: &[Output], rule: OutputRule) {
        self.failure.set(Some(rule.error()));
        let Ok(Some(path)) = breaking_path(alloc, task, outputs, rule) else {
            return;
        };
        let found = found_as(outputs, path, rule);
        if let Ok(mut output) = self.output.try_borrow_mut() {
            let _ = tell_output(&mut output, path.as_bytes(), found.as_bytes());
        }
    }
}

/// Runs whose jobs an operator may end: one that is to be ended is told as failed as soon as it is
/// asked, whether its run was begun or not, and its run is killed. An outcome whose outputs break a
/// rule is told as a fault of folders.
#[derive(Drop)]
pub struct OperatedRuns<'a, F: Folder + Drop, P: Programs + Drop> {
    alloc: Global,
    runs: JobRunner<F, P>,
    oversight: &'a Oversight,
}

impl<'a, F: Folder + Drop, P: Programs + Drop> OperatedRuns<'a, F, P> {
    /// These runs, with what an operator shares with them.
    pub fn new(
        alloc: Global,
        runs: JobRunner<F, P>,
        oversight: &'a Oversight,
    ) -> OperatedRuns<'a, F, P>
        ensures { result.runs ≡ runs }
    {
        OperatedRuns {
            alloc,
            runs,
            oversight,
        }
    }

    /// Ends what runs, by a bounded piece of work for each run, and says how many are left: it is
    /// to be called until none is. A folder that is left then is a line. What was to begin does
    /// not.
    pub fn end_all<E: Write>(
        &mut self,
        configs: &Configs,
        moment: u64,
        errors: &mut ErrorLines<E>,
    ) -> usize
        ensures killed { AreKilled configs.now moment (vec_len self.old.runs.runner.runs)
            (record {
              runs = self.old.runs.runner.runs.items;
              folders = F.asked self.old.runs.runner.folder;
              programs = P.asked self.old.runs.runner.programs;
              text = E.contents errors.old.output;
              backlog = errors.old.backlog;
            })
            (record {
              runs = self.new.runs.runner.runs.items;
              folders = F.asked self.new.runs.runner.folder;
              programs = P.asked self.new.runs.runner.programs;
              text = E.contents errors.new.output;
              backlog = errors.new.backlog;
            }) }
        ensures to_begin { self.new.runs.to_begin.items ≡ [] }
        ensures together { self.new.runs.together ≡ None }
        ensures left { result ≡ vec_len self.new.runs.runner.runs }
    {
        self.runs.end_all(configs, moment, errors)
    }

    /// What is told of a run that answered so, as a fault where its outputs break a rule. Faults
    /// are counted, and what gives more than the quota holds.
    fn judged(
        &self,
        run: RunKey,
        task: Option<LentTask<'_>>,
        answer: Result<Option<Outcome>, RunFault>,
    ) -> Result<Option<Outcome>, RunFault>
        ensures { IsJudged (option_map lent_shown task.entry) answer result }
    {
        if let Some(fault) = self.refusal(task, &answer) {
            self.oversight.counts.add_fault(run, fault);
            return Err(fault);
        }
        match &answer {
            Err(fault) => self.oversight.counts.add_fault(run, *fault),
            Ok(Some(Outcome::Exited(exited))) => self.oversight.counts.add_exited(run, exited),
            Ok(Some(Outcome::Failed) | None) => {}
        }
        answer
    }

    /// The fault that is told in the place of an outcome whose outputs break a rule, which is
    /// noted.
    fn refusal(
        &self,
        task: Option<LentTask<'_>>,
        answer: &Result<Option<Outcome>, RunFault>,
    ) -> Option<RunFault>
        ensures { IsRefusal (option_map lent_shown task.entry) answer.now result }
    {
        let Some(task) = task else {
            return None;
        };
        let Ok(Some(Outcome::Exited(exited))) = answer else {
            return None;
        };
        match broken_rule(self.alloc, task, &exited.outputs) {
            Ok(None) => None,
            Ok(Some(rule)) => {
                self.oversight
                    .note_broken(self.alloc, task, &exited.outputs, rule);
                Some(RunFault::Folder)
            }
            Err(_) => Some(RunFault::NoMemory),
        }
    }
}

impl<'a, F: Folder + Drop, P: Programs + Drop> Runs for OperatedRuns<'a, F, P> {
    ghost use Rattle.job_runs.specs.Running.{Carry};

    ghost carries = { λ r h. Carry r.runs.runner.runs.items r.runs.to_begin.items
        (F.asked r.runs.runner.folder) (P.asked r.runs.runner.programs) h };

    fn start(&mut self, run: RunKey, task: LentTask<'_>)
        ensures carries { CarriesRuns
            (Carry self.old.runs.runner.runs.items self.old.runs.to_begin.items
            (F.asked self.old.runs.runner.folder) (P.asked self.old.runs.runner.programs))
            (Carry self.new.runs.runner.runs.items self.new.runs.to_begin.items
            (F.asked self.new.runs.runner.folder) (P.asked self.new.runs.runner.programs))
            (ordered run.instance (start run.job (lent_shown task.entry)) ∷ []) }
        ensures adds { AddsRuns None None
            (ordered run.instance (start run.job (lent_shown task.entry)) ∷ []) }
        ensures noted { IsToBegin run self.new.runs.to_begin.items self.new.runs.together }
        ensures others { (key : RunKey)
            → IsToBegin key self.old.runs.to_begin.items self.old.runs.together
            → IsToBegin key self.new.runs.to_begin.items self.new.runs.together }
        ensures runner { self.new.runs.runner ≡ self.old.runs.runner }
        ensures once { has_key run
            (all_keys self.old.runs.runner.runs.items self.old.runs.to_begin.items) ≡ false
            → AreOnce (all_keys self.old.runs.runner.runs.items self.old.runs.to_begin.items)
            → AreOnce (all_keys self.new.runs.runner.runs.items self.new.runs.to_begin.items) }
    {
        self.runs.start(run, task);
    }

    fn kill(&mut self, run: RunKey)
        ensures carries { CarriesRuns
            (Carry self.old.runs.runner.runs.items self.old.runs.to_begin.items
            (F.asked self.old.runs.runner.folder) (P.asked self.old.runs.runner.programs))
            (Carry self.new.runs.runner.runs.items self.new.runs.to_begin.items
            (F.asked self.new.runs.runner.folder) (P.asked self.new.runs.runner.programs))
            (ordered run.instance (kill run.job) ∷ []) }
        ensures adds { AddsRuns None None (ordered run.instance (kill run.job) ∷ []) }
        ensures noted { has_key run self.old.runs.to_begin.items ≡ true →
            self.new.runs.runner ≡ self.old.runs.runner }
        ensures killed { has_key run self.old.runs.to_begin.items ≡ false → IsEnded run
            self.old.runs.runner.runs.items self.new.runs.runner.runs.items
            (F.asked self.old.runs.runner.folder) (F.asked self.new.runs.runner.folder)
            (P.asked self.old.runs.runner.programs) (P.asked self.new.runs.runner.programs) }
        ensures to_begin { self.new.runs.to_begin.items
            ≡ without_key run self.old.runs.to_begin.items }
        ensures together { self.new.runs.together ≡ self.old.runs.together }
        ensures once { AreOnce
            (all_keys self.old.runs.runner.runs.items self.old.runs.to_begin.items)
            → AreOnce (all_keys self.new.runs.runner.runs.items self.new.runs.to_begin.items) }
    {
        let _was_to_end = self.oversight.ended.take(run);
        self.runs.kill(run);
    }

    fn count(&self) -> usize
        ensures { result ≡ count_of (asked_keys self.now.runs.runner.runs.items
            self.now.runs.to_begin.items self.now.runs.together) }
    {
        self.runs.count()
    }

    fn next(&mut self) -> Option<RunKey>
        ensures carries { CarriesRuns
            (Carry self.old.runs.runner.runs.items self.old.runs.to_begin.items
            (F.asked self.old.runs.runner.folder) (P.asked self.old.runs.runner.programs))
            (Carry self.new.runs.runner.runs.items self.new.runs.to_begin.items
            (F.asked self.new.runs.runner.folder) (P.asked self.new.runs.runner.programs))
            ([]) }
        ensures begun { IfSome result (λ key. WasBegun key None) }
        ensures adds { AddsRuns None None [] }
        ensures key { let keys = asked_keys self.old.runs.runner.runs.items
            self.old.runs.to_begin.items self.old.runs.together in
            result ≡ slice_get keys (turn_in (count_of keys) self.old.runs.next) }
        ensures runner { self.new.runs.runner ≡ self.old.runs.runner }
        ensures to_begin { self.new.runs.to_begin ≡ self.old.runs.to_begin }
        ensures together { (key : RunKey) → IsAmong key self.old.runs.together
            → (result ≡ Some key) ⊎ IsAmong key self.new.runs.together }
    {
        self.runs.next()
    }

    fn ask(&mut self, run: RunKey, task: Option<LentTask<'_>>) -> Result<Option<Outcome>, RunFault>
        ensures carries { CarriesRuns
            (Carry self.old.runs.runner.runs.items self.old.runs.to_begin.items
            (F.asked self.old.runs.runner.folder) (P.asked self.old.runs.runner.programs))
            (Carry self.new.runs.runner.runs.items self.new.runs.to_begin.items
            (F.asked self.new.runs.runner.folder) (P.asked self.new.runs.runner.programs))
            (asked_events run task.entry result) }
        ensures adds { AddsRuns None None (asked_events run task.entry result) }
        ensures fault { Adds None None (faults_of run result) }
        ensures asked { IsAskedOrFailed (option_map lent_shown task.entry) run result
            (record {
              runs = self.old.runs.runner.runs.items;
              to_begin = self.old.runs.to_begin.items;
              folders = F.asked self.old.runs.runner.folder;
              programs = P.asked self.old.runs.runner.programs;
            })
            (record {
              runs = self.new.runs.runner.runs.items;
              to_begin = self.new.runs.to_begin.items;
              folders = F.asked self.new.runs.runner.folder;
              programs = P.asked self.new.runs.runner.programs;
            }) }
        ensures to_begin { self.new.runs.to_begin.items
            ≡ without_key run self.old.runs.to_begin.items }
        ensures together { self.new.runs.together ≡ self.old.runs.together }
        ensures once { AreOnce
            (all_keys self.old.runs.runner.runs.items self.old.runs.to_begin.items)
            → AreOnce (all_keys self.new.runs.runner.runs.items self.new.runs.to_begin.items) }
    {
        let is_ended = self.oversight.ended.take(run);
        self.oversight.begin();
        if is_ended && task.is_some() {
            self.oversight.counts.add_ended(run);
            self.runs.kill(run);
            return Ok(Some(Outcome::Failed));
        }
        let answer = self.runs.ask(run, task);
        self.judged(run, task, answer)
    }

    /// One whose job an operator ends can go on at once.
    fn next_doing(&self) -> Doing {
        match self.runs.coming() {
            Some(run) if self.oversight.ended.has(run) => Doing::Goes,
            _ => self.runs.next_doing(),
        }
    }

    /// None, while a job is to be ended.
    fn pass(&mut self) -> usize
        ensures carries { CarriesRuns
            (Carry self.old.runs.runner.runs.items self.old.runs.to_begin.items
            (F.asked self.old.runs.runner.folder) (P.asked self.old.runs.runner.programs))
            (Carry self.new.runs.runner.runs.items self.new.runs.to_begin.items
            (F.asked self.new.runs.runner.folder) (P.asked self.new.runs.runner.programs))
            ([]) }
        ensures adds { AddsRuns None None [] }
        ensures runner { self.new.runs.runner ≡ self.old.runs.runner }
        ensures to_begin { self.new.runs.to_begin ≡ self.old.runs.to_begin }
        ensures together { self.new.runs.together ≡ self.old.runs.together }
    {
        if self.oversight.ended.is_empty() {
            self.runs.pass()
        } else {
            0
        }
    }

    fn look(&mut self, number: usize) -> Option<RunKey>
        ensures carries { CarriesRuns
            (Carry self.old.runs.runner.runs.items self.old.runs.to_begin.items
            (F.asked self.old.runs.runner.folder) (P.asked self.old.runs.runner.programs))
            (Carry self.new.runs.runner.runs.items self.new.runs.to_begin.items
            (F.asked self.new.runs.runner.folder) (P.asked self.new.runs.runner.programs))
            ([]) }
        ensures begun { IfSome result (λ key. WasBegun key None) }
        ensures adds { AddsRuns None None [] }
    {
        self.runs.look(number)
    }

    fn reason(
        &self,
        run: RunKey,
        task: Option<LentTask<'_>>,
        fault: RunFault,
        most: u32,
    ) -> io::Result<Vec<u8>> {
        let failure = self.oversight.failure.get();
        let said = match self.runs.reason(run, task, fault, most.min(MOST_SAID)) {
            Ok(said) => said,
            Err(_) => Vec::new(self.alloc),
        };
        let output = self.oversight.output_of(self.alloc, fault);
        let met = Met {
            said: &said,
            failure,
            output: &output,
        };
        reason_of(self.alloc, met, task, fault, most)
    }

    fn is_busy(&self) -> bool
        ensures { result ≡
            (list_any (λ (run : Run). can_go_on run.state) self.now.runs.runner.runs.items
            || (nat_lt 0 (length self.now.runs.to_begin.items) || is_some self.now.runs.together)) }
    {
        self.runs.is_busy()
    }
}
