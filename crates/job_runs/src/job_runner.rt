//! Runs that a runner carries out.

ghost use Rattle.std.specs.Prelude.{◌≡◌, ◌≤◌, ◌<◌, ◌⊎◌, ◌+◌, ◌++◌, ◌∷◌, ◌||◌, ℕ, [], true, false, Some, None, Ok, OnOk, OnErr, IfOk, IfSome, length, nat_lt, slice_get, vec_capacity, vec_len};
ghost use Rattle.std.specs.List.{list_any};
ghost use Rattle.std.specs.Option.{is_some, option_map};
ghost use Rattle.runner.specs.Faults.{Counted};
ghost use Rattle.runner.specs.Runs.{HasNone, IsAsked, IsOver, can_go_on, is_run_of, runs_at};
ghost use Rattle.runner.specs.declared.stage.Run.{Run};
ghost use Rattle.job_runs.specs.Texts.{numbered_text};
ghost use Rattle.server_core.specs.Lent.{lent_shown};
ghost use Rattle.run_calls.specs.declared.task.RunKey.{RunKey};
ghost use Rattle.job_runs.specs.Spans.{IsAmong};
ghost use Rattle.job_runs.specs.Keys.{AreOnce, IsToBegin, all_keys, asked_keys, count_of, has_key, is_key, next_in, turn_in, without_key};
ghost use Rattle.execution.specs.Orders.{kill, start};
ghost use Rattle.serve.specs.RunEvents.{CarriesRuns, asked_events, ordered};
ghost use Rattle.job_runs.specs.Running.{Carry};
ghost use Rattle.job_runs.specs.Runs.{AreKilled, IsAnsweredFor, IsBegunIf, IsEnded, IsKilledAt, IsOnlyEnded};

use crate::beginning::begin;
use crate::lent::LentTexts;
use crate::span::{Span, span_with};
use run_calls::{Folder, Outcome, Programs, RunKey};
use runner::{RunFault, Runner};
use serve::{Doing, ErrorLines, Runs};
use server_core::LentTask;
use server_events::Configs;
use std::alloc::{AllocError, Global};
use std::io::{self, Write};

/// The runs of a server's jobs, in folders and by programs.
#[derive(Drop)]
pub struct JobRunner<F: Folder + Drop, P: Programs + Drop> {
    alloc: Global,
    runner: Runner<F, P>,
    /// Jobs whose run was ordered, and is begun when it is asked for the first time.
    to_begin: Vec<RunKey>,
    /// More of them, which there was no room to note one by one.
    together: Option<Span>,
    /// The place of the run that is to be asked next.
    next: usize,
}

impl<F: Folder + Drop, P: Programs + Drop> JobRunner<F, P> {
    /// No runs. So many jobs whose run is to begin are noted one by one. Of more it is only noted
    /// between which instances and jobs they lie, so that each job that is between these is asked.
    pub fn new(
        alloc: Global,
        folder: F,
        programs: P,
        most: usize,
    ) -> Result<JobRunner<F, P>, AllocError>
        ensures folder { IfOk result (λ r. r.runner.folder ≡ folder) }
        ensures programs { IfOk result (λ r. r.runner.programs ≡ programs) }
        ensures runs { IfOk result (λ r. r.runner.runs.items ≡ []) }
        ensures to_begin { IfOk result (λ r. r.to_begin.items ≡ []) }
        ensures together { IfOk result (λ r. r.together ≡ None) }
        ensures room { IfOk result (λ r. most ≤ vec_capacity r.to_begin) }
        ensures carries { IfSome (F.asked folder) (λ h. h ≡ []) → IfSome (P.asked programs)
            (λ h. h ≡ []) → IfOk result (λ r. Carry r.runner.runs.items r.to_begin.items
            (F.asked r.runner.folder) (P.asked r.runner.programs) []) }
    {
        Ok(JobRunner {
            alloc,
            runner: Runner::new(alloc, folder, programs),
            to_begin: Vec::with_capacity(alloc, most)?,
            together: None,
            next: 0,
        })
    }

    /// The runner, with its folders and programs.
    pub fn runner(&self) -> &Runner<F, P>
        ensures { result.now ≡ self.now.runner }
    {
        &self.runner
    }

    /// Ends what runs, by a bounded piece of work for each run, and says how many are left: it is
    /// to be called until none is. A folder that is left then is a line. What was to begin does
    /// not.
    pub fn end_all<E: Write>(
        &mut self,
        configs: &Configs,
        moment: u64,
        errors: &mut ErrorLines<E>,
    ) -> usize
        ensures killed { AreKilled configs.now moment (vec_len self.old.runner.runs)
            (record {
              runs = self.old.runner.runs.items;
              folders = F.asked self.old.runner.folder;
              programs = P.asked self.old.runner.programs;
              text = E.contents errors.old.output;
              backlog = errors.old.backlog;
            })
            (record {
              runs = self.new.runner.runs.items;
              folders = F.asked self.new.runner.folder;
              programs = P.asked self.new.runner.programs;
              text = E.contents errors.new.output;
              backlog = errors.new.backlog;
            }) }
        ensures to_begin { self.new.to_begin.items ≡ [] }
        ensures together { self.new.together ≡ None }
        ensures left { result ≡ vec_len self.new.runner.runs }
    {
        self.to_begin.clear();
        self.together = None;
        kill_each(&mut self.runner, configs, moment, errors);
        self.runner.count()
    }

    /// The place of the run that comes next.
    fn place(&self) -> usize
        ensures { result ≡ turn_in (count_of (asked_keys self.now.runner.runs.items
            self.now.to_begin.items self.now.together)) self.now.next }
    {
        if self.next < self.count() {
            self.next
        } else {
            0
        }
    }

    /// The run that comes next, where it was begun.
    pub(crate) fn coming(&self) -> Option<RunKey> {
        self.runner.run(self.place())
    }

    /// Begins a run that is not there, where its task is lent. There is nothing to tell of it then.
    /// Where none is lent the job that it was noted for does not run any more.
    fn begin_lent(
        &mut self,
        run: RunKey,
        task: Option<LentTask<'_>>,
    ) -> Result<Option<Outcome>, RunFault>
        ensures begun { IsBegunIf (option_map lent_shown task.entry) run result
            self.old.runner.runs.items self.new.runner.runs.items }
        ensures asked { F.asked self.new.runner.folder ≡ F.asked self.old.runner.folder }
        ensures failures { F.failures self.new.runner.folder
            ≡ F.failures self.old.runner.folder }
        ensures programs { self.new.runner.programs ≡ self.old.runner.programs }
        ensures to_begin { self.new.to_begin ≡ self.old.to_begin }
        ensures together { self.new.together ≡ self.old.together }
        ensures next { self.new.next ≡ self.old.next }
    {
        if let Some(task) = task {
            begin(self.alloc, &mut self.runner, run, task)?;
        }
        Ok(None)
    }

    /// Asks a run to which this task is lent.
    fn ask_run(&mut self, run: RunKey, task: LentTask<'_>) -> Result<Option<Outcome>, RunFault>
        ensures answered { IsAsked (numbered_text (lent_shown task.entry).texts) run result
            self.old.runner.runs.items self.new.runner.runs.items
            (F.asked self.old.runner.folder) (F.asked self.new.runner.folder)
            (P.asked self.old.runner.programs) (P.asked self.new.runner.programs) }
        ensures faults { Counted result
            (F.failures self.old.runner.folder) (F.failures self.new.runner.folder)
            (P.failures self.old.runner.programs) (P.failures self.new.runner.programs)
            ⊎ (IsOver run self.old.runner.runs.items × (result ≡ Ok None)) }
        ensures to_begin { self.new.to_begin ≡ self.old.to_begin }
        ensures together { self.new.together ≡ self.old.together }
        ensures next { self.new.next ≡ self.old.next }
    {
        self.runner.ask(run.instance, run.job, &texts_of(task))
    }
}

fn is_key(key: RunKey, other: &RunKey) -> bool
    ensures { result ≡ is_key key other.now }
{
    other.instance == key.instance && other.job == key.job
}

/// How many runs are asked in a circle for those that are noted together: one.
fn count_in(together: &Option<Span>) -> usize
    ensures { result ≡ length (next_in together.now) }
{
    match together {
        Some(_) => 1,
        None => 0,
    }
}

/// Takes a job out of those whose run is to begin. Whether it was among them.
fn take(to_begin: &mut Vec<RunKey>, run: RunKey) -> bool
    ensures was { result ≡ has_key run to_begin.old.items }
    ensures others { to_begin.new.items ≡ without_key run to_begin.old.items }
    ensures room { vec_capacity to_begin.new ≡ vec_capacity to_begin.old }
{
    let was_among = to_begin.iter().any(|other| is_key(run, other));
    to_begin.retain(|other| !is_key(run, other));
    was_among
}

/// Ends a run by a bounded piece of work, and tells where its folder is left.
fn kill_told<F: Folder + Drop, P: Programs + Drop, E: Write>(
    runner: &mut Runner<F, P>,
    run: RunKey,
    configs: &Configs,
    moment: u64,
    errors: &mut ErrorLines<E>,
)
    ensures { IsKilledAt configs.now moment run
        (record {
          runs = runner.old.runs.items;
          folders = F.asked runner.old.folder;
          programs = P.asked runner.old.programs;
          text = E.contents errors.old.output;
          backlog = errors.old.backlog;
        })
        (record {
          runs = runner.new.runs.items;
          folders = F.asked runner.new.folder;
          programs = P.asked runner.new.programs;
          text = E.contents errors.new.output;
          backlog = errors.new.backlog;
        }) }
{
    if let Err(fault) = runner.kill(run.instance, run.job) {
        errors.tell_fault(configs, moment, run, fault, &[]);
    }
}

/// Ends each run by a bounded piece of work, the last first.
fn kill_each<F: Folder + Drop, P: Programs + Drop, E: Write>(
    runner: &mut Runner<F, P>,
    configs: &Configs,
    moment: u64,
    errors: &mut ErrorLines<E>,
)
    ensures { AreKilled configs.now moment (vec_len runner.old.runs)
        (record {
          runs = runner.old.runs.items;
          folders = F.asked runner.old.folder;
          programs = P.asked runner.old.programs;
          text = E.contents errors.old.output;
          backlog = errors.old.backlog;
        })
        (record {
          runs = runner.new.runs.items;
          folders = F.asked runner.new.folder;
          programs = P.asked runner.new.programs;
          text = E.contents errors.new.output;
          backlog = errors.new.backlog;
        }) }
{
    let mut left = runner.count();
    while left > 0 {
        left -= 1;
        if let Some(run) = runner.run(left) {
            kill_told(runner, run, configs, moment, errors);
        }
    }
}

/// The texts of a task that is lent.
fn texts_of<'a>(task: LentTask<'a>) -> LentTexts<'a>
    ensures { result ≡ (lent_shown task.entry).texts }
{
    LentTexts::new(task.pool, &task.task.texts)
}

impl<F: Folder + Drop, P: Programs + Drop> Runs for JobRunner<F, P> {
    ghost use Rattle.job_runs.specs.Running.{Carry};

    ghost carries = { λ r h. Carry r.runner.runs.items r.to_begin.items
        (F.asked r.runner.folder) (P.asked r.runner.programs) h };

    fn start(&mut self, run: RunKey, _task: LentTask<'_>)
        ensures carries { CarriesRuns
            (Carry self.old.runner.runs.items self.old.to_begin.items
            (F.asked self.old.runner.folder) (P.asked self.old.runner.programs))
            (Carry self.new.runner.runs.items self.new.to_begin.items
            (F.asked self.new.runner.folder) (P.asked self.new.runner.programs))
            (ordered run.instance (start run.job (lent_shown _task.entry)) ∷ []) }
        ensures noted { IsToBegin run self.new.to_begin.items self.new.together }
        ensures others { (key : RunKey) → IsToBegin key self.old.to_begin.items self.old.together
            → IsToBegin key self.new.to_begin.items self.new.together }
        ensures one_by_one { vec_len self.old.to_begin < vec_capacity self.old.to_begin →
            (self.new.to_begin.items ≡ self.old.to_begin.items ++ run ∷ [])
            × (self.new.together ≡ self.old.together) }
        ensures room { vec_capacity self.new.to_begin ≡ vec_capacity self.old.to_begin }
        ensures runner { self.new.runner ≡ self.old.runner }
        ensures next { self.new.next ≡ self.old.next }
        ensures once { has_key run (all_keys self.old.runner.runs.items self.old.to_begin.items)
            ≡ false → AreOnce (all_keys self.old.runner.runs.items self.old.to_begin.items)
            → AreOnce (all_keys self.new.runner.runs.items self.new.to_begin.items) }
    {
        if self.to_begin.len() < self.to_begin.capacity() {
            self.to_begin.push_reserved(run);
        } else {
            self.together = Some(span_with(self.together, run));
        }
    }

    fn kill(&mut self, run: RunKey)
        ensures carries { CarriesRuns
            (Carry self.old.runner.runs.items self.old.to_begin.items
            (F.asked self.old.runner.folder) (P.asked self.old.runner.programs))
            (Carry self.new.runner.runs.items self.new.to_begin.items
            (F.asked self.new.runner.folder) (P.asked self.new.runner.programs))
            (ordered run.instance (kill run.job) ∷ []) }
        ensures noted { has_key run self.old.to_begin.items ≡ true →
            self.new.runner ≡ self.old.runner }
        ensures killed { has_key run self.old.to_begin.items ≡ false → IsEnded run
            self.old.runner.runs.items self.new.runner.runs.items
            (F.asked self.old.runner.folder) (F.asked self.new.runner.folder)
            (P.asked self.old.runner.programs) (P.asked self.new.runner.programs) }
        ensures to_begin { self.new.to_begin.items ≡ without_key run self.old.to_begin.items }
        ensures together { self.new.together ≡ self.old.together }
        ensures room { vec_capacity self.new.to_begin ≡ vec_capacity self.old.to_begin }
        ensures next { self.new.next ≡ self.old.next }
        ensures once { AreOnce (all_keys self.old.runner.runs.items self.old.to_begin.items)
            → AreOnce (all_keys self.new.runner.runs.items self.new.to_begin.items) }
    {
        if !take(&mut self.to_begin, run) {
            // A job that is ordered to be ended still runs, so that no folder is removed yet.
            let _ended = self.runner.kill(run.instance, run.job);
        }
    }

    fn count(&self) -> usize
        ensures { result ≡ count_of (asked_keys self.now.runner.runs.items
            self.now.to_begin.items self.now.together) }
    {
        let noted = self.to_begin.len().saturating_add(count_in(&self.together));
        self.runner.count().saturating_add(noted)
    }

    fn next(&mut self) -> Option<RunKey>
        ensures carries { CarriesRuns
            (Carry self.old.runner.runs.items self.old.to_begin.items
            (F.asked self.old.runner.folder) (P.asked self.old.runner.programs))
            (Carry self.new.runner.runs.items self.new.to_begin.items
            (F.asked self.new.runner.folder) (P.asked self.new.runner.programs))
            ([]) }
        ensures key { let keys = asked_keys self.old.runner.runs.items
            self.old.to_begin.items self.old.together in
            result ≡ slice_get keys (turn_in (count_of keys) self.old.next) }
        ensures next { let keys = asked_keys self.old.runner.runs.items
            self.old.to_begin.items self.old.together in
            self.new.next ≡ turn_in (count_of keys) self.old.next + 1 }
        ensures runner { self.new.runner ≡ self.old.runner }
        ensures to_begin { self.new.to_begin ≡ self.old.to_begin }
        ensures together { (key : RunKey) → IsAmong key self.old.together
            → (result ≡ Some key) ⊎ IsAmong key self.new.together }
    {
        let place = self.place();
        self.next = place.saturating_add(1);
        let of_runner = self.runner.count();
        if place < of_runner {
            return self.runner.run(place);
        }
        let behind = place - of_runner;
        if behind < self.to_begin.len() {
            return Some(self.to_begin[behind]);
        }
        let span = self.together?;
        self.together = span.rest();
        Some(span.at)
    }

    fn ask(&mut self, run: RunKey, task: Option<LentTask<'_>>) -> Result<Option<Outcome>, RunFault>
        ensures carries { CarriesRuns
            (Carry self.old.runner.runs.items self.old.to_begin.items
            (F.asked self.old.runner.folder) (P.asked self.old.runner.programs))
            (Carry self.new.runner.runs.items self.new.to_begin.items
            (F.asked self.new.runner.folder) (P.asked self.new.runner.programs))
            (asked_events run task.entry result) }
        ensures begun { HasNone run self.old.runner.runs.items →
            IsBegunIf (option_map lent_shown task.entry) run result
            self.old.runner.runs.items self.new.runner.runs.items }
        ensures only_begun { HasNone run self.old.runner.runs.items →
            (F.asked self.new.runner.folder ≡ F.asked self.old.runner.folder)
            × (F.failures self.new.runner.folder ≡ F.failures self.old.runner.folder)
            × (self.new.runner.programs ≡ self.old.runner.programs) }
        ensures answered { list_any (is_run_of run) self.old.runner.runs.items ≡ true →
            IsAnsweredFor (option_map lent_shown task.entry) run result
            self.old.runner.runs.items self.new.runner.runs.items
            (F.asked self.old.runner.folder) (F.asked self.new.runner.folder)
            (P.asked self.old.runner.programs) (P.asked self.new.runner.programs) }
        ensures faults { Counted result
            (F.failures self.old.runner.folder) (F.failures self.new.runner.folder)
            (P.failures self.old.runner.programs) (P.failures self.new.runner.programs)
            ⊎ (IsOnlyEnded (option_map lent_shown task.entry) run self.old.runner.runs.items
            × (result ≡ Ok None)) }
        ensures to_begin { self.new.to_begin.items ≡ without_key run self.old.to_begin.items }
        ensures together { self.new.together ≡ self.old.together }
        ensures room { vec_capacity self.new.to_begin ≡ vec_capacity self.old.to_begin }
        ensures next { self.new.next ≡ self.old.next }
        ensures once { AreOnce (all_keys self.old.runner.runs.items self.old.to_begin.items)
            → AreOnce (all_keys self.new.runner.runs.items self.new.to_begin.items) }
    {
        let _was_noted = take(&mut self.to_begin, run);
        if !self.runner.has(run.instance, run.job) {
            return self.begin_lent(run, task);
        }
        match task {
            Some(task) => self.ask_run(run, task),
            None => {
                // The job that it was run for does not run any more.
                self.runner.kill(run.instance, run.job)?;
                Ok(None)
            }
        }
    }

    fn next_doing(&self) -> Doing {
        let place = self.place();
        if self.runner.runs_program(place) {
            Doing::Runs
        } else if self.runner.waits(place) {
            Doing::Waits
        } else {
            Doing::Goes
        }
    }

    fn pass(&mut self) -> usize
        ensures carries { CarriesRuns
            (Carry self.old.runner.runs.items self.old.to_begin.items
            (F.asked self.old.runner.folder) (P.asked self.old.runner.programs))
            (Carry self.new.runner.runs.items self.new.to_begin.items
            (F.asked self.new.runner.folder) (P.asked self.new.runner.programs))
            ([]) }
        ensures runner { self.new.runner ≡ self.old.runner }
        ensures to_begin { self.new.to_begin ≡ self.old.to_begin }
        ensures together { self.new.together ≡ self.old.together }
        ensures passed { let keys = asked_keys self.old.runner.runs.items
            self.old.to_begin.items self.old.together in
            (at : ℕ) → turn_in (count_of keys) self.old.next ≤ at → at < self.new.next
            → runs_at self.old.runner.runs.items at ≡ true }
    {
        let place = self.place();
        self.next = self.runner.first_to_ask(place).max(place);
        self.next - place
    }

    fn look(&mut self, number: usize) -> Option<RunKey>
        ensures carries { CarriesRuns
            (Carry self.old.runner.runs.items self.old.to_begin.items
            (F.asked self.old.runner.folder) (P.asked self.old.runner.programs))
            (Carry self.new.runner.runs.items self.new.to_begin.items
            (F.asked self.new.runner.folder) (P.asked self.new.runner.programs))
            ([]) }
        ensures runs { self.new.runner.runs ≡ self.old.runner.runs }
        ensures folder { self.new.runner.folder ≡ self.old.runner.folder }
        ensures asked { P.asked self.new.runner.programs ≡ P.asked self.old.runner.programs }
        ensures to_begin { self.new.to_begin ≡ self.old.to_begin }
        ensures together { self.new.together ≡ self.old.together }
        ensures next { self.new.next ≡ self.old.next }
    {
        self.runner.look(number)
    }

    fn reason(
        &self,
        run: RunKey,
        _task: Option<LentTask<'_>>,
        fault: RunFault,
        most: u32,
    ) -> io::Result<Vec<u8>> {
        match fault {
            RunFault::Launcher | RunFault::Start => { self.runner.programs().last_words(run, most) }
            _ => Ok(Vec::new(self.alloc)),
        }
    }

    fn is_busy(&self) -> bool
        ensures { result ≡ (list_any (λ (run : Run). can_go_on run.state) self.now.runner.runs.items
            || (nat_lt 0 (length self.now.to_begin.items) || is_some self.now.together)) }
    {
        self.runner.is_busy() || !self.to_begin.is_empty() || self.together.is_some()
    }
}
