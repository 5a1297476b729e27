//! Runs of jobs, none of which is waited for.

ghost use Rattle.std.specs.Prelude.{List, Option, None, IfOk, IfSome, ◌≡◌, ◌≤◌, ◌∷◌, [], length, ⊤};

use run_calls::{Outcome, RunKey};
use runner::RunFault;
use server_core::LentTask;
use std::io;

/// What a run does.
#[derive(Clone, Copy, Debug, PartialEq, Eq)]
pub enum Doing {
    /// It can go on at once.
    Goes,
    /// It waits for its folder to be made or removed, or for its program to be killed.
    Waits,
    /// Its program runs.
    Runs,
}

/// The runs of the jobs of a server's instances. No call waits for a program.
pub trait Runs {
    ghost use Rattle.execution.specs.Orders.{start, kill};
    ghost use Rattle.server_core.specs.Lent.{lent_shown};
    ghost use Rattle.run_calls.specs.Calls.{Adds};
    ghost use Rattle.serve.specs.RunEvents.{FaultValue, RunEvent, ordered, asked_events, faults_of, AddsRuns, CarriesRuns, WasBegun};

    // All that happened at the runs, in order, where it is known.
    ghost happened: { Self → Option (List RunEvent) } = { λ _. None };

    // What the runs themselves are when such a list is what happened at them.
    ghost carries: { Self → List RunEvent → Type 0 } = { λ _ _. ⊤ };

    // The faults that runs answered, in order, where they are known.
    ghost faulted: { Self → Option (List FaultValue) } = { λ _. None };

    /// Begins the run of a job. Where it cannot be begun, `ask` answers the fault.
    fn start(&mut self, run: RunKey, task: LentTask<'_>)
        ensures adds { AddsRuns (happened self.old) (happened self.new)
            (ordered run.instance (start run.job (lent_shown task.entry)) ∷ []) }
        ensures carries { CarriesRuns (carries self.old) (carries self.new)
            (ordered run.instance (start run.job (lent_shown task.entry)) ∷ []) }
        ensures no_fault { faulted self.new ≡ faulted self.old };

    /// Ends the run of a job, which gives no outcome then.
    fn kill(&mut self, run: RunKey)
        ensures adds { AddsRuns (happened self.old) (happened self.new)
            (ordered run.instance (kill run.job) ∷ []) }
        ensures carries { CarriesRuns (carries self.old) (carries self.new)
            (ordered run.instance (kill run.job) ∷ []) }
        ensures no_fault { faulted self.new ≡ faulted self.old };

    /// How many runs there are, those included that are only to be ended.
    fn count(&self) -> usize;

    /// The run whose turn it is to be asked: each in a circle, those included that are only to be
    /// ended. It is one that was begun.
    fn next(&mut self) -> Option<RunKey>
        ensures begun { IfSome result (λ run. WasBegun run (happened self.new)) }
        ensures adds { AddsRuns (happened self.old) (happened self.new) [] }
        ensures carries { CarriesRuns (carries self.old) (carries self.new) [] }
        ensures no_fault { faulted self.new ≡ faulted self.old };

    /// What the run does that comes next.
    fn next_doing(&self) -> Doing;

    /// Passes over those that come next and whose programs run, and says over how many.
    fn pass(&mut self) -> usize
        ensures adds { AddsRuns (happened self.old) (happened self.new) [] }
        ensures carries { CarriesRuns (carries self.old) (carries self.new) [] }
        ensures no_fault { faulted self.new ≡ faulted self.old };

    /// Looks at one of the programs, which this number chooses, and says of which run one is to be
    /// asked, as it has ended. Those are looked at that were started last, and a share of the
    /// others.
    fn look(&mut self, number: usize) -> Option<RunKey>
        ensures begun { IfSome result (λ run. WasBegun run (happened self.new)) }
        ensures adds { AddsRuns (happened self.old) (happened self.new) [] }
        ensures carries { CarriesRuns (carries self.old) (carries self.new) [] }
        ensures no_fault { faulted self.new ≡ faulted self.old };

    /// Goes on with a run by a bounded piece of work. What came of it, or `None` while it goes on.
    /// Its task is lent as long as its job runs. With an outcome or a fault the run is over.
    fn ask(&mut self, run: RunKey, task: Option<LentTask<'_>>) -> Result<Option<Outcome>, RunFault>
        ensures adds { AddsRuns (happened self.old) (happened self.new)
            (asked_events run task.entry result) }
        ensures carries { CarriesRuns (carries self.old) (carries self.new)
            (asked_events run task.entry result) }
        ensures fault { Adds (faulted self.old) (faulted self.new) (faults_of run result) };

    /// Why a run that has just come to a fault did so, in at most so many bytes; none where nothing
    /// is known. Its task is lent as it was when the run was asked.
    fn reason(
        &self,
        run: RunKey,
        task: Option<LentTask<'_>>,
        fault: RunFault,
        most: u32,
    ) -> io::Result<Vec<u8>>
        ensures within { IfOk result (λ bytes. length bytes.items ≤ most) };

    /// Whether a run can go on at once, without waiting for a program.
    fn is_busy(&self) -> bool;
}
