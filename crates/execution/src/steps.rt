//! What happens to jobs at an event, made ready before anything changes.

ghost use Rattle.std.specs.Prelude.{◌≡◌, ◌++◌, ◌∷◌, [], map, IfOk, OnOk};
ghost use Rattle.blob_pool.specs.Slots.{Slots};
ghost use Rattle.job_queue.specs.Jobs.{running_job};
ghost use Rattle.job_queue.specs.Order.{AreJobs};
ghost use Rattle.execution_messages.specs.Shown.{end_shown};
ghost use Rattle.execution.specs.InPool.{jobs_in, running_in, waiting_in};
ghost use Rattle.execution.specs.Steps.{end_steps, ending_of, start_of, start_steps, starts_of, then_starts, tick_steps, timings_out};
ghost use Rattle.execution.specs.Taking.{EndJobs, step_shown, steps_shown};

use crate::job::{Executions, Job};
use execution_messages::{End, ExecutionStage, Fault, completed, unfinished};
use job_queue::{Queue, Running};
use keyed_maps::MapKey;
use std::alloc::{AllocError, Global};
use std::rc::Rc;

/// What happens to a job at an event.
#[derive(Drop, Debug)]
pub enum Step {
    /// The job that runs under a number comes to its deadline, and ends with this Operation.
    TimesOut {
        number: u64,
        operation: Rc<Vec<u8>>,
    },
    /// The job that runs under a number ends with this Operation.
    Ends {
        number: u64,
        operation: Rc<Vec<u8>>,
    },
    /// The least-numbered job that waits, under this number, runs until a deadline, in
    /// milliseconds. Its Operation is now this.
    Starts {
        number: u64,
        deadline: u128,
        operation: Rc<Vec<u8>>,
    },
}

/// Adds the step of a running job, where a moment has reached its deadline.
fn add_due(
    alloc: Global,
    key: MapKey,
    steps: &mut Vec<Step>,
    moment: u64,
    running: &(u64, Running<Job>),
) -> Result<(), AllocError>
    ensures { (p : Slots) → OnOk result (steps_shown steps.new.items
        ≡ steps_shown steps.old.items ++ timings_out moment (running_in p running.now ∷ [])) }
{
    let (number, running) = running;
    if running.deadline > moment as u128 {
        return Ok(());
    }
    let end = End::Fails(Fault::TimedOut, Vec::new(alloc));
    let text = completed(alloc, key, *number, &running.job.task.action, end)?;
    let operation = Rc::new(alloc, text)?;
    steps.push(Step::TimesOut {
        number: *number,
        operation,
    })?;
    Ok(())
}

/// The steps of all running jobs whose deadline a moment has reached.
fn steps_due(
    alloc: Global,
    key: MapKey,
    moment: u64,
    running: &[(u64, Running<Job>)],
) -> Result<Vec<Step>, AllocError>
    ensures { (p : Slots) → IfOk result (λ steps. steps_shown steps.items
        ≡ timings_out moment (map (running_in p) running.now)) }
{
    let mut steps = Vec::new(alloc);
    let mut left = running;
    while let [first, rest @ ..] = left {
        add_due(alloc, key, &mut steps, moment, first)?;
        left = rest;
    }
    Ok(steps)
}

/// The step of a waiting job that starts at a moment.
fn step_started(alloc: Global, moment: u64, waiting: &(u64, Job)) -> Result<Step, AllocError>
    ensures { (p : Slots) → IfOk result (λ step. step_shown step
        ≡ start_of moment (waiting_in p waiting.now)) }
{
    let (number, job) = waiting;
    let text = unfinished(alloc, *number, ExecutionStage::Executing, &job.task.action)?;
    let operation = Rc::new(alloc, text)?;
    Ok(Step::Starts {
        number: *number,
        deadline: moment as u128 + job.timeout as u128,
        operation,
    })
}

/// Adds the steps of so many waiting jobs that start at a moment.
fn add_starts(
    alloc: Global,
    steps: &mut Vec<Step>,
    moment: u64,
    most: usize,
    queue: &Queue<Job>,
) -> Result<(), AllocError>
    ensures { (p : Slots) → OnOk result (steps_shown steps.new.items ≡ steps_shown steps.old.items
        ++ starts_of most moment (map (waiting_in p) queue.now.waiting)) }
{
    let mut place = 0;
    while place < most {
        let Some(waiting) = queue.waiting_at(place) else {
            return Ok(());
        };
        let step = step_started(alloc, moment, waiting)?;
        steps.push(step)?;
        place += 1;
    }
    Ok(())
}

/// The step of the job that runs under a number, where one does, and ends.
#[tactic(auto, using(crate::proofs::Taken::ended_some, crate::proofs::Taken::ended_none))]
fn step_ended(
    alloc: Global,
    key: MapKey,
    number: u64,
    end: End,
    queue: &Queue<Job>,
) -> Result<Vec<Step>, AllocError>
    ensures { (p : Slots) → IfOk result (λ steps. steps_shown steps.items
        ≡ ending_of number (end_shown end) (running_job number (jobs_in p queue.now))) }
{
    let mut steps = Vec::new(alloc);
    let Some(job) = queue.running_job(number) else {
        return Ok(steps);
    };
    let text = completed(alloc, key, number, &job.task.action, end)?;
    let operation = Rc::new(alloc, text)?;
    steps.push(Step::Ends { number, operation })?;
    Ok(steps)
}

/// Adds to steps by which jobs end those of the waiting jobs that start then, at a moment: as many
/// as there are slots for.
fn add_starts_behind(
    alloc: Global,
    executions: &Executions,
    moment: u64,
    steps: &mut Vec<Step>,
) -> Result<(), AllocError>
    requires { (p : Slots) →
        EndJobs (steps_shown steps.old.items) (jobs_in p executions.now.queue) }
    ensures { (p : Slots) → OnOk result (steps_shown steps.new.items
        ≡ then_starts executions.now.slots moment (steps_shown steps.old.items)
        (jobs_in p executions.now.queue)) }
{
    let running = executions.queue.running_count() - steps.len();
    let most = executions.slots.saturating_sub(running);
    add_starts(alloc, steps, moment, most, &executions.queue)
}

/// The steps of a Tick at a moment, in milliseconds: each running job whose deadline it has reached
/// times out, in rising number, and then the least-numbered that wait start, as many as there are
/// slots for. Nothing is changed: [`crate::take_steps`] takes them.
pub fn tick_steps(
    alloc: Global,
    key: MapKey,
    executions: &Executions,
    moment: u64,
) -> Result<Vec<Step>, AllocError>
    requires jobs { AreJobs executions.now.queue }
    ensures { (p : Slots) → IfOk result (λ steps. steps_shown steps.items
        ≡ tick_steps executions.now.slots moment (jobs_in p executions.now.queue)) }
{
    let mut steps = steps_due(alloc, key, moment, executions.queue.running())?;
    add_starts_behind(alloc, executions, moment, &mut steps)?;
    Ok(steps)
}

/// The steps of the outcome of the job that runs under a number, where one does, at a moment: it
/// ends so, and then the least-numbered that wait start, as many as there are slots for. Nothing is
/// changed.
pub fn end_steps(
    alloc: Global,
    key: MapKey,
    executions: &Executions,
    moment: u64,
    number: u64,
    end: End,
) -> Result<Vec<Step>, AllocError>
    requires jobs { AreJobs executions.now.queue }
    ensures { (p : Slots) → IfOk result (λ steps. steps_shown steps.items
        ≡ end_steps executions.now.slots moment number (end_shown end)
        (jobs_in p executions.now.queue)) }
{
    let mut steps = step_ended(alloc, key, number, end, &executions.queue)?;
    add_starts_behind(alloc, executions, moment, &mut steps)?;
    Ok(steps)
}

/// The steps at the end of received bytes, at a moment: the least-numbered jobs that wait start, as
/// many as there are slots for. Nothing is changed.
pub fn start_steps(
    alloc: Global,
    executions: &Executions,
    moment: u64,
) -> Result<Vec<Step>, AllocError>
    requires jobs { AreJobs executions.now.queue }
    ensures { (p : Slots) → IfOk result (λ steps. steps_shown steps.items
        ≡ start_steps executions.now.slots moment (jobs_in p executions.now.queue)) }
{
    let mut steps = Vec::new(alloc);
    add_starts_behind(alloc, executions, moment, &mut steps)?;
    Ok(steps)
}
