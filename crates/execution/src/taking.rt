//! The steps of an event are taken, once nothing can be refused any more.

ghost use Rattle.std.specs.Prelude.{◌≡◌, ◌≤◌, ℕ};
ghost use Rattle.blob_pool.specs.Slots.{count_at};
ghost use Rattle.blob_pool.specs.Moves.{Moves};
ghost use Rattle.job_queue.specs.Changes.{CanHappen, IsRunning, jobs_after};
ghost use Rattle.job_queue.specs.Jobs.{jobs_after_end, jobs_without};
ghost use Rattle.execution.specs.InPool.{jobs_holders, jobs_in};
ghost use Rattle.execution.specs.Steps.{change_of, jobs_after_steps};
ghost use Rattle.execution.specs.Taking.{CanTake, step_shown, steps_shown};

use crate::job::Job;
use crate::making::release_texts;
use crate::steps::Step;
use blob_pool::Pool;
use job_queue::Queue;
use std::collections::VecDeque;
use std::rc::Rc;

/// Ends the job that runs under a number, and releases what it kept.
fn end_job(pool: &mut Pool, queue: &mut Queue<Job>, number: u64, operation: Rc<Vec<u8>>)
    requires runs { IsRunning number queue.old }
    requires held { (k : ℕ) → jobs_holders queue.old k ≤ count_at pool.old k }
    ensures ended { jobs_in pool.new queue.new
        ≡ jobs_after_end number operation.value.items (jobs_in pool.old queue.old) }
    ensures moves { Moves pool.old pool.new (jobs_holders queue.old) (jobs_holders queue.new) }
{
    let job = queue.end(number, operation).unwrap();
    release_texts(pool, &job.task.texts);
}

/// Forgets the job that runs under a number, where one does, and releases what it kept. This takes
/// no memory.
pub fn forget_job(pool: &mut Pool, queue: &mut Queue<Job>, number: u64)
    requires held { (k : ℕ) → jobs_holders queue.old k ≤ count_at pool.old k }
    ensures forgotten { jobs_in pool.new queue.new
        ≡ jobs_without number (jobs_in pool.old queue.old) }
    ensures moves { Moves pool.old pool.new (jobs_holders queue.old) (jobs_holders queue.new) }
{
    if let Some(job) = queue.forget(number) {
        release_texts(pool, &job.task.texts);
    }
}

/// Takes a step.
#[tactic(auto, using(crate::proofs::Taken::start_moves))]
fn take_step(pool: &mut Pool, queue: &mut Queue<Job>, step: Step)
    requires can { CanHappen (change_of (step_shown step)) (jobs_in pool.old queue.old) }
    requires held { (k : ℕ) → jobs_holders queue.old k ≤ count_at pool.old k }
    ensures taken { jobs_in pool.new queue.new
        ≡ jobs_after (change_of (step_shown step)) (jobs_in pool.old queue.old) }
    ensures moves { Moves pool.old pool.new (jobs_holders queue.old) (jobs_holders queue.new) }
{
    match step {
        Step::TimesOut { number, operation } => end_job(pool, queue, number, operation),
        Step::Ends { number, operation } => end_job(pool, queue, number, operation),
        Step::Starts { deadline, .. } => {
            queue.start(deadline);
        }
    }
}

/// Takes the steps of an event, one after another. What jobs kept that end is released. This takes
/// no memory, so that an event makes ready all else before.
pub fn take_steps(pool: &mut Pool, queue: &mut Queue<Job>, steps: Vec<Step>)
    requires can { CanTake (steps_shown steps.items) (jobs_in pool.old queue.old) }
    requires held { (k : ℕ) → jobs_holders queue.old k ≤ count_at pool.old k }
    ensures taken { jobs_in pool.new queue.new
        ≡ jobs_after_steps (steps_shown steps.items) (jobs_in pool.old queue.old) }
    ensures moves { Moves pool.old pool.new (jobs_holders queue.old) (jobs_holders queue.new) }
{
    let mut left = VecDeque::from(steps);
    while let Some(first) = left.pop_front() {
        take_step(pool, queue, first);
    }
}
