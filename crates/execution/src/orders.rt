//! What is ordered of whoever runs jobs, and what those are told who watch them.

ghost use Rattle.std.specs.Prelude.{◌≡◌, option_map};
ghost use Rattle.blob_pool.specs.Slots.{Slots};
ghost use Rattle.execution.specs.InPool.{jobs_in, task_in};
ghost use Rattle.execution.specs.Orders.{task_of, told};
ghost use Rattle.execution.specs.Ordered.{order_by, told_shown};
ghost use Rattle.execution.specs.Taking.{step_shown};

use crate::job::{Job, Task};
use crate::steps::Step;
use job_queue::Queue;
use std::rc::Rc;

/// What is ordered of whoever runs jobs.
#[derive(Clone, Copy, PartialEq, Eq, Debug)]
pub enum Order {
    /// The job of a number is to be run. Its task is [`task_of`] the number, as long as it runs.
    Start { job: u64 },
    /// The run of the job of a number is to be ended.
    Kill { job: u64 },
}

/// What those are told who watch a number.
#[derive(Clone, Copy, Debug)]
pub struct Told<'a> {
    pub number: u64,
    /// Its bytes are shared by all that are told.
    pub operation: &'a Rc<Vec<u8>>,
    /// Whether no other follows.
    pub is_last: bool,
}

impl Step {
    /// The order that goes with the step, where one does.
    pub fn order(&self) -> Option<Order>
        ensures { result ≡ order_by (step_shown self.now) }
    {
        match self {
            Step::TimesOut { number, .. } => Some(Order::Kill { job: *number }),
            Step::Ends { .. } => None,
            Step::Starts { number, .. } => Some(Order::Start { job: *number }),
        }
    }

    /// What those are told who watch the job.
    pub fn told(&self) -> Told<'_>
        ensures { told_shown result ≡ told (step_shown self.now) }
    {
        match self {
            Step::TimesOut { number, operation } | Step::Ends { number, operation } => Told {
                number: *number,
                operation,
                is_last: true,
            },
            Step::Starts {
                number,
                operation,
                ..
            } => Told {
                number: *number,
                operation,
                is_last: false,
            },
        }
    }
}

/// The task of the job that runs under a number, where one does.
pub fn task_of(queue: &Queue<Job>, number: u64) -> Option<&Task>
    ensures { (p : Slots) → option_map (λ task. task_in p task.now) result
        ≡ task_of number (jobs_in p queue.now) }
{
    let job = queue.running_job(number)?;
    Some(&job.task)
}
