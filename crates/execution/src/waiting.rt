//! WaitExecution.

ghost use Rattle.std.specs.Prelude.{◌≡◌, ◌<◌, ◌^◌, IfOk, option_map};
ghost use Rattle.blob_pool.specs.Slots.{Slots};
ghost use Rattle.cas_service.specs.Answers.{Answers};
ghost use Rattle.execution.specs.Answers.{wait_shown};
ghost use Rattle.execution.specs.InPool.{jobs_in, stage_in};
ghost use Rattle.job_queue.specs.Stages.{stage_shown};
ghost use Rattle.execution_messages.specs.Shown.{unfinished_text};
ghost use Rattle.execution.specs.Waiting.{begins_with_zero, number_of_digits, number_named, watches, wait_answer, wait};

use crate::answer::WaitAnswer;
use crate::job::Job;
use cas_service::CallError;
use digest::Digest;
use execution_messages::{ExecutionStage, unfinished};
use job_queue::{Queue, Stage};
use numerals::decimal;
use rpc::Refusal;
use std::alloc::{AllocError, Global};

/// Whether digits begin with a zero, or are none.
fn begins_with_zero(digits: &[u8]) -> bool
    ensures { result ≡ begins_with_zero digits.now }
{
    match digits {
        [] => true,
        [first, ..] => *first == b'0',
    }
}

/// A number in decimal without leading zeros.
fn number_of_digits(digits: &[u8]) -> Option<u64>
    ensures { result ≡ number_of_digits digits.now }
{
    if begins_with_zero(digits) {
        return None;
    }
    decimal(digits)
}

/// The number of an Operation that a name names.
fn number_named(name: &[u8]) -> Option<u64>
    ensures { result ≡ number_named name.now }
{
    if !name.starts_with(b"operations/") {
        return None;
    }
    number_of_digits(&name[11..])
}

/// The present Operation of a job that has not ended.
fn watched(
    alloc: Global,
    number: u64,
    stage: ExecutionStage,
    action: &Digest,
) -> Result<WaitAnswer, AllocError>
    requires { action.now.size < 2 ^ 63 }
    ensures { IfOk result (λ answer. wait_shown answer
        ≡ watches number (unfinished_text stage number action.now)) }
{
    let operation = unfinished(alloc, number, stage, action)?;
    Ok(WaitAnswer::Watches(number, operation))
}

/// The present Operation of the job of a number.
fn answer(
    alloc: Global,
    number: u64,
    stage: Option<Stage<'_, Job>>,
) -> Result<WaitAnswer, CallError>
    ensures { (p : Slots) → Answers wait_shown result
        (wait_answer number (option_map (stage_in p) (option_map stage_shown stage.entry))) }
{
    match stage {
        None => Err(CallError::Refused(Refusal::UnknownOperation)),
        Some(Stage::Waits(job)) => {
            let answer = watched(alloc, number, ExecutionStage::Queued, &job.task.action)?;
            Ok(answer)
        }
        Some(Stage::Runs(running)) => {
            let action = &running.job.task.action;
            let answer = watched(alloc, number, ExecutionStage::Executing, action)?;
            Ok(answer)
        }
        Some(Stage::HasEnded(operation)) => { Ok(WaitAnswer::HasTold(operation.clone()?)) }
    }
}

/// Answers WaitExecution: the present Operation of the execution that a name names, and whether
/// others follow. [`Refusal::UnknownOperation`] where no execution has the name, or not any more.
pub fn wait(alloc: Global, queue: &Queue<Job>, name: &[u8]) -> Result<WaitAnswer, CallError>
    ensures { (p : Slots) → Answers wait_shown result (wait name.now (jobs_in p queue.now)) }
{
    let Some(number) = number_named(name) else {
        return Err(CallError::Refused(Refusal::UnknownOperation));
    };
    answer(alloc, number, queue.find(number))
}
