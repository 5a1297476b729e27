//! What becomes of a job whose run gave an outcome.

ghost use Rattle.std.specs.Prelude.{◌≡◌, ℕ, IfOk, OnOk, OnErr, map, option_map};
ghost use Rattle.std.specs.List.{AllByRecursion};
ghost use Rattle.digest.specs.Naming.{Names};
ghost use Rattle.blob_pool.specs.Slots.{Slots};
ghost use Rattle.blob_pool.specs.Moves.{Moves};
ghost use Rattle.instance_view.specs.Visible.{Blob};
ghost use Rattle.instance_view.specs.Shown.{holders};
ghost use Rattle.job_queue.specs.Jobs.{running_job};
ghost use Rattle.job_queue.specs.Order.{AreJobs};
ghost use Rattle.execution_messages.specs.Shown.{end_shown};
ghost use Rattle.run_calls.specs.Shown.{outcome_shown};
ghost use Rattle.outcomes.specs.Completing.{blob_shown};
ghost use Rattle.execution.specs.InPool.{jobs_in};
ghost use Rattle.execution.specs.Ordered.{orders_by};
ghost use Rattle.execution.specs.Steps.{end_steps};
ghost use Rattle.execution.specs.Taking.{steps_shown};
ghost use Rattle.outcomes.specs.Ending.{results_with};
ghost use Rattle.instance_limits.specs.Shown.{limits_value};
ghost use Rattle.instance_core.specs.Answer.{answer, changes_kept, ending_changes};
ghost use Rattle.instance_core.specs.Calls.{IsShortEvent, end_job};
ghost use Rattle.instance_core.specs.Changes.{MadeInPart, state_after_changes};
ghost use Rattle.instance_core.specs.Contents.{AreContentsInPool, AreContentsWithin};
ghost use Rattle.instance_core.specs.Replies.{IsShortReply};
ghost use Rattle.instance_core.specs.ReplyHolders.{replies_holders};
ghost use Rattle.instance_core.specs.Shown.{Ongoing, contents_state, ongoing_in, reply_shown};
ghost use Rattle.instance_core.specs.State.{IsInstanceWithin};
ghost use Rattle.instance_core.specs.Turns.{IsReady};
ghost use Rattle.instance_core.specs.Watching.{replies_to_watchers};

use crate::calls::Calls;
use crate::contents::{Contents, Settings};
use crate::turns::{Turn, make_ready};
use action_cache::Results;
use blob_pool::Pool;
use digest::Digest;
use execution::{Executions, end_steps};
use execution_messages::End;
use instance_limits::Limits;
use keyed_maps::MapKey;
use outcomes::{Ending, OutputBlob, admit_blobs, end_of_run};
use run_calls::Outcome;
use std::alloc::{AllocError, Global};

/// Makes ready that the job that runs under a number ends so.
fn ready_to_end(
    alloc: Global,
    key: MapKey,
    settings: &Settings,
    executions: &Executions,
    calls: &Calls,
    job: u64,
    end: End,
) -> Result<Turn, AllocError>
    requires jobs { AreJobs executions.now.queue }
    ensures steps { (p : Slots) → IfOk result (λ turn. steps_shown turn.steps.items
        ≡ end_steps executions.now.slots settings.now.moment job (end_shown end)
        (jobs_in p executions.now.queue)) }
    ensures replies { (p : Slots) → IfOk result (λ turn. map (reply_shown p) turn.replies.items
        ≡ replies_to_watchers calls.now (steps_shown turn.steps.items)) }
    ensures orders { IfOk result
        (λ turn. turn.orders.items ≡ orders_by (steps_shown turn.steps.items)) }
    ensures given { (k : ℕ) → IfOk result (λ turn. replies_holders turn.replies.items k ≡ 0) }
{
    let steps = end_steps(alloc, key, executions, settings.moment, job, end)?;
    make_ready(alloc, calls, steps, None)
}

/// Stores the result of an action, where there is one to store.
fn store(
    results: &mut Results,
    limits: Limits,
    action: &Digest,
    stored: Option<Vec<u8>>,
) -> Result<(), AllocError>
    ensures stored { OnOk result (results.new ≡ results_with (limits_value limits) action.now
        (option_map (λ text. text.items) stored) results.old) }
    ensures err { OnErr result (results.new ≡ results.old) }
{
    match stored {
        None => Ok(()),
        Some(text) => results.update(limits, action, text),
    }
}

/// Admits the blobs of the outputs of an action, in order, and stores its result. For want of
/// memory the first of them may have been admitted.
fn keep_outputs(
    settings: &Settings,
    contents: &mut Contents,
    pool: &mut Pool,
    action: &Digest,
    blobs: Vec<OutputBlob>,
    stored: Option<Vec<u8>>,
) -> Result<(), AllocError>
    requires kept { AreContentsInPool settings.now pool.old contents.old }
    requires named { AllByRecursion (λ (b : Blob). Names b.0 b.1) (map blob_shown blobs.items) }
    ensures changed { (o : Ongoing) → let s = contents_state settings.now pool.old contents.old o in
        let changes = changes_kept s action.now (map blob_shown blobs.items)
        (option_map (λ text. text.items) stored) in
        OnOk result
        (contents_state settings.now pool.new contents.new o ≡ state_after_changes changes s) }
    ensures memory { (o : Ongoing) → let s = contents_state settings.now pool.old contents.old o in
        let changes = changes_kept s action.now (map blob_shown blobs.items)
        (option_map (λ text. text.items) stored) in
        OnErr result
        (MadeInPart changes s (contents_state settings.now pool.new contents.new o)) }
    ensures moves { Moves pool.old pool.new (holders contents.old.view)
        (holders contents.new.view) }
    ensures within { AreContentsWithin settings.now pool.new contents.new }
    ensures executions { contents.new.executions ≡ contents.old.executions }
{
    admit_blobs(&mut contents.view, pool, settings.quota, blobs)?;
    store(&mut contents.results, settings.limits, action, stored)
}

/// Admits what the run of a job left, stores its result, and makes ready that the job ends. All
/// that is sent is made first.
pub fn on_outcome(
    alloc: Global,
    settings: &Settings,
    contents: &mut Contents,
    pool: &mut Pool,
    calls: &Calls,
    job: u64,
    outcome: Outcome,
) -> Result<Turn, AllocError>
    requires kept { AreContentsInPool settings.now pool.old contents.old }
    requires slots { contents.old.executions.slots ≡ settings.now.slots }
    requires jobs { AreJobs contents.old.executions.queue }
    requires within { let o = ongoing_in pool.old contents.old calls.now in
        IsInstanceWithin (contents_state settings.now pool.old contents.old o) }
    requires short { IsShortEvent (end_job job (outcome_shown outcome)) }
    ensures ready { (p : Slots) → let o = ongoing_in pool.old contents.old calls.now in
        let s = contents_state settings.now pool.old contents.old o in
        let event = end_job job (outcome_shown outcome) in
        IfOk result (IsReady p s event (answer s event).replies) }
    ensures changed { let o = ongoing_in pool.old contents.old calls.now in
        let s = contents_state settings.now pool.old contents.old o in
        let changes = ending_changes s (outcome_shown outcome) (running_job job s.jobs) in
        OnOk result
        (contents_state settings.now pool.new contents.new o ≡ state_after_changes changes s) }
    ensures memory { let o = ongoing_in pool.old contents.old calls.now in
        let s = contents_state settings.now pool.old contents.old o in
        let changes = ending_changes s (outcome_shown outcome) (running_job job s.jobs) in
        OnErr result
        (MadeInPart changes s (contents_state settings.now pool.new contents.new o)) }
    ensures moves { Moves pool.old pool.new (holders contents.old.view)
        (holders contents.new.view) }
    ensures within { AreContentsWithin settings.now pool.new contents.new }
    ensures executions { contents.new.executions ≡ contents.old.executions }
    ensures narrow { IsShortEvent (end_job job (outcome_shown outcome)) }
    ensures given { (k : ℕ) → IfOk result (λ turn. replies_holders turn.replies.items k ≡ 0) }
    ensures short { (p : Slots) → IfOk result
        (λ turn. AllByRecursion IsShortReply (map (reply_shown p) turn.replies.items)) }
{
    let executions = &contents.executions;
    let Some(running) = executions.queue.running_job(job) else {
        return make_ready(alloc, calls, Vec::new(alloc), None);
    };
    let action = running.task.action;
    let ending = end_of_run(
        alloc,
        settings.quota,
        &contents.view,
        pool,
        running,
        outcome,
    )?;
    let Ending { end, blobs, stored } = ending;
    let turn = ready_to_end(
        alloc,
        contents.view.key(),
        settings,
        executions,
        calls,
        job,
        end,
    )?;
    keep_outputs(settings, contents, pool, &action, blobs, stored)?;
    Ok(turn)
}
