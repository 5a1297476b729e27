//! What becomes of a job whose run gave an outcome.

ghost use Rattle.std.specs.Prelude.{◌≡◌, ◌≤◌, [], None, map, option_map, unwrap_or, IfOk, OnOk, OnErr};
ghost use Rattle.std.specs.List.{AllByRecursion};
ghost use Rattle.digest.specs.Naming.{Names};
ghost use Rattle.blob_pool.specs.Slots.{Slots};
ghost use Rattle.blob_pool.specs.Moves.{Moves};
ghost use Rattle.instance_view.specs.Visible.{Blob};
ghost use Rattle.instance_view.specs.Shown.{holders, visible_in};
ghost use Rattle.quota_evict.specs.Admission.{visible_after_admission};
ghost use Rattle.quota_evict.specs.InPool.{IsViewInPool};
ghost use Rattle.quota_evict.specs.Within.{most_stored_bytes};
ghost use Rattle.cas_service.specs.Changes.{MadeInPart, visible_after_changes};
ghost use Rattle.actions.specs.Commands.{asked_outputs, command_in};
ghost use Rattle.actions.specs.Shown.{asked_shown};
ghost use Rattle.execution_messages.specs.Progress.{fails};
ghost use Rattle.outcomes.specs.Completing.{blob_shown, completion_shown};
ghost use Rattle.run_calls.specs.Outcomes.{exited};
ghost use Rattle.run_calls.specs.Shown.{exited_shown, outcome_shown};
ghost use Rattle.outcomes.specs.Endings.{ending_shown};
ghost use Rattle.execution.specs.InPool.{job_in};
ghost use Rattle.outcomes.specs.Ending.{admissions, completed, ending, stored_of};

use crate::completion::{BlobText, Completion, OutputBlob, complete};
use crate::quota::is_over_quota;
use actions::{AskedOutput, asked_outputs, read_command};
use blob_pool::{Draft, Pool};
use digest::Digest;
use execution::{Job, read_task_command};
use execution_messages::{End, Fault};
use instance_view::View;
use quota_evict::{AdmitError, admit, admit_draft};
use run_calls::{Exited, Outcome};
use std::alloc::{AllocError, Global};
use std::collections::VecDeque;

/// What becomes of a job.
#[derive(Drop)]
pub struct Ending {
    pub end: End,
    /// To be admitted in this order.
    pub blobs: Vec<OutputBlob>,
    /// The text of the result that is to be stored.
    pub stored: Option<Vec<u8>>,
}

/// A job that fails, of whose outputs none is taken.
fn failure(alloc: Global, fault: Fault) -> Ending
    ensures { ending_shown result
        ≡ record { end_is = fails fault []; blobs = []; stored = None } }
{
    Ending {
        end: End::Fails(fault, Vec::new(alloc)),
        blobs: Vec::new(alloc),
        stored: None,
    }
}

/// The outputs that the text of a command asks for. A job's command is one that is taken.
fn outputs_of<'a>(alloc: Global, text: &'a [u8]) -> Result<Vec<AskedOutput<'a>>, AllocError>
    ensures { IfOk result (λ asked. map asked_shown asked.items
        ≡ unwrap_or (option_map asked_outputs (command_in text.now)) []) }
{
    match read_command(alloc, text)? {
        Some(command) => asked_outputs(alloc, &command),
        None => Ok(Vec::new(alloc)),
    }
}

/// The result that is stored of a run with a status.
fn stored_of(
    alloc: Global,
    job: &Job,
    code: i32,
    text: &[u8],
) -> Result<Option<Vec<u8>>, AllocError>
    ensures { (p : Slots) → IfOk result (λ stored. option_map (λ text. text.items) stored
        ≡ stored_of (job_in p job.now) code text.now) }
{
    if code != 0 || !job.is_stored {
        return Ok(None);
    }
    let stored = Vec::from_slice(alloc, text)?;
    Ok(Some(stored))
}

/// How a job ends whose outputs are taken.
fn completed(
    alloc: Global,
    quota: u64,
    view: &View,
    job: &Job,
    code: i32,
    completion: Completion,
) -> Result<Ending, AllocError>
    ensures { (p : Slots) → IfOk result (λ e. ending_shown e ≡ completed quota
        (visible_in p view.now) (job_in p job.now) code (completion_shown completion)) }
{
    let Completion { blobs, result } = completion;
    if is_over_quota(alloc, view, quota, &blobs)? {
        return Ok(failure(alloc, Fault::QuotaExceeded));
    }
    let stored = stored_of(alloc, job, code, &result)?;
    Ok(Ending {
        end: End::Gives(result),
        blobs,
        stored,
    })
}

/// How a job ends whose run came to its end.
fn end_of_exit(
    alloc: Global,
    quota: u64,
    view: &View,
    pool: &Pool,
    job: &Job,
    run: Exited,
) -> Result<Ending, AllocError>
    ensures { IfOk result (λ e. ending_shown e ≡ ending quota
        (visible_in pool.now view.now) (job_in pool.now job.now) (exited (exited_shown run))) }
{
    let code = run.code;
    let command = read_task_command(alloc, pool, &job.task)?;
    let asked = outputs_of(alloc, &command)?;
    match complete(alloc, pool.key(), &job.task.action, &asked, run)? {
        Some(completion) => completed(alloc, quota, view, job, code, completion),
        None => Ok(failure(alloc, Fault::RunFailed)),
    }
}

/// How a job ends whose run gave an outcome: with its result, or with `RunFailed` where the run
/// failed or gave what the action does not ask for, or with `QuotaExceeded` where what it left and
/// the instance does not have is more than its quota. Nothing is changed.
pub fn end_of_run(
    alloc: Global,
    quota: u64,
    view: &View,
    pool: &Pool,
    job: &Job,
    outcome: Outcome,
) -> Result<Ending, AllocError>
    ensures ending { IfOk result (λ e. ending_shown e ≡ ending quota
        (visible_in pool.now view.now) (job_in pool.now job.now) (outcome_shown outcome)) }
    ensures named { IfOk result
        (λ e. AllByRecursion (λ (b : Blob). Names b.0 b.1) (map blob_shown e.blobs.items)) }
{
    match outcome {
        Outcome::Failed => Ok(failure(alloc, Fault::RunFailed)),
        Outcome::Exited(run) => end_of_exit(alloc, quota, view, pool, job, run),
    }
}

/// Admits a text that the run gave. One that is longer than the quota changes nothing.
fn admit_given(
    view: &mut View,
    pool: &mut Pool,
    quota: u64,
    digest: &Digest,
    draft: Draft,
) -> Result<(), AllocError>
    requires quota { quota ≤ most_stored_bytes }
    requires kept { IsViewInPool quota pool.old view.old }
    requires named { Names digest.now draft.text }
    ensures ok { OnOk result (visible_in pool.new view.new
        ≡ visible_after_admission view.old.limit quota digest.now draft.text
        (visible_in pool.old view.old)) }
    ensures err { OnErr result ((view.new ≡ view.old) × (pool.new ≡ pool.old)) }
    ensures moves { Moves pool.old pool.new (holders view.old) (holders view.new) }
    ensures kept { IsViewInPool quota pool.new view.new }
    ensures limit { view.new.limit ≡ view.old.limit }
{
    match admit_draft(view, pool, quota, digest, draft) {
        Ok(()) | Err((AdmitError::TooLarge, _)) => Ok(()),
        Err((AdmitError::NoMemory, _)) => Err(AllocError),
    }
}

/// The same of a Tree.
fn admit_tree(
    view: &mut View,
    pool: &mut Pool,
    quota: u64,
    digest: &Digest,
    bytes: &[u8],
) -> Result<(), AllocError>
    requires quota { quota ≤ most_stored_bytes }
    requires kept { IsViewInPool quota pool.old view.old }
    requires named { Names digest.now bytes.now }
    ensures ok { OnOk result (visible_in pool.new view.new
        ≡ visible_after_admission view.old.limit quota digest.now bytes.now
        (visible_in pool.old view.old)) }
    ensures err { OnErr result ((view.new ≡ view.old) × (pool.new ≡ pool.old)) }
    ensures moves { Moves pool.old pool.new (holders view.old) (holders view.new) }
    ensures kept { IsViewInPool quota pool.new view.new }
    ensures limit { view.new.limit ≡ view.old.limit }
{
    match admit(view, pool, quota, digest, bytes) {
        Ok(()) | Err(AdmitError::TooLarge) => Ok(()),
        Err(AdmitError::NoMemory) => Err(AllocError),
    }
}

/// Admits a blob.
fn admit_blob(
    view: &mut View,
    pool: &mut Pool,
    quota: u64,
    blob: OutputBlob,
) -> Result<(), AllocError>
    requires quota { quota ≤ most_stored_bytes }
    requires kept { IsViewInPool quota pool.old view.old }
    requires named { Names (blob_shown blob).0 (blob_shown blob).1 }
    ensures ok { OnOk result (visible_in pool.new view.new
        ≡ visible_after_admission view.old.limit quota (blob_shown blob).0 (blob_shown blob).1
        (visible_in pool.old view.old)) }
    ensures err { OnErr result ((view.new ≡ view.old) × (pool.new ≡ pool.old)) }
    ensures moves { Moves pool.old pool.new (holders view.old) (holders view.new) }
    ensures kept { IsViewInPool quota pool.new view.new }
    ensures limit { view.new.limit ≡ view.old.limit }
{
    let digest = blob.digest;
    match blob.into_text() {
        BlobText::Draft(draft) => admit_given(view, pool, quota, &digest, draft),
        BlobText::Bytes(bytes) => admit_tree(view, pool, quota, &digest, &bytes),
    }
}

/// Admits blobs, in order. One that is longer than the quota changes nothing. Where memory is
/// refused the first of them were admitted.
pub fn admit_blobs(
    view: &mut View,
    pool: &mut Pool,
    quota: u64,
    blobs: Vec<OutputBlob>,
) -> Result<(), AllocError>
    requires quota { quota ≤ most_stored_bytes }
    requires kept { IsViewInPool quota pool.old view.old }
    requires named { AllByRecursion (λ (b : Blob). Names b.0 b.1) (map blob_shown blobs.items) }
    ensures ok { OnOk result (visible_in pool.new view.new ≡ visible_after_changes
        view.old.limit quota (admissions (map blob_shown blobs.items))
        (visible_in pool.old view.old)) }
    ensures err { OnErr result (MadeInPart view.old.limit quota
        (admissions (map blob_shown blobs.items)) (visible_in pool.old view.old)
        (visible_in pool.new view.new)) }
    ensures moves { Moves pool.old pool.new (holders view.old) (holders view.new) }
    ensures kept { IsViewInPool quota pool.new view.new }
    ensures limit { view.new.limit ≡ view.old.limit }
{
    let mut left = VecDeque::from_vec(blobs);
    while let Some(blob) = left.pop_front() {
        admit_blob(view, pool, quota, blob)?;
    }
    Ok(())
}
