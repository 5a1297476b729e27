//! How jobs are made, and begin to wait.

ghost use Rattle.std.specs.Prelude.{◌≡◌, ◌<◌, ◌+◌, ◌^◌, ◌≤◌, ℕ, IfOk, OnOk, OnErr, Ok};
ghost use Rattle.blob_pool.specs.Slots.{count_at};
ghost use Rattle.blob_pool.specs.Moves.{Moves, no_holders};
ghost use Rattle.instance_view.specs.Shown.{entry_holders};
ghost use Rattle.instance_view.specs.Sight.{sight_holders};
ghost use Rattle.input_tree.specs.Texts.{texts_of};
ghost use Rattle.actions.specs.Walk.{digest_of_node};
ghost use Rattle.actions.specs.Shown.{node_shown};
ghost use Rattle.job_queue.specs.Jobs.{jobs_after_push};
ghost use Rattle.job_queue.specs.declared.queue.TheConstants.{LAST_NUMBER};
ghost use Rattle.execution.specs.Answers.{made_holders};
ghost use Rattle.execution.specs.InPool.{job_in, job_holders};
ghost use Rattle.execution.specs.Keeping.{kept_entries};
ghost use Rattle.execution.specs.Preparing as preparing;
ghost use Rattle.execution.specs.Preparing.{job_of, met};
ghost use Rattle.execution.specs.Shown.{prepared_shown};

use crate::job::{Job, Task};
use crate::keeping::{KeptText, keep_texts};
use crate::preparing::Prepared;
use actions::PlanNode;
use blob_pool::{Pool, release_kept};
use digest::Digest;
use execution_messages::distinct;
use instance_view::Sight;
use job_queue::Queue;
use run_calls::NodeKind;
use std::alloc::{AllocError, Global};

/// The digest of a file or directory.
fn digest_of(node: &PlanNode) -> Option<Digest>
    ensures { result ≡ digest_of_node (node_shown node.now) }
{
    match &node.kind {
        NodeKind::File { text, .. } | NodeKind::Directory { text } => Some(*text),
        NodeKind::Symlink { .. } => None,
    }
}

/// The digests of the action, its command, its root, and its directories and files, in the order
/// met.
pub(crate) fn digests_met(
    alloc: Global,
    action: &Digest,
    prepared: &Prepared,
) -> Result<Vec<Digest>, AllocError>
    ensures { IfOk result (λ digests. digests.items
        ≡ met action.now (prepared_shown prepared.now)) }
{
    let mut digests = Vec::new(alloc);
    digests.push(*action)?;
    digests.push(prepared.action.command)?;
    digests.push(prepared.action.root)?;
    let mut left = prepared.plan.nodes.as_slice();
    while let [first, rest @ ..] = left {
        if let Some(digest) = digest_of(first) {
            digests.push(digest)?;
        }
        left = rest;
    }
    Ok(digests)
}

/// Releases the texts that a job kept. This takes no memory.
pub(crate) fn release_texts(pool: &mut Pool, texts: &[KeptText])
    requires { (k : ℕ) → entry_holders (kept_entries texts.now) k ≤ count_at pool.old k }
    ensures { Moves pool.old pool.new (entry_holders (kept_entries texts.now)) no_holders }
{
    let mut left = texts;
    while let [first, rest @ ..] = left {
        release_kept(pool, first.text);
        left = rest;
    }
}

/// The job of an action, which keeps the texts of digests.
pub(crate) fn make_job(
    alloc: Global,
    view: &Sight<'_>,
    pool: &mut Pool,
    action: &Digest,
    prepared: &Prepared,
    digests: &[Digest],
) -> Result<Job, AllocError>
    requires size { action.now.size < 2 ^ 63 }
    requires prepared { preparing.prepared (texts_of pool.old view.now) action.now
        ≡ Ok (prepared_shown prepared.now) }
    requires met { digests.now ≡ met action.now (prepared_shown prepared.now) }
    requires held { (k : ℕ) → sight_holders view.now k ≤ count_at pool.old k }
    requires room { (k : ℕ) → count_at pool.old k + 2 ^ 64 < 2 ^ 127 }
    ensures job { IfOk result (λ job. job_in pool.new job
        ≡ job_of (texts_of pool.old view.now) action.now (prepared_shown prepared.now)) }
    ensures moves { Moves pool.old pool.new no_holders (made_holders result) }
{
    let once = distinct(alloc, pool.key(), digests)?;
    let texts = keep_texts(alloc, view, pool, &once)?;
    Ok(Job {
        timeout: prepared.action.timeout,
        is_stored: prepared.action.is_stored,
        task: Task {
            action: *action,
            texts,
        },
    })
}

/// A job waits behind the others under the next number. For want of memory its texts are released.
pub(crate) fn enqueue(pool: &mut Pool, queue: &mut Queue<Job>, job: Job) -> Result<u64, AllocError>
    requires next { queue.old.next ≤ LAST_NUMBER }
    requires held { (k : ℕ) → job_holders job k ≤ count_at pool.old k }
    ensures number { IfOk result (λ number. number ≡ queue.old.next) }
    ensures ok { OnOk result (queue.new ≡ jobs_after_push job queue.old) }
    ensures same { OnOk result (pool.new ≡ pool.old) }
    ensures err { OnErr result (queue.new ≡ queue.old) }
    ensures released { OnErr result (Moves pool.old pool.new (job_holders job) no_holders) }
{
    match queue.push(job) {
        Ok(number) => Ok(number),
        Err((_, job)) => {
            release_texts(pool, &job.task.texts);
            Err(AllocError)
        }
    }
}
