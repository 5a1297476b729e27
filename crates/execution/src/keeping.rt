//! The texts that a job keeps.

ghost use Rattle.std.specs.Prelude.{◌≡◌, ◌≤◌, ◌<◌, ◌+◌, ◌++◌, ◌^◌, ℕ, vec_len, vec_capacity, IfOk};
ghost use Rattle.blob_pool.specs.Slots.{Slots, count_at};
ghost use Rattle.blob_pool.specs.Moves.{Moves, HasRoom, no_holders};
ghost use Rattle.instance_view.specs.Shown.{blobs_in, entry_holders, holders_seen};
ghost use Rattle.instance_view.specs.Sight.{sight_holders};
ghost use Rattle.input_tree.specs.Texts.{texts_of};
ghost use Rattle.execution.specs.Job.{kept_text, kept_along};
ghost use Rattle.execution.specs.Keeping.{kept_entries, held_by, seen_blobs};

use blob_pool::{Kept, Pool};
use digest::Digest;
use instance_view::{Seen, Sight};
use std::alloc::{AllocError, Global};

/// A text that a job keeps: it is a holder of it in the pool.
#[derive(Clone, Copy, Debug)]
pub struct KeptText {
    pub digest: Digest,
    pub text: Kept,
}

/// Holds a text that is seen once more, unless it is the empty one.
fn hold_seen(pool: &mut Pool, kept: &mut Vec<KeptText>, digest: Digest, seen: Seen)
    requires held { (k : ℕ) → holders_seen seen k ≤ count_at pool.old k }
    requires room { HasRoom pool.old }
    requires space { vec_len kept.old < vec_capacity kept.old }
    ensures kept { (p : Slots) → blobs_in p (kept_entries kept.new.items)
        ≡ blobs_in p (kept_entries kept.old.items) ++ seen_blobs p digest seen }
    ensures moves { Moves pool.old pool.new (entry_holders (kept_entries kept.old.items))
        (entry_holders (kept_entries kept.new.items)) }
    ensures longer { vec_len kept.new ≤ vec_len kept.old + 1 }
    ensures space { vec_capacity kept.old ≤ vec_capacity kept.new }
{
    match seen {
        Seen::Empty => {}
        Seen::Text(text) => {
            let text = pool.hold_again(text);
            kept.push(KeptText { digest, text }).unwrap();
        }
    }
}

/// Holds the text of a digest once more, unless it is the empty text or not there.
fn keep_one(view: &Sight<'_>, pool: &mut Pool, kept: &mut Vec<KeptText>, digest: &Digest)
    requires held { (k : ℕ) → sight_holders view.now k ≤ count_at pool.old k }
    requires room { HasRoom pool.old }
    requires space { vec_len kept.old < vec_capacity kept.old }
    ensures kept { (p : Slots) → blobs_in p (kept_entries kept.new.items)
        ≡ blobs_in p (kept_entries kept.old.items) ++ kept_text (texts_of p view.now) digest.now }
    ensures moves { Moves pool.old pool.new (entry_holders (kept_entries kept.old.items))
        (entry_holders (kept_entries kept.new.items)) }
    ensures longer { vec_len kept.new ≤ vec_len kept.old + 1 }
    ensures space { vec_capacity kept.old ≤ vec_capacity kept.new }
{
    if digest.is_empty() {
        return;
    }
    if let Some(seen) = view.get(digest) {
        hold_seen(pool, kept, *digest, seen);
    }
}

/// Holds the texts of digests, of which none stands twice, once more each. The room for them is
/// made first: where it is refused, nothing has changed.
pub fn keep_texts(
    alloc: Global,
    view: &Sight<'_>,
    pool: &mut Pool,
    digests: &[Digest],
) -> Result<Vec<KeptText>, AllocError>
    requires held { (k : ℕ) → sight_holders view.now k ≤ count_at pool.old k }
    requires room { (k : ℕ) → count_at pool.old k + 2 ^ 64 < 2 ^ 127 }
    ensures kept { (p : Slots) → IfOk result (λ kept. blobs_in p (kept_entries kept.items)
        ≡ kept_along (texts_of p view.now) digests.now) }
    ensures moves { Moves pool.old pool.new no_holders (held_by result) }
{
    let mut kept = Vec::with_capacity(alloc, digests.len())?;
    let mut left = digests;
    while let [first, rest @ ..] = left {
        keep_one(view, pool, &mut kept, first);
        left = rest;
    }
    Ok(kept)
}
