//! How a text comes into an instance's view, and which others go for it.

ghost use Rattle.std.specs.Prelude.{◌≡◌, ◌↔◌, ◌+◌, ◌<◌, ◌≤◌, ◌^◌, ℕ, None, length, OnOk, OnErr, IfErr, ◌∷◌, List};
ghost use Rattle.std.specs.Result.{IsErrOf};
ghost use Rattle.std.specs.List.{AllByRecursion};
ghost use Rattle.digest.specs.declared.Digest.{Digest};
ghost use Rattle.digest.specs.Naming.{Names};
ghost use Rattle.blob_pool.specs.Slots.{Slots};
ghost use Rattle.blob_pool.specs.Moves.{Moves, AreHeld};
ghost use Rattle.instance_view.specs.Visible.{Blob, visible_text, blobs_length};
ghost use Rattle.instance_view.specs.Insertion.{visible_after_insertion};
ghost use Rattle.instance_view.specs.Shown.{visible_in, holders};
ghost use Rattle.quota_evict.specs.Admission.{visible_after_admission, longest_front};
ghost use Rattle.quota_evict.specs.Within.{AreBlobsWithin, most_stored_bytes};
ghost use Rattle.quota_evict.specs.InPool.{IsViewInPool};
ghost use Rattle.quota_evict.specs.declared.admission.AdmitError.TheVariants.{TooLarge, NoMemory};

use blob_pool::{Draft, Pool};
use digest::Digest;
use instance_view::View;
use std::alloc::AllocError;

/// Why a text was not admitted.
#[derive(Clone, Copy, Debug, PartialEq, Eq)]
pub enum AdmitError {
    /// It is longer than the quota.
    TooLarge,
    /// A request for memory was refused.
    NoMemory,
}

impl From<AllocError> for AdmitError {
    ghost from_gives = { λ _ error. error ≡ NoMemory };

    fn from(_: AllocError) -> AdmitError {
        AdmitError::NoMemory
    }
}

/// Drops the texts that were used least recently until the rest is within the quota.
fn evict(view: &mut View, pool: &mut Pool, quota: u64)
    requires held { AreHeld pool.old (holders view.old) }
    requires named { AllByRecursion (λ (b : Blob). Names b.0 b.1) (visible_in pool.old view.old) }
    ensures shown { visible_in pool.new view.new
        ≡ longest_front quota (visible_in pool.old view.old) }
    ensures moves { Moves pool.old pool.new (holders view.old) (holders view.new) }
    ensures limit { view.new.limit ≡ view.old.limit }
{
    'texts: while view.total() > quota {
        view.drop_oldest(pool);
    }
}

/// Drops the oldest text where there are too many.
fn trim(view: &mut View, pool: &mut Pool, limit: usize)
    requires held { AreHeld pool.old (holders view.old) }
    requires some { 0 < limit }
    requires length { length view.old.entries ≤ limit + 1 }
    ensures shown { (d : Digest) (text : List ℕ) (visible : List Blob) →
        visible_in pool.old view.old ≡ (d, text) ∷ visible →
        visible_in pool.new view.new ≡ visible_after_insertion limit d text visible }
    ensures moves { Moves pool.old pool.new (holders view.old) (holders view.new) }
    ensures limit { view.new.limit ≡ view.old.limit }
{
    if view.len() > limit {
        view.drop_oldest(pool);
    }
}

/// Stores a text that is not there and that the quota allows.
fn store(
    view: &mut View,
    pool: &mut Pool,
    quota: u64,
    digest: &Digest,
    draft: Draft,
) -> Result<(), Draft>
    requires quota { quota ≤ most_stored_bytes }
    requires kept { IsViewInPool quota pool.old view.old }
    requires named { Names digest.now draft.text }
    requires absent { (p : Slots) → visible_text digest.now (visible_in p view.old) ≡ None }
    requires fits { length draft.text ≤ quota }
    ensures ok { OnOk result (visible_in pool.new view.new
        ≡ visible_after_admission view.old.limit quota digest.now draft.text
        (visible_in pool.old view.old)) }
    ensures err { OnErr result ((view.new ≡ view.old) × (pool.new ≡ pool.old)) }
    ensures back { IfErr result (λ given. given.text ≡ draft.text) }
    ensures moves { Moves pool.old pool.new (holders view.old) (holders view.new) }
    ensures limit { view.new.limit ≡ view.old.limit }
    ensures kept { IsViewInPool quota pool.new view.new }
{
    let limit = view.limit();
    view.add(pool, digest, draft)?;
    trim(view, pool, limit);
    evict(view, pool, quota);
    Ok(())
}

/// Stores the text of a draft under its digest, if the quota allows it. What is there is used; a
/// refusal gives the draft back and changes nothing.
pub fn admit_draft(
    view: &mut View,
    pool: &mut Pool,
    quota: u64,
    digest: &Digest,
    draft: Draft,
) -> Result<(), (AdmitError, Draft)>
    requires quota { quota ≤ most_stored_bytes }
    requires kept { IsViewInPool quota pool.old view.old }
    requires named { Names digest.now draft.text }
    ensures ok { OnOk result (visible_in pool.new view.new
        ≡ visible_after_admission view.old.limit quota digest.now draft.text
        (visible_in pool.old view.old)) }
    // It is refused as too large exactly where it is not there and longer than the quota.
    ensures too_large { IfErr result
        (λ e. (e.0 ≡ TooLarge)
        ↔ ((visible_text digest.now (visible_in pool.old view.old) ≡ None)
        × (quota < length draft.text))) }
    ensures fits { OnOk result (visible_text digest.now (visible_in pool.old view.old) ≡ None
        → length draft.text ≤ quota) }
    ensures err { OnErr result ((view.new ≡ view.old) × (pool.new ≡ pool.old)) }
    ensures back { IfErr result (λ e. e.1.text ≡ draft.text) }
    ensures moves { Moves pool.old pool.new (holders view.old) (holders view.new) }
    ensures kept { IsViewInPool quota pool.new view.new }
    ensures limit { view.new.limit ≡ view.old.limit }
{
    let is_there = view.touch(digest);
    if is_there {
        return Ok(());
    }
    if draft.length() > quota {
        return Err((AdmitError::TooLarge, draft));
    }
    match store(view, pool, quota, digest, draft) {
        Ok(()) => Ok(()),
        Err(draft) => Err((AdmitError::NoMemory, draft)),
    }
}

/// Stores bytes under their digest, if the quota allows it. What is there is used; a refusal
/// changes nothing.
pub fn admit(
    view: &mut View,
    pool: &mut Pool,
    quota: u64,
    digest: &Digest,
    bytes: &[u8],
) -> Result<(), AdmitError>
    requires quota { quota ≤ most_stored_bytes }
    requires kept { IsViewInPool quota pool.old view.old }
    requires named { Names digest.now bytes.now }
    ensures ok { OnOk result (visible_in pool.new view.new
        ≡ visible_after_admission view.old.limit quota digest.now bytes.now
        (visible_in pool.old view.old)) }
    ensures too_large { IsErrOf result TooLarge
        ↔ ((visible_text digest.now (visible_in pool.old view.old) ≡ None)
        × (quota < length bytes.now)) }
    ensures err { OnErr result ((view.new ≡ view.old) × (pool.new ≡ pool.old)) }
    ensures moves { Moves pool.old pool.new (holders view.old) (holders view.new) }
    ensures kept { IsViewInPool quota pool.new view.new }
    ensures limit { view.new.limit ≡ view.old.limit }
{
    if view.touch(digest) {
        return Ok(());
    }
    if bytes.len() as u64 > quota {
        return Err(AdmitError::TooLarge);
    }
    let draft = pool.draft_of(digest, bytes)?;
    match store(view, pool, quota, digest, draft) {
        Ok(()) => Ok(()),
        Err(_draft) => Err(AdmitError::NoMemory),
    }
}
