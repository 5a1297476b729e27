//! Whether what a run leaves is too much for an instance.

ghost use Rattle.std.specs.Prelude.{◌≡◌, filter, is_some, map, nat_lt, not, IfOk};
ghost use Rattle.blob_pool.specs.Slots.{Slots};
ghost use Rattle.instance_view.specs.Shown.{visible_in};
ghost use Rattle.instance_view.specs.Visible.{visible_text};
ghost use Rattle.execution_messages.specs.Statuses.{distinct};
ghost use Rattle.outcomes.specs.Completing.{blob_shown};
ghost use Rattle.outcomes.specs.Fresh.{fresh_size, fresh_sum};
ghost use Rattle.outcomes.specs.Results.{fresh_bytes, sizes_of};

use crate::completion::OutputBlob;
use digest::Digest;
use execution_messages::distinct;
use instance_view::View;
use std::alloc::{AllocError, Global};

/// How many bytes the text of a digest has, or 0 where it is there.
fn fresh_size(view: &View, digest: &Digest) -> u64
    ensures { (p : Slots) → result ≡ fresh_size (visible_in p view.now) digest.now }
{
    if view.contains(digest) {
        0
    } else {
        digest.size
    }
}

/// Whether texts of digests that are not there, of which none stands twice, have more bytes
/// together than the quota.
fn are_over(view: &View, quota: u64, digests: &[Digest]) -> bool
    ensures { (p : Slots) → result ≡ nat_lt quota (fresh_sum (visible_in p view.now) digests.now) }
{
    let mut room = quota;
    let mut left = digests;
    while let [first, rest @ ..] = left {
        let size = fresh_size(view, first);
        if size > room {
            return true;
        }
        room -= size;
        left = rest;
    }
    false
}

/// The digests of blobs, in order.
fn digests_of(alloc: Global, blobs: &[OutputBlob]) -> Result<Vec<Digest>, AllocError>
    ensures { IfOk result (λ digests. digests.items ≡ map (λ b. (blob_shown b).0) blobs.now) }
{
    let mut digests = Vec::new(alloc);
    let mut left = blobs;
    while let [first, rest @ ..] = left {
        digests.push(first.digest)?;
        left = rest;
    }
    Ok(digests)
}

/// Whether the distinct blobs of a run that an instance does not have exceed its quota together.
/// Nothing of the run is admitted then.
pub fn is_over_quota(
    alloc: Global,
    view: &View,
    quota: u64,
    blobs: &[OutputBlob],
) -> Result<bool, AllocError>
    ensures { (p : Slots) → IfOk result (λ over. over ≡ nat_lt quota
        (fresh_bytes (visible_in p view.now) (map blob_shown blobs.now))) }
{
    let digests = digests_of(alloc, blobs)?;
    let once = distinct(alloc, view.key(), &digests)?;
    Ok(are_over(view, quota, &once))
}
