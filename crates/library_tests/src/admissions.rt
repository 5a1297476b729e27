//! Texts that an instance admits, and those that go for them.

ghost use Rattle.std.specs.Prelude.{◌≡◌, ◌≤◌, ◌^◌};
ghost use Rattle.quota_evict.specs.InPool.{IsViewInPool};

use blob_pool::Pool;
use digest::Digest;
use instance_view::View;
use keyed_maps::MapKey;
use quota_evict::{AdmitError, admit};
use std::alloc::{AllocError, Global};

/// Whether a text was stored.
fn is_stored(view: &mut View, pool: &mut Pool, quota: u64, text: &[u8]) -> Result<bool, AllocError>
    requires quota { quota ≤ 2 ^ 40 }
    requires kept { IsViewInPool quota pool.old view.old }
    ensures kept { IsViewInPool quota pool.new view.new }
{
    match admit(view, pool, quota, &Digest::of(text), text) {
        Ok(()) => Ok(true),
        Err(AdmitError::TooLarge) => Ok(false),
        Err(AdmitError::NoMemory) => Err(AllocError),
    }
}

/// Whether all of these were stored, one after another.
fn are_stored(
    view: &mut View,
    pool: &mut Pool,
    quota: u64,
    texts: &[&[u8]],
) -> Result<bool, AllocError>
    requires quota { quota ≤ 2 ^ 40 }
    requires kept { IsViewInPool quota pool.old view.old }
    ensures kept { IsViewInPool quota pool.new view.new }
{
    for text in texts {
        if !is_stored(view, pool, quota, text)? {
            return Ok(false);
        }
    }
    Ok(true)
}

/// Whether these texts are there, of so many bytes, and not that one.
fn has(view: &View, texts: &[&[u8]], total: u64, gone: &[u8]) -> bool {
    texts.iter().all(|text| view.contains(&Digest::of(text)))
        && view.len() == texts.len()
        && view.total() == total
        && !view.contains(&Digest::of(gone))
}

/// Of `a`, `b` and `c` the limit of two leaves the last two; after a use of `b`, `d` drops `c`.
fn drops_the_least_recently_used(view: &mut View, pool: &mut Pool) -> Result<bool, AllocError>
    requires { IsViewInPool 100 pool.old view.old }
{
    let first = are_stored(view, pool, 100, &[b"a", b"b", b"c"])?;
    let two_left = has(view, &[b"c", b"b"], 2, b"a");
    let is_used = are_stored(view, pool, 100, &[b"b", b"d"])?;
    Ok(first && two_left && is_used && has(view, &[b"d", b"b"], 2, b"c"))
}

/// Whether a view keeps a limit of two texts.
pub fn keeps_the_limit(alloc: Global) -> Result<bool, AllocError> {
    let mut pool = Pool::new(alloc, MapKey::known());
    let mut view = View::new(alloc, MapKey::known(), 2)?;
    drops_the_least_recently_used(&mut view, &mut pool)
}

/// A text of the quota's size drops all others, one that is larger is refused, and the empty one
/// costs nothing.
fn drops_for_the_quota(view: &mut View, pool: &mut Pool) -> Result<bool, AllocError>
    requires { IsViewInPool 10 pool.old view.old }
{
    let small = is_stored(view, pool, 10, b"aaaa")?;
    let large = is_stored(view, pool, 10, b"01234567890")?;
    let is_small_left = has(view, &[b"aaaa"], 4, b"01234567890");
    let just = are_stored(view, pool, 10, &[b"0123456789", b""])?;
    Ok(small && !large && is_small_left && just && has(view, &[b"0123456789"], 10, b"aaaa"))
}

/// Whether an instance keeps a quota of ten bytes.
pub fn keeps_the_quota(alloc: Global) -> Result<bool, AllocError> {
    let mut pool = Pool::new(alloc, MapKey::known());
    let mut view = View::new(alloc, MapKey::known(), 100)?;
    drops_for_the_quota(&mut view, &mut pool)
}
