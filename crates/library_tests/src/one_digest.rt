//! Two texts beside one digest.

ghost use Rattle.std.specs.Prelude.{◌≡◌, ◌<◌, ◌≤◌, ◌^◌, length, IfOk};
ghost use Rattle.blob_pool.specs.Slots.{count_at};
ghost use Rattle.blob_pool.specs.Moves.{Moves, HasRoom, no_holders, one_at};

use crate::texts::is_read;
use blob_pool::{Draft, Kept, Pool, keep, release_kept};
use digest::{Digest, HashFunction};
use keyed_maps::MapKey;
use std::alloc::{AllocError, Global};

/// Holds a text beside a digest, and says whether that names it.
fn hold_beside(
    alloc: Global,
    pool: &mut Pool,
    digest: &Digest,
    text: &[u8],
) -> Result<(bool, Kept), AllocError>
    requires room { HasRoom pool.old }
    requires most { length text.now ≤ 2 ^ 48 }
    ensures { IfOk result (λ held. Moves pool.old pool.new no_holders (one_at held.1)) }
{
    let mut draft = Draft::new(alloc, digest.function());
    draft.push(text)?;
    let is_named = draft.names(digest);
    match pool.seal(draft) {
        Ok(hold) => Ok((is_named, keep(hold))),
        Err(_draft) => Err(AllocError),
    }
}

/// Whether the text that is kept is this one. It is released.
fn is_given_back(
    alloc: Global,
    pool: &mut Pool,
    kept: Kept,
    text: &[u8],
) -> Result<bool, AllocError>
    requires { 0 < count_at pool.old kept }
    ensures { Moves pool.old pool.new (one_at kept) no_holders }
{
    let is_read = is_read(alloc, pool, kept, text);
    release_kept(pool, kept);
    is_read
}

/// Whether two texts beside one digest both stand and are given back as themselves, and one text
/// beside its digests by both functions stands once.
pub fn both_stand(alloc: Global) -> Result<bool, AllocError> {
    let mut pool = Pool::new(alloc, MapKey::known());
    let named = Digest::of(b"first");
    let other = Digest::by(HashFunction::Sha512, b"first");
    let first = hold_beside(alloc, &mut pool, &named, b"first")?;
    let second = hold_beside(alloc, &mut pool, &named, b"second")?;
    let again = hold_beside(alloc, &mut pool, &other, b"first")?;
    let (texts, bytes) = pool.stored();
    let is_first = is_given_back(alloc, &mut pool, first.1, b"first")?;
    let is_second = is_given_back(alloc, &mut pool, second.1, b"second")?;
    let is_again = is_given_back(alloc, &mut pool, again.1, b"first")?;
    let are_named_right = first.0 && !second.0 && again.0;
    let are_given_back = is_first && is_second && is_again;
    Ok(are_named_right && are_given_back && texts == 2 && bytes == 11 && pool.stored().0 == 0)
}
