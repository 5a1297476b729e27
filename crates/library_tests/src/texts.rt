//! Texts in pieces and in pages.

ghost use Rattle.std.specs.Prelude.{◌≡◌, ◌<◌, ◌+◌, ◌≤◌, ◌^◌, length, true};

use blob_pool::{Draft, Kept, Pool, keep, release_kept};
use digest::{Digest, HashFunction};
use keyed_maps::MapKey;
use std::alloc::{AllocError, Global};

/// How long a text of these tests is at most.
const MOST_BYTES: u64 = 1_000_000;

/// Adds a text in pieces of 1,000 bytes.
fn push_in_pieces(draft: &mut Draft, text: &[u8]) -> Result<(), AllocError>
    requires { draft.old.is_open ≡ true }
{
    for piece in text.chunks(1_000) {
        if draft.length() < MOST_BYTES && piece.len() <= 1_000 {
            draft.push(piece)?;
        }
    }
    Ok(())
}

/// Adds the parts of a text that follow one another, each of `most` bytes or less.
fn add_parts(pool: &Pool, kept: Kept, most: u32, into: &mut Vec<u8>) -> Result<(), AllocError> {
    let end = pool.length(kept);
    let mut from = 0;
    'parts: while from < end {
        let part = pool.part(kept, from, most);
        let count = part.len() as u64;
        if count == 0 || count > MOST_BYTES {
            return Ok(());
        }
        into.extend_from_slice(part)?;
        from += count;
    }
    Ok(())
}

/// Whether the text is read whole, by parts and at once.
pub fn is_read(alloc: Global, pool: &Pool, kept: Kept, text: &[u8]) -> Result<bool, AllocError> {
    let mut copy = Vec::new(alloc);
    pool.copy_into(kept, &mut copy)?;
    let mut parts = Vec::new(alloc);
    add_parts(pool, kept, 7_000, &mut parts)?;
    Ok(
        copy.as_slice() == text
            && parts.as_slice() == text
            && pool.length(kept) == text.len() as u64,
    )
}

/// Whether a text that is put in pieces comes back.
pub fn comes_back(alloc: Global, text: &[u8]) -> Result<bool, AllocError> {
    let mut pool = Pool::new(alloc, MapKey::known());
    let mut draft = Draft::new(alloc, HashFunction::Sha256);
    push_in_pieces(&mut draft, text)?;
    let is_named = draft.names(&Digest::of(text));
    match pool.seal(draft) {
        Ok(hold) => {
            let kept = keep(hold);
            let is_read = is_read(alloc, &pool, kept, text);
            release_kept(&mut pool, kept);
            Ok(is_named && is_read? && pool.stored().0 == 0)
        }
        Err(_draft) => Err(AllocError),
    }
}
