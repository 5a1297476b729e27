//! Texts that a test stores.

ghost use Rattle.quota_evict.specs.InPool.{IsViewInPool};

use blob_pool::Pool;
use digest::Digest;
use instance_view::View;
use quota_evict::admit;
use std::alloc::AllocError;

/// The instance's quota, in bytes.
const QUOTA: u64 = 100_000_000;

/// Stores a text, and gives its digest.
pub fn store(view: &mut View, pool: &mut Pool, text: &[u8]) -> Result<Digest, AllocError>
    requires kept { IsViewInPool 100000000 pool.old view.old }
    ensures kept { IsViewInPool 100000000 pool.new view.new }
{
    let digest = Digest::of(text);
    match admit(view, pool, QUOTA, &digest, text) {
        Ok(()) => Ok(digest),
        Err(_error) => Err(AllocError),
    }
}
