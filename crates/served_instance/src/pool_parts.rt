//! The texts of a pool as the sources of ranges.

ghost use Rattle.std.specs.Prelude.{◌<◌, length};
ghost use Rattle.blob_pool.specs.Slots.{text_at};
ghost use Rattle.grpc_sending.specs.Parts.{IsPart};

use blob_pool::{Kept, Pool};
use grpc_sending::Parts;

/// The texts of a pool, by the numbers of their slots.
#[derive(Drop)]
pub(crate) struct PoolParts<'a> {
    pub(crate) pool: &'a Pool,
}

impl<'a> Parts for PoolParts<'a> {
    ghost text_of = { λ it n. text_at it.pool.now n };

    fn part(&self, source: usize, from: u64, most: u32) -> &[u8] {
        self.pool.part(Kept::of_number(source), from, most)
    }
}
