//! Texts that are found by their digests, where each look and each copy is counted.

ghost use Rattle.std.specs.Prelude.{◌≡◌, ◌+◌, ◌≤◌, length, is_some, option_map, IfOk};
ghost use Rattle.blob_pool.specs.Slots.{Slots, text_at};
ghost use Rattle.instance_view.specs.Shown.{text_seen};
ghost use Rattle.instance_view.specs.Texts.{TextsValue, WorkValue, counted};

use crate::sight::Sight;
use crate::view::{Seen, copy_of};
use crate::work::Work;
use blob_pool::{Kept, Pool};
use digest::Digest;
use keyed_maps::MapKey;
use std::alloc::{AllocError, Global};
use std::marker::Model;

/// Texts of a pool that are found by their digests.
pub trait Finds {
    ghost use Rattle.std.specs.Prelude.{◌≡◌, is_some, option_map};
    ghost use Rattle.blob_pool.specs.Slots.{Slots};
    ghost use Rattle.instance_view.specs.Shown.{text_seen};
    ghost use Rattle.instance_view.specs.Texts.{Lookup};

    /// What is found in a pool.
    ghost found_in: { Slots → Self → Lookup };

    /// The text of a digest.
    fn get(&self, digest: &Digest) -> Option<Seen>
        ensures { (p : Slots) → option_map (text_seen p) result
            ≡ found_in p self.now digest.now };

    /// Whether there is a text of the digest.
    fn contains(&self, digest: &Digest) -> bool
        ensures { (p : Slots) → result ≡ is_some (found_in p self.now digest.now) };
}

impl<'a> Finds for Sight<'a> {
    ghost use Rattle.instance_view.specs.Texts.{texts_of};

    ghost found_in = { texts_of };

    fn get(&self, digest: &Digest) -> Option<Seen> {
        self.get(digest)
    }

    fn contains(&self, digest: &Digest) -> bool {
        self.contains(digest)
    }
}

/// Texts that are found in a pool. Its fields are this module's own: whoever has one of these, and
/// nothing else to look in, looks and reads by the methods alone, and each time is counted.
#[derive(Drop)]
pub struct Texts<'a, F: Finds> {
    found: &'a F,
    pool: &'a Pool,
}

impl<'a, F: Finds> Model for Texts<'a, F> {
    ghost use Rattle.instance_view.specs.Texts.{TextsValue};

    ghost Value = { TextsValue F };

    ghost view = { λ t. record { pool = t.pool.now; found = t.found.now } };
}

impl<'a, F: Finds> Texts<'a, F> {
    /// The texts that are found in the pool.
    pub fn new(found: &'a F, pool: &'a Pool) -> Texts<'a, F>
        ensures { result ≡ record { pool = pool.now; found = found.now } }
    {
        Texts { found, pool }
    }

    /// The key of the pool's maps, for those that are made beside them.
    pub fn key(&self) -> MapKey {
        self.pool.key()
    }

    /// The text of a digest. This is one look, and nothing of the text is read.
    pub fn get(&self, work: &mut Work, digest: &Digest) -> Option<Seen>
        ensures text { option_map (text_seen self.now.pool) result
            ≡ F.found_in self.now.pool self.now.found digest.now }
        ensures counted { work.new.looks ≡ counted work.old.looks 1 }
        ensures looks { work.new.looks ≤ work.old.looks + 1 }
        ensures bytes { work.new.bytes ≡ work.old.bytes }
    {
        work.look();
        self.found.get(digest)
    }

    /// Whether there is a text of the digest. This is one look.
    pub fn contains(&self, work: &mut Work, digest: &Digest) -> bool
        ensures there { result
            ≡ is_some (F.found_in self.now.pool self.now.found digest.now) }
        ensures counted { work.new.looks ≡ counted work.old.looks 1 }
        ensures looks { work.new.looks ≤ work.old.looks + 1 }
        ensures bytes { work.new.bytes ≡ work.old.bytes }
    {
        work.look();
        self.found.contains(digest)
    }

    /// How long a text is. Nothing of it is read.
    pub fn length(&self, kept: Kept) -> u64
        ensures { result ≡ length (text_at self.now.pool kept) }
    {
        self.pool.length(kept)
    }

    /// A copy of a text. Each of its bytes is counted.
    pub fn copy(&self, alloc: Global, work: &mut Work, seen: Seen) -> Result<Vec<u8>, AllocError>
        ensures text { IfOk result (λ text. text.items ≡ text_seen self.now.pool seen) }
        ensures counted { work.new.bytes
            ≡ counted work.old.bytes (length (text_seen self.now.pool seen)) }
        ensures bytes { work.new.bytes
            ≤ work.old.bytes + length (text_seen self.now.pool seen) }
        ensures looks { work.new.looks ≡ work.old.looks }
    {
        let length = match seen {
            Seen::Empty => 0,
            Seen::Text(kept) => self.pool.length(kept),
        };
        work.read(length);
        copy_of(alloc, self.pool, seen)
    }
}
