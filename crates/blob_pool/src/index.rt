//! The index of a pool: the slots in which a text with a digest may stand.

ghost use Rattle.std.specs.Prelude.{◌≡◌, ◌≢◌, ◌⊎◌, ℕ, [], Some, Contains, OnOk, OnErr};
ghost use Rattle.std.specs.Map.{lookup};
ghost use Rattle.digest.specs.declared.Digest.{Digest};
ghost use Rattle.digest.specs.Naming.{same_digest};
ghost use Rattle.blob_pool.specs.Listed.{Listing, IsInListing};

use digest::Digest;
use keyed_maps::{KeyedTable, MapKey};
use std::alloc::{AllocError, Global};
use std::marker::Model;

type Firsts = KeyedTable<Digest, usize>;

/// Lists a slot under its digest.
fn list(
    firsts: &mut Firsts,
    others: &mut Vec<usize>,
    digest: &Digest,
    slot: usize,
) -> Result<(), AllocError>
    ensures listed { OnOk result ((lookup (same_digest digest.now) firsts.new.entries
        ≡ Some slot) ⊎ Contains others.new.items slot) }
    ensures firsts { OnOk result ((d : Digest) (k : ℕ) →
        lookup (same_digest d) firsts.old.entries ≡ Some k →
        lookup (same_digest d) firsts.new.entries ≡ Some k) }
    ensures others { OnOk result ((k : ℕ) → Contains others.old.items k →
        Contains others.new.items k) }
    ensures err { OnErr result ((firsts.new.entries ≡ firsts.old.entries)
        × (others.new.items ≡ others.old.items)) }
{
    if firsts.contains_key(digest) {
        others.push(slot)?;
    } else {
        firsts.insert(*digest, slot)?;
    }
    Ok(())
}

/// Takes a slot off the list.
fn unlist(firsts: &mut Firsts, others: &mut Vec<usize>, digest: &Digest, slot: usize)
    ensures off { lookup (same_digest digest.now) firsts.new.entries ≢ Some slot }
    ensures firsts { (d : Digest) (k : ℕ) → k ≢ slot →
        lookup (same_digest d) firsts.old.entries ≡ Some k →
        lookup (same_digest d) firsts.new.entries ≡ Some k }
    ensures others { (k : ℕ) → k ≢ slot → Contains others.old.items k →
        Contains others.new.items k }
{
    let first = firsts.get(digest).copied();
    if first == Some(slot) {
        firsts.remove(digest);
    } else {
        remove(others, slot);
    }
}

/// Takes a number out of a list.
fn remove(numbers: &mut Vec<usize>, number: usize)
    ensures { (k : ℕ) → k ≢ number → Contains numbers.old.items k → Contains numbers.new.items k }
{
    let at = numbers.iter().position(|n| *n == number);
    if let Some(i) = at {
        numbers.swap_remove(i);
    }
}

/// The slots by the digests of their texts: for each digest the first, and apart those that came
/// when their digest had one already.
#[derive(Drop)]
pub struct Index {
    firsts: Firsts,
    others: Vec<usize>,
}

impl Model for Index {
    ghost use Rattle.blob_pool.specs.Listed.{Listing};

    ghost Value = { Listing };

    ghost view = { λ i. record { firsts = i.firsts.entries; others = i.others.items } };
}

impl Index {
    /// No slots yet.
    pub fn new(alloc: Global, key: MapKey) -> Index
        ensures firsts { result.firsts ≡ [] }
        ensures others { result.others ≡ [] }
    {
        Index {
            firsts: KeyedTable::with_hasher(alloc, key),
            others: Vec::new(alloc),
        }
    }

    /// The key of its table.
    pub fn key(&self) -> MapKey {
        *self.firsts.hasher()
    }

    /// The first slot of a digest.
    pub fn first(&self, digest: &Digest) -> Option<usize>
        ensures { result ≡ lookup (same_digest digest.now) self.now.firsts }
    {
        self.firsts.get(digest).copied()
    }

    /// The slots that came when their digest had one.
    pub fn others(&self) -> &[usize]
        ensures { result.now ≡ self.now.others }
    {
        &self.others
    }

    /// Lists a slot under its digest.
    pub fn list(&mut self, digest: &Digest, slot: usize) -> Result<(), AllocError>
        ensures listed { OnOk result (IsInListing self.new digest.now slot) }
        ensures kept { OnOk result ((d : Digest) (k : ℕ) → IsInListing self.old d k →
            IsInListing self.new d k) }
        ensures err { OnErr result (self.new ≡ self.old) }
    {
        list(&mut self.firsts, &mut self.others, digest, slot)
    }

    /// Takes a slot off the list. It takes no memory.
    pub fn unlist(&mut self, digest: &Digest, slot: usize)
        ensures off { lookup (same_digest digest.now) self.new.firsts ≢ Some slot }
        ensures kept { (d : Digest) (k : ℕ) → k ≢ slot → IsInListing self.old d k →
            IsInListing self.new d k }
    {
        unlist(&mut self.firsts, &mut self.others, digest, slot);
    }
}
