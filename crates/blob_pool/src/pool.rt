//! The pool: texts that stand once each, and the rights to them.

ghost use Rattle.std.specs.Prelude.{◌≡◌, ◌≢◌, ◌+◌, ◌<◌, ◌≤◌, ◌^◌, ◌++◌, ℕ, [], length, Some, None, IfOk, IfErr, OnOk, OnErr};
ghost use Rattle.digest.specs.Naming.{Names};
ghost use Rattle.blob_pool.specs.Pages.{part_of};
ghost use Rattle.blob_pool.specs.Slots.{text_at, count_at, held_text_at, IsShared, texts_stored, bytes_stored};
ghost use Rattle.blob_pool.specs.Alone.{bytes_alone, holders_at};
ghost use Rattle.blob_pool.specs.Moves.{Moves, HasRoom, no_holders, one_at};
ghost use Rattle.blob_pool.specs.declared.text.TheConstants.{MOST_BYTES, PAGE_BYTES};

use crate::alone::bytes_alone;
use crate::draft::Draft;
use crate::hold::{Hold, Kept, keep};
use crate::index::Index;
use crate::slot::Slot;
use crate::slots::{Totals, hold_again, put_text, take_text, text};
use digest::{Digest, HashFunction};
use keyed_maps::MapKey;
use slab::Slab;
use std::alloc::{AllocError, Global};
use std::marker::Model;

/// Texts that stand once each, in slots, with the number of holders of each slot.
pub struct Pool {
    alloc: Global,
    slots: Slab<Slot>,
    index: Index,
    totals: Totals,
}

// Written out, so that no crate above proves again that each part of it may be dropped.
impl Drop for Pool {
    fn drop(self) {
        let Pool {
            slots,
            index,
            alloc: _,
            totals: _,
        } = self;
        drop(slots);
        drop(index);
    }
}

impl Model for Pool {
    ghost use Rattle.blob_pool.specs.Slots.{Slots};
    ghost use Rattle.blob_pool.specs.Listed.{IsPool, AreTotals};

    ghost Value = { Slots };

    ghost view = { λ p. p.slots.slots };

    ghost invariant = { λ p. IsPool p.slots.slots p.index
        × AreTotals p.slots.slots p.totals };
}

impl Pool {
    /// No texts. The key decides where the pool looks for a text, and no promise speaks of it.
    pub fn new(alloc: Global, key: MapKey) -> Pool
        ensures { result ≡ [] }
    {
        Pool {
            alloc,
            slots: Slab::new(alloc),
            index: Index::new(alloc, key),
            totals: Totals { texts: 0, bytes: 0 },
        }
    }

    /// The key of its maps, for those that are made beside it.
    pub fn key(&self) -> MapKey {
        self.index.key()
    }

    /// How many texts are held, and how many bytes they have together. It takes no memory.
    pub fn stored(&self) -> (u64, u128)
        ensures texts { result.0 ≡ texts_stored self.now }
        ensures bytes { result.1 ≡ bytes_stored self.now }
        // Each text that is held stands in one slot.
        ensures shared { IsShared self.now }
        // Nothing stands there that nobody holds.
        ensures held { (k : ℕ) → held_text_at self.now k ≢ None → 0 < count_at self.now k }
    {
        (self.totals.texts, self.totals.bytes)
    }

    /// Bytes that a digest is known to name, to be sealed here. Under one by SHA-256 they are not
    /// hashed again. There are at most 2^48 of them.
    pub fn draft_of(&self, digest: &Digest, bytes: &[u8]) -> Result<Draft, AllocError>
        requires named { Names digest.now bytes.now }
        requires most { length bytes.now ≤ MOST_BYTES }
        ensures { IfOk result (λ draft. draft.text ≡ bytes.now) }
    {
        Draft::of(self.alloc, digest, bytes)
    }

    /// Holds the text of a draft: in the slot that has it already, or in a free one. The draft is
    /// given back for want of memory only, and the pool is as before then. Each slot has fewer than
    /// 2^127 holders.
    pub fn seal(&mut self, draft: Draft) -> Result<Hold, Draft>
        requires { HasRoom self.old }
        ensures text { IfOk result (λ hold. text_at self.new hold ≡ draft.text) }
        ensures moves { IfOk result (λ hold. Moves self.old self.new no_holders (one_at hold)) }
        // A text that is held already is not stored again.
        ensures same { IfOk result (λ hold. (k : ℕ) → 0 < count_at self.old k →
            text_at self.old k ≡ draft.text → hold ≡ k) }
        ensures err { OnErr result (self.new ≡ self.old) }
        ensures back { IfErr result (λ given. given.text ≡ draft.text) }
    {
        match put_text(&mut self.slots, &mut self.index, &mut self.totals, draft) {
            Ok(slot) => Ok(Hold::of(slot)),
            Err(draft) => Err(draft),
        }
    }

    /// Holds a text of at most 2^48 bytes, as `seal` does. Each slot has fewer than 2^127 holders.
    /// An error changes nothing.
    pub fn put(&mut self, bytes: &[u8]) -> Result<Hold, AllocError>
        requires room { HasRoom self.old }
        requires most { length bytes.now ≤ MOST_BYTES }
        ensures text { IfOk result (λ hold. text_at self.new hold ≡ bytes.now) }
        ensures moves { IfOk result (λ hold. Moves self.old self.new no_holders (one_at hold)) }
        ensures same { IfOk result (λ hold. (k : ℕ) → 0 < count_at self.old k →
            text_at self.old k ≡ bytes.now → hold ≡ k) }
        ensures err { OnErr result (self.new ≡ self.old) }
    {
        let mut draft = Draft::new(self.alloc, HashFunction::Sha256);
        draft.push(bytes)?;
        match self.seal(draft) {
            Ok(hold) => Ok(hold),
            Err(_draft) => Err(AllocError),
        }
    }

    /// Another holder of the text. It takes no memory.
    pub fn again(&mut self, hold: &Hold) -> Hold
        requires held { 0 < count_at self.old hold.now }
        requires room { count_at self.old hold.now < 2 ^ 127 }
        ensures hold { result ≡ hold.now }
        ensures moves { Moves self.old self.new no_holders (one_at hold.now) }
    {
        let slot = hold.slot();
        hold_again(&mut self.slots, slot);
        Hold::of(slot)
    }

    /// Another holder of the text that was kept. It takes no memory.
    pub fn hold_again(&mut self, kept: Kept) -> Kept
        requires held { 0 < count_at self.old kept }
        requires room { count_at self.old kept < 2 ^ 127 }
        ensures kept { result ≡ kept }
        ensures moves { Moves self.old self.new no_holders (one_at kept) }
    {
        hold_again(&mut self.slots, kept.number());
        kept
    }

    /// Gives up the right to a text. A text that nobody holds goes. It takes no memory.
    pub fn release(&mut self, hold: Hold)
        requires { 0 < count_at self.old hold }
        ensures { Moves self.old self.new (one_at hold) no_holders }
    {
        let slot = keep(hold).number();
        take_text(&mut self.slots, &mut self.index, &mut self.totals, slot);
    }

    /// The right that was kept. It takes no memory.
    pub fn back(&self, kept: Kept) -> Hold
        requires { 0 < count_at self.now kept }
        ensures { result ≡ kept }
    {
        Hold::of(kept.number())
    }

    /// How many bytes the text has: none where no text is held. It takes no memory.
    pub fn length(&self, kept: Kept) -> u64
        ensures length { result ≡ length (text_at self.now kept) }
        ensures most { result ≤ MOST_BYTES }
    {
        match text(&self.slots, kept.number()) {
            Some(text) => text.len(),
            None => 0,
        }
    }

    /// How many bytes the texts have together that nobody holds but these holders: numbers of slots,
    /// each as often as the slot is held. It takes no memory.
    pub fn bytes_alone(&self, holders: Vec<usize>) -> u128
        ensures { result ≡ bytes_alone (holders_at holders.items) 0 self.now }
    {
        bytes_alone(&self.slots, holders)
    }

    /// What the text has from a place on, up to the end of its page of 65,536 bytes and to `most`
    /// bytes: nothing where no text is held. It takes no memory.
    pub fn part(&self, kept: Kept, from: u64, most: u32) -> &[u8]
        ensures { result.now ≡ part_of PAGE_BYTES (text_at self.now kept) from most }
    {
        match text(&self.slots, kept.number()) {
            Some(text) => text.part(from, most),
            None => &[],
        }
    }

    /// Adds the text to the end of a vector: nothing where no text is held.
    pub fn copy_into(&self, kept: Kept, into: &mut Vec<u8>) -> Result<(), AllocError>
        ensures ok { OnOk result (into.new.items ≡ into.old.items ++ text_at self.now kept) }
        ensures err { OnErr result (into.new.items ≡ into.old.items) }
    {
        match text(&self.slots, kept.number()) {
            Some(text) => text.copy_into(into),
            None => Ok(()),
        }
    }
}

/// Gives up the right that was kept. A text that nobody holds goes. It takes no memory.
pub fn release_kept(pool: &mut Pool, kept: Kept)
    requires { 0 < count_at pool.old kept }
    ensures { Moves pool.old pool.new (one_at kept) no_holders }
{
    let hold = pool.back(kept);
    pool.release(hold);
}
