//! Texts that some holders have alone.

ghost use Rattle.std.specs.Prelude.{◌≡◌, ◌≢◌, ◌<◌, ◌≤◌, ◌==◌, if◌then◌else◌, ℕ, length, None};
ghost use Rattle.blob_pool.specs.declared.text.TheConstants.{MOST_BYTES};
ghost use Rattle.blob_pool.specs.Slots.{held_text_at, text_at, count_at};
ghost use Rattle.blob_pool.specs.Alone.{bytes_alone, holders_at};

use crate::slot::Slot;
use slab::Slab;

/// How many bytes the texts have together that nobody holds but these holders: numbers of slots,
/// each as often as the slot is held.
pub fn bytes_alone(slots: &Slab<Slot>, mut holders: Vec<usize>) -> u128
    requires held { (k : ℕ) → held_text_at slots.now.slots k ≢ None →
        0 < count_at slots.now.slots k }
    requires short { (k : ℕ) → length (text_at slots.now.slots k) ≤ MOST_BYTES }
    ensures { result ≡ bytes_alone (holders_at holders.items) 0 slots.now.slots }
{
    holders.sort_unstable();
    let mut bytes = 0;
    let mut rest = holders.as_slice();
    'texts: while let Some(slot) = rest.first().copied() {
        let count = rest.partition_point(|number| *number <= slot);
        bytes += bytes_if_held_by(slots, slot, count as u128);
        rest = &rest[count..];
    }
    bytes
}

/// How many bytes the text of a slot has, where it has so many holders; else none.
fn bytes_if_held_by(slots: &Slab<Slot>, slot: usize, count: u128) -> u128
    ensures { result ≡ if count_at slots.now.slots slot == count
        then length (text_at slots.now.slots slot) else 0 }
{
    match slots.get(slot) {
        Some(held) if held.count() == count => held.text().len() as u128,
        _ => 0,
    }
}
