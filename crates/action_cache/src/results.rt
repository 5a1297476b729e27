//! The results of an instance's actions, the most recently used first.

ghost use Rattle.std.specs.Prelude.{◌≡◌, ◌+◌, ◌-◌, ◌<◌, ◌≤◌, ◌⊎◌, true, false, [], ◌∷◌, length, map, is_some, option_map, IfOk, OnOk, OnErr};
ghost use Rattle.std.specs.Option.{option_copied};
ghost use Rattle.std.specs.Map.{lookup, remove_entry};
ghost use Rattle.digest.specs.Naming.{same_digest};
ghost use Rattle.instance_view.specs.Visible.{with_match_first, blobs_length, without_oldest};
ghost use Rattle.instance_view.specs.Insertion.{text_length};
ghost use Rattle.action_cache.specs.Results.{result_shown, front_within, results_after_store};
ghost use Rattle.action_cache.specs.Lengths.{length_or_zero};
ghost use Rattle.instance_limits.specs.Shown.{limits_value};

use crate::dropped::DroppedResults;
use digest::Digest;
use instance_limits::Limits;
use keyed_maps::{KeyedCache, MapKey, new_cache};
use std::alloc::{AllocError, Global};
use std::marker::Model;
use std::num::NonZeroUsize;

/// The most results, and the most bytes of them, that limits allow.
const MOST: usize = 1 << 31;

/// One more than there are at most, since the oldest goes after the newest has come. No room is
/// made for as many before they are there.
const CAPACITY: usize = MOST + 1;

type Cache = KeyedCache<Digest, Vec<u8>>;

/// Makes the pair of the digest the most recently used.
fn promote(cache: &mut Cache, digest: &Digest)
    ensures used { map result_shown cache.new.entries
        ≡ with_match_first (same_digest digest.now) (map result_shown cache.old.entries) }
    ensures total { blobs_length (map result_shown cache.new.entries)
        ≡ blobs_length (map result_shown cache.old.entries) }
    ensures length { length cache.new.entries ≡ length cache.old.entries }
    ensures cap { cache.new.cap ≡ cache.old.cap }
{
    cache.promote(digest);
}

/// The bytes of the digest.
#[tactic(auto, using(crate::proofs::Pairs::lookup_some, crate::proofs::Pairs::lookup_none))]
fn find<'a>(cache: &'a Cache, digest: &Digest) -> Option<&'a [u8]>
    ensures { option_copied result
        ≡ lookup (same_digest digest.now) (map result_shown cache.now.entries) }
{
    let text = cache.peek(digest)?;
    Some(text.as_slice())
}

/// How long bytes are, and 0 for none.
fn length_given(text: Option<Vec<u8>>) -> usize
    ensures { result ≡ length_or_zero (option_map (λ v. v.items) text) }
{
    match text {
        Some(text) => text.len(),
        None => 0,
    }
}

/// How long the bytes of a pair are, and 0 for none.
fn text_length(pair: Option<(Digest, Vec<u8>)>) -> usize
    ensures { result ≡ text_length (option_map result_shown pair) }
{
    match pair {
        Some((_, text)) => text.len(),
        None => 0,
    }
}

/// Puts a pair first, in the place of an earlier one, and says how long the earlier one's bytes
/// were.
fn put(cache: &mut Cache, digest: Digest, text: Vec<u8>) -> Result<usize, AllocError>
    requires cap { cache.old.cap ≡ CAPACITY }
    requires length { length cache.old.entries ≤ MOST }
    ensures put { OnOk result (map result_shown cache.new.entries ≡ (digest, text.items)
        ∷ remove_entry (same_digest digest) (map result_shown cache.old.entries)) }
    ensures dropped { IfOk result (λ dropped.
        blobs_length (map result_shown cache.new.entries) + dropped
        ≡ blobs_length (map result_shown cache.old.entries) + length text.items) }
    ensures cap { cache.new.cap ≡ cache.old.cap }
    ensures err { OnErr result (cache.new ≡ cache.old) }
{
    let earlier = cache.put(digest, text)?;
    Ok(length_given(earlier))
}

/// Takes out the least recently used pair, and says how long its bytes were.
fn pop(cache: &mut Cache) -> usize
    ensures shorter { map result_shown cache.new.entries
        ≡ without_oldest (map result_shown cache.old.entries) }
    ensures dropped { blobs_length (map result_shown cache.new.entries) + result
        ≡ blobs_length (map result_shown cache.old.entries) }
    ensures length { length cache.new.entries ≡ length cache.old.entries - 1 }
    ensures cap { cache.new.cap ≡ cache.old.cap }
{
    text_length(cache.pop_lru())
}

/// Whether there are more results, or bytes, than the limits allow.
fn is_over(cache: &Cache, limits: Limits, bytes: u64) -> bool
    ensures over { result ≡ true →
        ((limits_value limits).results < length cache.now.entries)
        ⊎ ((limits_value limits).result_bytes < bytes) }
    ensures few { result ≡ false → length cache.now.entries ≤ (limits_value limits).results }
    ensures short { result ≡ false → bytes ≤ (limits_value limits).result_bytes }
{
    cache.len() as u64 > limits.results() || bytes > limits.result_bytes()
}

/// Takes out the least recently used pairs until the limits are kept.
fn trim(cache: &mut Cache, limits: Limits, bytes: &mut u64, drops: &mut DroppedResults)
    requires bytes { bytes.old ≡ blobs_length (map result_shown cache.old.entries) }
    ensures entries { map result_shown cache.new.entries
        ≡ front_within (limits_value limits).results (limits_value limits).result_bytes
        (map result_shown cache.old.entries) }
    ensures bytes { bytes.new ≡ blobs_length (map result_shown cache.new.entries) }
    ensures few { length cache.new.entries ≤ MOST }
    ensures short { bytes.new ≤ MOST }
    ensures cap { cache.new.cap ≡ cache.old.cap }
{
    'results: while is_over(cache, limits, *bytes) {
        *drops = drops.with(cache.len() as u64 > limits.results());
        *bytes -= pop(cache) as u64;
    }
}

/// Stores a result that is not too long, and takes out the oldest past the limits.
fn store(
    cache: &mut Cache,
    limits: Limits,
    bytes: &mut u64,
    drops: &mut DroppedResults,
    digest: Digest,
    text: Vec<u8>,
) -> Result<(), AllocError>
    requires bytes { bytes.old ≡ blobs_length (map result_shown cache.old.entries) }
    requires cap { cache.old.cap ≡ CAPACITY }
    requires few { length cache.old.entries ≤ MOST }
    requires short { bytes.old ≤ MOST }
    requires fits { length text.items ≤ (limits_value limits).result_bytes }
    ensures entries { OnOk result (map result_shown cache.new.entries
        ≡ front_within (limits_value limits).results (limits_value limits).result_bytes
        ((digest, text.items)
        ∷ remove_entry (same_digest digest) (map result_shown cache.old.entries))) }
    ensures bytes { bytes.new ≡ blobs_length (map result_shown cache.new.entries) }
    ensures few { length cache.new.entries ≤ MOST }
    ensures short { bytes.new ≤ MOST }
    ensures cap { cache.new.cap ≡ cache.old.cap }
    ensures err { OnErr result (map result_shown cache.new.entries
        ≡ map result_shown cache.old.entries) }
{
    let length = text.len() as u64;
    let dropped = put(cache, digest, text)?;
    *bytes = *bytes + length - dropped as u64;
    trim(cache, limits, bytes, drops);
    Ok(())
}

/// An instance's results under the digests of their actions, the most recently used first. They own
/// their bytes.
pub struct Results {
    cache: Cache,
    bytes: u64,
    /// For an operator alone.
    drops: DroppedResults,
}

// Written out, so that no crate above proves again that each part of it may be dropped.
impl Drop for Results {
    fn drop(self) {
        let Results {
            cache,
            bytes: _,
            drops: _,
        } = self;
        drop(cache);
    }
}

impl Model for Results {
    ghost use Rattle.std.specs.Prelude.{◌≡◌, ◌≤◌, List, length, map};
    ghost use Rattle.action_cache.specs.declared.results.TheConstants.{MOST, CAPACITY};
    ghost use Rattle.instance_view.specs.Visible.{Blob, blobs_length};
    ghost use Rattle.action_cache.specs.Results.{result_shown};

    ghost Value = { List Blob };

    ghost view = { λ r. map result_shown r.cache.entries };

    ghost invariant = { λ r. (r.bytes ≡ blobs_length (map result_shown r.cache.entries))
        × (r.cache.cap ≡ CAPACITY)
        × (length r.cache.entries ≤ MOST) × (r.bytes ≤ MOST) };
}

impl Results {
    /// No results. No promise speaks of the key.
    pub fn new(alloc: Global, key: MapKey) -> Result<Results, AllocError>
        ensures { IfOk result (λ results. results ≡ []) }
    {
        let most = NonZeroUsize::new(CAPACITY).unwrap();
        let cache = new_cache(alloc, key, most)?;
        Ok(Results {
            cache,
            bytes: 0,
            drops: DroppedResults::none(),
        })
    }

    /// How many results there are.
    pub fn len(&self) -> usize
        ensures { result ≡ length self.now }
    {
        self.cache.len()
    }

    /// What was dropped for the limits.
    pub fn dropped(&self) -> DroppedResults {
        self.drops
    }

    /// The bytes of an action's result. This is no use of it.
    pub fn get(&self, action: &Digest) -> Option<&[u8]>
        ensures { option_copied result ≡ lookup (same_digest action.now) self.now }
    {
        find(&self.cache, action)
    }

    /// Makes an action's result the most recently used. It takes no memory.
    pub fn touch(&mut self, action: &Digest)
        ensures { self.new ≡ with_match_first (same_digest action.now) self.old }
    {
        promote(&mut self.cache, action);
    }

    /// Stores the bytes of an action's result, in the place of an earlier one. Of all results the
    /// longest front stays that has no more results and no more bytes than the limits allow; one
    /// that has more bytes changes nothing.
    pub fn update(
        &mut self,
        limits: Limits,
        action: &Digest,
        text: Vec<u8>,
    ) -> Result<(), AllocError>
        ensures ok { OnOk result (self.new
            ≡ results_after_store (limits_value limits) action.now text.items self.old) }
        ensures err { OnErr result (self.new ≡ self.old) }
    {
        if text.len() as u64 > limits.result_bytes() {
            return Ok(());
        }
        store(
            &mut self.cache,
            limits,
            &mut self.bytes,
            &mut self.drops,
            *action,
            text,
        )
    }
}
