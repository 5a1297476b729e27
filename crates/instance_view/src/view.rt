//! An instance's texts under their digests, the most recently used first.

ghost use Rattle.std.specs.Prelude.{◌≡◌, ◌+◌, ◌-◌, ◌<◌, ◌≤◌, ◌^◌, ℕ, List, [], ◌∷◌, ◌++◌, None, Some, false, length, take, is_some, option_map, IfOk, IfErr, IfSome, IfNone, OnOk, OnErr};
ghost use Rattle.std.specs.Option.{option_copied};
ghost use Rattle.std.specs.Map.{lookup};
ghost use Rattle.digest.specs.declared.Digest.{Digest};
ghost use Rattle.digest.specs.Naming.{same_digest};
ghost use Rattle.blob_pool.specs.Slots.{Slots};
ghost use Rattle.blob_pool.specs.Moves.{Moves, AreHeld, one_at, no_holders};
ghost use Rattle.instance_view.specs.Visible.{visible_text, visible_after_use, without_oldest};
ghost use Rattle.instance_view.specs.Shown.{ViewEntry, ViewValue, blobs_in, entry_holders, visible_in, holders, sizes, text_seen, holders_seen, size_of};

use crate::dropped::{Dropped, Drops};
use blob_pool::{Draft, Kept, Pool, keep, release_kept};
use digest::Digest;
use keyed_maps::{KeyedCache, MapKey, new_cache};
use std::alloc::{AllocError, Global};
use std::marker::Model;
use std::num::NonZeroUsize;

/// The largest limit of a view, so that the holders of a text are always counted.
pub const MOST_LIMIT: usize = 1 << 31;

type Cache = KeyedCache<Digest, Used>;

/// Where a text lies in the pool, and the moment of its last use, which is for an operator alone.
#[derive(Drop)]
struct Used {
    kept: Kept,
    moment: u64,
}

impl Model for Used {
    ghost use Rattle.std.specs.Prelude.{ℕ};

    ghost Value = { ℕ };

    ghost view = { λ u. u.kept };
}

impl Used {
    fn new(kept: Kept, moment: u64) -> Used
        ensures { result ≡ kept }
    {
        Used { kept, moment }
    }

    fn kept(&self) -> Kept
        ensures { result ≡ self.now }
    {
        self.kept
    }

    /// How many milliseconds went by since its last use.
    fn age(&self, moment: u64) -> u64 {
        moment.saturating_sub(self.moment)
    }
}

/// A text that an instance has.
#[derive(Clone, Copy, Debug)]
pub enum Seen {
    /// The empty text, which is always there.
    Empty,
    /// A text of the pool.
    Text(Kept),
}

/// Makes the pair of the digest the most recently used, and says whether there is one.
fn promote(cache: &mut Cache, digest: &Digest, moment: u64) -> bool
    ensures found { (p : Slots) → result
        ≡ is_some (lookup (same_digest digest.now) (blobs_in p cache.old.entries)) }
    ensures used { (p : Slots) → blobs_in p cache.new.entries
        ≡ visible_after_use digest.now (blobs_in p cache.old.entries) }
    ensures unfound { result ≡ false → cache.new.entries ≡ cache.old.entries }
    ensures holders { (k : ℕ) → entry_holders cache.new.entries k
        ≡ entry_holders cache.old.entries k }
    ensures sizes { sizes cache.new.entries ≡ sizes cache.old.entries }
    ensures cap { cache.new.cap ≡ cache.old.cap }
{
    match cache.get_mut(digest) {
        Some(used) => {
            used.moment = moment;
            true
        }
        None => false,
    }
}

/// Adds a pair that is not there.
fn put(cache: &mut Cache, digest: Digest, used: Used) -> Result<(), AllocError>
    requires absent { lookup (same_digest digest) cache.old.entries ≡ None }
    requires room { length cache.old.entries < cache.old.cap }
    ensures ok { OnOk result (cache.new.entries ≡ (digest, used) ∷ cache.old.entries) }
    ensures cap { cache.new.cap ≡ cache.old.cap }
    ensures err { OnErr result (cache.new ≡ cache.old) }
{
    cache.push(digest, used)?;
    Ok(())
}

/// Sets the slot of the pair that was added last.
fn set(cache: &mut Cache, digest: Digest, used: Used)
    requires { (k : ℕ) × (v : List ViewEntry) × (cache.old.entries ≡ (digest, k) ∷ v) }
    ensures entries { (k : ℕ) (v : List ViewEntry) → cache.old.entries ≡ (digest, k) ∷ v →
        cache.new.entries ≡ (digest, used) ∷ v }
    ensures cap { cache.new.cap ≡ cache.old.cap }
{
    let done: Result<_, _> = cache.put(digest, used);
    done.unwrap();
}

/// Takes out the most recently used pair.
fn pop_newest(cache: &mut Cache)
    ensures entries { (e : ViewEntry) (v : List ViewEntry) → cache.old.entries ≡ e ∷ v →
        cache.new.entries ≡ v }
    ensures cap { cache.new.cap ≡ cache.old.cap }
{
    cache.pop_mru();
}

/// Takes out the least recently used pair.
fn pop(cache: &mut Cache) -> Option<(Digest, Used)>
    ensures some { IfSome result (λ e. cache.old.entries ≡ cache.new.entries ++ e ∷ []) }
    ensures none { IfNone result (cache.old.entries ≡ []) }
    ensures none_new { IfNone result (cache.new.entries ≡ []) }
    ensures sizes { sizes cache.new.entries + size_of result ≡ sizes cache.old.entries }
    ensures cap { cache.new.cap ≡ cache.old.cap }
{
    cache.pop_lru()
}

/// An instance's texts under their digests, the most recently used first. A text that stands under
/// two digests has two entries, each with its own place and its own share of the quota.
pub struct View {
    cache: Cache,
    key: MapKey,
    limit: usize,
    bytes: u64,
    /// The moment of what happens, in milliseconds. It and what was dropped are for an operator
    /// alone: nothing else depends on them.
    moment: u64,
    drops: Drops,
}

// Written out, so that no crate above proves again that each part of it may be dropped.
impl Drop for View {
    fn drop(self) {
        let View {
            cache,
            key: _,
            limit: _,
            bytes: _,
            moment: _,
            drops: _,
        } = self;
        drop(cache);
    }
}

impl Model for View {
    ghost use Rattle.std.specs.Prelude.{◌≡◌, ◌+◌, ◌<◌, ◌≤◌, ◌^◌};
    ghost use Rattle.instance_view.specs.declared.view.TheConstants.{MOST_LIMIT};
    ghost use Rattle.instance_view.specs.Shown.{ViewValue, sizes};

    ghost Value = { ViewValue };

    ghost view = { λ v. record { entries = v.cache.entries; limit = v.limit } };

    ghost invariant = { λ v. (v.bytes ≡ sizes v.cache.entries) × (v.cache.cap ≡ v.limit + 1)
        × (0 < v.limit) × (v.limit ≤ MOST_LIMIT) };
}

impl View {
    /// No texts, and room for as many as the limit. No promise speaks of the key.
    pub fn new(alloc: Global, key: MapKey, limit: usize) -> Result<View, AllocError>
        requires some { 0 < limit }
        requires most { limit ≤ MOST_LIMIT }
        ensures { IfOk result (λ view. view ≡ record { entries = []; limit = limit }) }
    {
        // One more than the limit, since the oldest goes after the newest has come.
        let most = NonZeroUsize::new(limit + 1).unwrap();
        let cache = new_cache(alloc, key, most)?;
        Ok(View {
            cache,
            key,
            limit,
            bytes: 0,
            moment: 0,
            drops: Drops::none(),
        })
    }

    /// Sets the moment of what happens from now on, in milliseconds.
    pub fn set_moment(&mut self, moment: u64)
        ensures same { self.new ≡ self.old }
    {
        self.moment = moment;
    }

    /// The key of its maps, for those that are made beside it.
    pub fn key(&self) -> MapKey {
        self.key
    }

    /// What was dropped to make room.
    pub fn dropped(&self) -> Dropped {
        self.drops.shown()
    }

    /// How many texts there may be.
    pub fn limit(&self) -> usize
        ensures limit { result ≡ self.now.limit }
        ensures some { 0 < result }
        ensures most { result ≤ MOST_LIMIT }
    {
        self.limit
    }

    /// How many texts there are.
    pub fn len(&self) -> usize
        ensures { result ≡ length self.now.entries }
    {
        self.cache.len()
    }

    /// How many bytes the digests name together.
    pub fn total(&self) -> u64
        ensures { result ≡ sizes self.now.entries }
    {
        self.bytes
    }

    /// The text of the digest. This is no use of it.
    pub fn get(&self, digest: &Digest) -> Option<Seen>
        ensures text { (p : Slots) → option_map (text_seen p) result
            ≡ visible_text digest.now (visible_in p self.now) }
        ensures held { IfSome result (λ s. (k : ℕ) → holders_seen s k ≤ holders self.now k) }
    {
        if digest.is_empty() {
            return Some(Seen::Empty);
        }
        find(&self.cache, digest)
    }

    /// Whether there is a text of the digest. This is no use of it.
    pub fn contains(&self, digest: &Digest) -> bool
        ensures { (p : Slots) → result ≡ is_some (visible_text digest.now (visible_in p self.now)) }
    {
        self.get(digest).is_some()
    }

    /// Makes the text of the digest the most recently used, and says whether there is one. It takes
    /// no memory.
    pub fn touch(&mut self, digest: &Digest) -> bool
        ensures seen { (p : Slots) → result
            ≡ is_some (visible_text digest.now (visible_in p self.old)) }
        ensures used { (p : Slots) → visible_in p self.new
            ≡ visible_after_use digest.now (visible_in p self.old) }
        ensures holders { (k : ℕ) → holders self.new k ≡ holders self.old k }
        ensures limit { self.new.limit ≡ self.old.limit }
        ensures unseen { result ≡ false → self.new ≡ self.old }
    {
        promote(&mut self.cache, digest, self.moment) || digest.is_empty()
    }

    /// Adds a text that is not there, as the most recently used. The pool counts what the view
    /// holds, and fewer than 2^126 other holders of any slot; the view has at most as many texts as
    /// its limit, and their sizes with the new one are below 2^64 together. The draft is given back
    /// for want of memory only, and nothing has changed then.
    pub fn add(&mut self, pool: &mut Pool, digest: &Digest, draft: Draft) -> Result<(), Draft>
        requires absent { (p : Slots) → visible_text digest.now (visible_in p self.old) ≡ None }
        requires held { AreHeld pool.old (holders self.old) }
        requires room { length self.old.entries ≤ self.old.limit }
        requires fits { sizes self.old.entries + digest.now.size < 2 ^ 64 }
        ensures shown { OnOk result (visible_in pool.new self.new
            ≡ (digest.now, draft.text) ∷ visible_in pool.old self.old) }
        ensures length { OnOk result (length self.new.entries ≡ length self.old.entries + 1) }
        ensures limit { self.new.limit ≡ self.old.limit }
        ensures moves { Moves pool.old pool.new (holders self.old) (holders self.new) }
        ensures err { OnErr result ((self.new ≡ self.old) × (pool.new ≡ pool.old)) }
        ensures back { IfErr result (λ given. given.text ≡ draft.text) }
    {
        let nowhere = Used::new(Kept::nowhere(), self.moment);
        if put(&mut self.cache, *digest, nowhere).is_err() {
            return Err(draft);
        }
        match pool.seal(draft) {
            Ok(hold) => {
                let used = Used::new(keep(hold), self.moment);
                set(&mut self.cache, *digest, used);
                self.bytes += digest.size;
                Ok(())
            }
            Err(draft) => {
                pop_newest(&mut self.cache);
                Err(draft)
            }
        }
    }

    /// Takes out the least recently used text. It takes no memory.
    pub fn drop_oldest(&mut self, pool: &mut Pool)
        requires { AreHeld pool.old (holders self.old) }
        ensures shown { visible_in pool.new self.new
            ≡ without_oldest (visible_in pool.old self.old) }
        ensures limit { self.new.limit ≡ self.old.limit }
        ensures moves { Moves pool.old pool.new (holders self.old) (holders self.new) }
    {
        let is_for_number = self.cache.len() > self.limit;
        if let Some(entry) = pop(&mut self.cache) {
            self.bytes -= entry.0.size;
            let age = entry.1.age(self.moment);
            self.drops = self.drops.with(self.moment, age, is_for_number);
            release_kept(pool, entry.1.kept());
        }
    }
}

/// The entry of the digest.
fn find(cache: &Cache, digest: &Digest) -> Option<Seen>
    ensures text { (p : Slots) → option_map (text_seen p) result
        ≡ lookup (same_digest digest.now) (blobs_in p cache.now.entries) }
    ensures held { IfSome result (λ s. (k : ℕ) →
        holders_seen s k ≤ entry_holders cache.now.entries k) }
{
    let kept = cache.peek(digest)?;
    Some(Seen::Text(kept.kept()))
}

/// A copy of a text that an instance has.
pub fn copy_of(alloc: Global, pool: &Pool, seen: Seen) -> Result<Vec<u8>, AllocError>
    ensures { IfOk result (λ text. text.items ≡ text_seen pool.now seen) }
{
    let mut text = Vec::new(alloc);
    if let Seen::Text(kept) = seen {
        pool.copy_into(kept, &mut text)?;
    }
    Ok(text)
}
