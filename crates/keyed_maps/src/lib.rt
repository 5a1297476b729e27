//! Maps and sets whose places depend on a key that no client knows.
//!
//! Clients choose digests, names and numbers. In a map whose hashes they can compute, they choose
//! such ones as fall together, and then each look-up goes through all of them. So this crate alone
//! uses the kit's maps of hashes, and gives them out with this hasher.
#![tactic(auto)]

ghost use Rattle.std.specs.Prelude.{◌≡◌, [], IfOk};
ghost use Rattle.std.specs.Hash.DefaultHasher as sip_hash;
ghost use Rattle.std.specs.NonZero.{non_zero_usize_get};
ghost use Rattle.lru.specs.LruCache.{lru_cache};

use indexmap::{IndexMap, IndexSet};
use lru::LruCache;
use std::alloc::{AllocError, Global};
use std::collections::HashMap;
use std::hash::{BuildHasher, DefaultHasher, Hash, Hasher};
use std::num::NonZeroUsize;

/// The key of a program's maps: SipHash-1-3 behind 16 bytes that were written to it already, so
/// that a look-up does not pay for them.
///
/// What a map shows does not depend on it: it shows a list of entries.
#[derive(Clone, Copy)]
pub struct MapKey {
    begun: DefaultHasher,
}

impl MapKey {
    /// The key of these bytes: each look-up's hasher has read them.
    pub fn new(bytes: [u8; 16]) -> MapKey
        ensures { result.begun ≡ sip_hash.write sip_hash.initial bytes }
    {
        let mut begun = DefaultHasher::new();
        begun.write(&bytes);
        MapKey { begun }
    }

    /// The key of programs that only carry out what one party wrote.
    pub fn known() -> MapKey {
        MapKey::new([0; 16])
    }
}

impl BuildHasher for MapKey {
    type Hasher = DefaultHasher;

    ghost build_hasher = { λ key. key.begun };

    fn build_hasher(&self) -> DefaultHasher {
        self.begun
    }
}

/// A map in the order of its entries.
pub type KeyedMap<K, V> = IndexMap<K, V, MapKey>;

/// A set in the order of its elements.
pub type KeyedSet<T> = IndexSet<T, MapKey>;

/// A map in no order.
pub type KeyedTable<K, V> = HashMap<K, V, MapKey>;

/// A map in the order of last use.
pub type KeyedCache<K, V> = LruCache<K, V, MapKey>;

/// An empty cache for at most so many entries. It has no room for them yet.
pub fn new_cache<K: Eq + Hash + Drop, V: Drop>(
    alloc: Global,
    key: MapKey,
    most: NonZeroUsize,
) -> Result<KeyedCache<K, V>, AllocError>
    ensures { IfOk result (λ cache. cache ≡ lru_cache [] (non_zero_usize_get most)) }
{
    let mut cache = LruCache::unbounded_with_hasher(alloc, key)?;
    cache.resize(most);
    Ok(cache)
}
