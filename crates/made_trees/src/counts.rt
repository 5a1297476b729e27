//! What came of trees, for whoever watches a server.

use std::alloc::{AllocError, Global};
use std::cell::Cell;

/// What is counted of an instance.
#[derive(Drop)]
struct OfInstance {
    bytes: Cell<u64>,
    trees: Cell<u64>,
    hits: Cell<u64>,
    misses: Cell<u64>,
    dropped: Cell<u64>,
}

/// The trees of each instance, and what came of claims. Nothing else depends on it.
#[derive(Drop)]
pub struct TreeCounts {
    instances: Vec<OfInstance>,
}

/// Adds one to a count.
fn add(count: &Cell<u64>) {
    count.set(count.get().saturating_add(1));
}

impl TreeCounts {
    /// So many instances have no trees.
    pub fn new(alloc: Global, instances: usize) -> Result<TreeCounts, AllocError> {
        let mut counts = Vec::new(alloc);
        for _ in 0..instances {
            counts.push(OfInstance {
                bytes: Cell::new(0),
                trees: Cell::new(0),
                hits: Cell::new(0),
                misses: Cell::new(0),
                dropped: Cell::new(0),
            })?;
        }
        Ok(TreeCounts { instances: counts })
    }

    fn of(&self, instance: u32) -> Option<&OfInstance> {
        self.instances.get(instance as usize)
    }

    /// How many bytes the trees of an instance count, those that are to be removed among them.
    pub fn bytes(&self, instance: u32) -> u64 {
        self.of(instance).map_or(0, |counts| counts.bytes.get())
    }

    /// How many trees an instance has, those that are to be removed among them.
    pub fn trees(&self, instance: u32) -> u64 {
        self.of(instance).map_or(0, |counts| counts.trees.get())
    }

    /// How many claims of an instance were for a tree that was whole.
    pub fn hits(&self, instance: u32) -> u64 {
        self.of(instance).map_or(0, |counts| counts.hits.get())
    }

    /// How many were not.
    pub fn misses(&self, instance: u32) -> u64 {
        self.of(instance).map_or(0, |counts| counts.misses.get())
    }

    /// How many whole trees of an instance went to make room.
    pub fn dropped(&self, instance: u32) -> u64 {
        self.of(instance).map_or(0, |counts| counts.dropped.get())
    }

    pub(crate) fn add_hit(&self, instance: u32) {
        if let Some(counts) = self.of(instance) {
            add(&counts.hits);
        }
    }

    pub(crate) fn add_miss(&self, instance: u32) {
        if let Some(counts) = self.of(instance) {
            add(&counts.misses);
        }
    }

    pub(crate) fn add_dropped(&self, instance: u32) {
        if let Some(counts) = self.of(instance) {
            add(&counts.dropped);
        }
    }

    /// A tree of this many bytes was begun.
    pub(crate) fn add_tree(&self, instance: u32, size: u64) {
        if let Some(counts) = self.of(instance) {
            add(&counts.trees);
            counts.bytes.set(counts.bytes.get().saturating_add(size));
        }
    }

    /// A tree of this many bytes was removed.
    pub(crate) fn take_tree(&self, instance: u32, size: u64) {
        if let Some(counts) = self.of(instance) {
            counts.trees.set(counts.trees.get().saturating_sub(1));
            counts.bytes.set(counts.bytes.get().saturating_sub(size));
        }
    }
}
