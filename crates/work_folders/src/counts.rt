//! How many folders are still to be removed, and which runs left links, for whoever watches a
//! server.

use run_calls::RunKey;
use std::alloc::{AllocError, Global};
use std::cell::Cell;

/// What is counted of an instance.
#[derive(Drop)]
struct OfInstance {
    left: Cell<u64>,
    held: Cell<u64>,
    links: Cell<u64>,
    last_with_links: Cell<u64>,
}

/// The folders of runs that are still to be removed, by instance.
#[derive(Drop)]
pub struct FolderCounts {
    instances: Vec<OfInstance>,
    /// How many runs left links, of all instances.
    all_links: Cell<u64>,
}

impl FolderCounts {
    /// Nothing is to be removed of so many instances.
    pub fn new(alloc: Global, instances: usize) -> Result<FolderCounts, AllocError> {
        let mut counts = Vec::new(alloc);
        for _ in 0..instances {
            counts.push(OfInstance {
                left: Cell::new(0),
                held: Cell::new(0),
                links: Cell::new(0),
                last_with_links: Cell::new(0),
            })?;
        }
        Ok(FolderCounts {
            instances: counts,
            all_links: Cell::new(0),
        })
    }

    fn of(&self, instance: u32) -> Option<&OfInstance> {
        self.instances.get(instance as usize)
    }

    /// How many folders of an instance are to be removed.
    pub fn left(&self, instance: u32) -> u64 {
        self.of(instance).map_or(0, |counts| counts.left.get())
    }

    /// How often a run of an instance was kept from beginning by what is to be removed.
    pub fn held(&self, instance: u32) -> u64 {
        self.of(instance).map_or(0, |counts| counts.held.get())
    }

    /// How many runs of all instances left symbolic links in their output directories.
    pub fn all_links(&self) -> u64 {
        self.all_links.get()
    }

    /// How many runs of an instance left symbolic links in their output directories.
    pub fn links(&self, instance: u32) -> u64 {
        self.of(instance).map_or(0, |counts| counts.links.get())
    }

    /// The job of the last of these, if there are any.
    pub fn last_with_links(&self, instance: u32) -> u64 {
        self.of(instance)
            .map_or(0, |counts| counts.last_with_links.get())
    }

    pub(crate) fn add_links(&self, run: RunKey) {
        if let Some(counts) = self.of(run.instance) {
            counts.links.set(counts.links.get().saturating_add(1));
            counts.last_with_links.set(run.job);
            self.all_links.set(self.all_links.get().saturating_add(1));
        }
    }

    pub(crate) fn set_left(&self, instance: u32, left: usize) {
        if let Some(counts) = self.of(instance) {
            counts.left.set(left as u64);
        }
    }

    pub(crate) fn add_held(&self, instance: u32) {
        if let Some(counts) = self.of(instance) {
            counts.held.set(counts.held.get().saturating_add(1));
        }
    }
}
