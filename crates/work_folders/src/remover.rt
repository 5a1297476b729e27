//! What removes folders of runs beside the server: a shell for each instance. So nobody waits where
//! that takes long, but the removals of the same instance.

use crate::counts::FolderCounts;
use crate::work::Paths;
use run_calls::RunKey;
use run_shells::{Removing, RemovingShells};
use std::alloc::Global;
use system::Shells;

/// How many folders of an instance are still to be removed when no other one is made.
const MOST_LEFT: usize = 64;

/// What removes folders of an instance.
#[derive(Drop)]
struct OfInstance<S: Shells> {
    instance: u32,
    shells: RemovingShells<S>,
}

/// What removes folders, of each instance that has had one.
#[derive(Drop)]
pub(crate) struct Remover<'a, S: Shells> {
    counts: &'a FolderCounts,
    instances: Vec<OfInstance<S>>,
}

impl<'a, S: Shells> Remover<'a, S> {
    /// No shell stands yet.
    pub(crate) fn new(alloc: Global, counts: &'a FolderCounts) -> Remover<'a, S> {
        Remover {
            counts,
            instances: Vec::new(alloc),
        }
    }

    /// Whether a folder may be made for a run of this instance.
    pub(crate) fn has_room(
        &mut self,
        shells: &mut S,
        paths: Option<Paths<'_>>,
        instance: u32,
    ) -> bool {
        let Some(paths) = paths else {
            return true;
        };
        let counts = self.counts;
        let has_room = match self.shells_of(shells.alloc(), instance) {
            Some(removing) => removing.has_room(shells, [paths.shown, paths.whole], MOST_LEFT),
            // There is no memory now.
            None => false,
        };
        if !has_room {
            counts.add_held(instance);
        }
        has_room
    }

    /// Whether the folder of a run is being removed.
    pub(crate) fn has(&self, run: RunKey) -> bool {
        let is_of = |each: &OfInstance<S>| {
            each.instance == run.instance && each.shells.has(run.job)
        };
        self.instances.iter().any(is_of)
    }

    /// Goes on with the removal of the folder of a run, which has this name.
    pub(crate) fn remove(
        &mut self,
        shells: &mut S,
        paths: Option<Paths<'_>>,
        run: RunKey,
        name: &str,
    ) -> Removing {
        let Some(paths) = paths else {
            return Removing::Alone;
        };
        let counts = self.counts;
        let Some(removing) = self.shells_of(shells.alloc(), run.instance) else {
            return Removing::Waits;
        };
        let answer = removing.remove(shells, [paths.shown, paths.whole], run.job, name);
        counts.set_left(run.instance, removing.left());
        answer
    }

    /// What removes folders of an instance, unless there is no memory for it.
    fn shells_of(&mut self, alloc: Global, instance: u32) -> Option<&mut RemovingShells<S>> {
        let found = self
            .instances
            .iter()
            .position(|each| each.instance == instance);
        let at = match found {
            Some(at) => at,
            None => {
                let shells = RemovingShells::new(alloc);
                self.instances.push(OfInstance { instance, shells }).ok()?;
                self.instances.len() - 1
            }
        };
        let each = self.instances.get_mut(at)?;
        Some(&mut each.shells)
    }
}
