//! Directories that stand in many places: the text of each is read at most twice.

ghost use Rattle.std.specs.Prelude.{◌≡◌, Some, IfSome, OnOk};
ghost use Rattle.input_tree.specs.Listing.{Lookup};
ghost use Rattle.input_tree.specs.Taken.{taken_at, taken_shown};
ghost use Rattle.actions.specs.KeptNodes.{AreKept};

use digest::Digest;
use input_tree::DirectoryTaken;
use keyed_maps::KeyedMap;
use std::alloc::AllocError;

/// The directories that a walk has read, and what is taken of those that it has read twice.
pub type KeptNodes = KeyedMap<Digest, Option<DirectoryTaken>>;

/// What is kept of a directory.
pub(crate) fn kept_of<'a>(kept: &'a KeptNodes, digest: &Digest) -> Option<&'a DirectoryTaken>
    ensures { (look : Lookup) → AreKept look kept.now.entries →
        IfSome result (λ taken.
        taken_at look digest.now ≡ Some (Some (taken_shown taken.now))) }
{
    match kept.get(digest) {
        Some(Some(taken)) => Some(taken),
        _ => None,
    }
}

/// Notes that a directory was read. What is taken of it is kept the second time, as most stand in
/// one place.
pub(crate) fn keep(
    kept: &mut KeptNodes,
    digest: &Digest,
    taken: DirectoryTaken,
) -> Result<(), AllocError>
    ensures { (look : Lookup) → AreKept look kept.old.entries →
        taken_at look digest.now ≡ Some (Some (taken_shown taken)) →
        OnOk result (AreKept look kept.new.entries) }
{
    if kept.contains_key(digest) {
        kept.insert(*digest, Some(taken))?;
        return Ok(());
    }
    kept.insert(*digest, None)?;
    Ok(())
}
