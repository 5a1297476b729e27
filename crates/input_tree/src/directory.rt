//! Directories that are taken, and their texts.

ghost use Rattle.std.specs.Prelude.{◌≡◌, ◌+◌, ◌≤◌, length, IfOk};
ghost use Rattle.tree_messages.specs.Directories.{directory_shown};
ghost use Rattle.instance_view.specs.Texts.{look_of};
ghost use Rattle.input_tree.specs.Directories.{has_nodes, has_order, is_directory};
ghost use Rattle.input_tree.specs.Pages.{text_or_none};

use crate::names::{are_ordered, have_form};
use digest::Digest;
use instance_view::{Sight, Texts, Work};
use std::alloc::{AllocError, Global};
use tree_messages::Directory;

/// The longest text that is taken for a directory, in bytes.
pub const MOST_DIRECTORY_BYTES: usize = 67_108_864;

fn has_nodes(directory: &Directory<'_>) -> bool
    ensures { result ≡ has_nodes (directory_shown directory.now) }
{
    have_form(&directory.files)
        && have_form(&directory.directories)
        && have_form(&directory.symlinks)
}

fn has_order(directory: &Directory<'_>) -> bool
    ensures { result ≡ has_order (directory_shown directory.now) }
{
    are_ordered(
        &directory.files,
        &directory.directories,
        &directory.symlinks,
    )
}

/// Whether a directory is taken: each list is sorted by the bytes of its names, no name stands
/// twice, names are path segments other than `.` and `..`, targets are relative, and digests have
/// their form.
pub fn check(directory: &Directory<'_>) -> bool
    ensures { result ≡ is_directory (directory_shown directory.now) }
{
    has_nodes(directory) && has_order(directory)
}

/// A copy of the text that an instance sees of a digest, empty where it sees none. This is one
/// look, and the text is read once.
#[tactic(auto, using(crate::proofs::Lengths::length_found))]
pub fn text_or_none(
    alloc: Global,
    texts: &Texts<'_, Sight<'_>>,
    work: &mut Work,
    digest: &Digest,
) -> Result<Vec<u8>, AllocError>
    ensures text { IfOk result (λ text. text.items
        ≡ text_or_none (look_of texts.now) digest.now) }
    ensures looks { work.new.looks ≤ work.old.looks + 1 }
    ensures bytes { work.new.bytes
        ≤ work.old.bytes + length (text_or_none (look_of texts.now) digest.now) }
{
    match texts.get(work, digest) {
        None => Ok(Vec::new(alloc)),
        Some(seen) => texts.copy(alloc, work, seen),
    }
}
