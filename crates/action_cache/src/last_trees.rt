//! Trees that a result names many times: the last time is enough.

ghost use Rattle.std.specs.Prelude.{◌≡◌, ◌++◌, [], not, map, IfOk, OnOk};
ghost use Rattle.tree_messages.specs.Results.{output_directory_shown};
ghost use Rattle.action_cache.specs.LastTrees.{is_met, with_met, unless_met, kept_from};

use digest::Digest;
use input_tree::digest_written;
use keyed_maps::{KeyedSet, MapKey};
use std::alloc::{AllocError, Global};
use tree_messages::OutputDirectory;

/// Whether the output directory's tree was not met before. It is met then.
fn is_new(seen: &mut KeyedSet<Digest>, output: &OutputDirectory<'_>) -> Result<bool, AllocError>
    ensures new { IfOk result (λ new. new
        ≡ not (is_met seen.old.keys (output_directory_shown output.now))) }
    ensures seen { OnOk result (seen.new.keys
        ≡ with_met seen.old.keys (output_directory_shown output.now)) }
{
    match digest_written(&output.tree_digest) {
        None => Ok(true),
        Some(digest) => Ok(seen.insert(digest)?),
    }
}

/// Adds an output directory, unless its tree was met before. It is met then.
fn add_new<'a>(
    seen: &mut KeyedSet<Digest>,
    kept: &mut Vec<OutputDirectory<'a>>,
    output: OutputDirectory<'a>,
) -> Result<(), AllocError>
    ensures kept { OnOk result (map output_directory_shown kept.new.items
        ≡ map output_directory_shown kept.old.items
        ++ unless_met (is_met seen.old.keys (output_directory_shown output.entry))
        (output_directory_shown output.entry)) }
    ensures seen { OnOk result (seen.new.keys
        ≡ with_met seen.old.keys (output_directory_shown output.entry)) }
{
    if is_new(seen, &output)? {
        kept.push(output)?;
    }
    Ok(())
}

/// The last of the output directories of each tree, the last of them first.
#[tactic(auto, using(crate::proofs::Trees::kept_last))]
pub fn last_trees<'a>(
    alloc: Global,
    key: MapKey,
    outputs: &[OutputDirectory<'a>],
) -> Result<Vec<OutputDirectory<'a>>, AllocError>
    ensures { IfOk result (λ kept. map output_directory_shown kept.items
        ≡ kept_from [] (map output_directory_shown outputs.now)) }
{
    let mut seen = KeyedSet::with_hasher(alloc, key);
    let mut kept = Vec::new(alloc);
    let mut left = Vec::from_slice(alloc, outputs)?;
    'outputs: while let Some(last) = left.pop() {
        add_new(&mut seen, &mut kept, last)?;
    }
    Ok(kept)
}
