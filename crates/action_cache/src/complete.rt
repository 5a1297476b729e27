//! Which results are complete: those that can be read, whose trees can, and of which each blob is
//! there.

ghost use Rattle.std.specs.Prelude.{◌≡◌, ◌+◌, ◌≤◌, ℕ, List, Option, Ok, map, reverse, length, option_map, IfOk};
ghost use Rattle.digest.specs.declared.Digest.{Digest};
ghost use Rattle.input_tree.specs.Listing.{Lookup};
ghost use Rattle.input_tree.specs.Texts.{texts_of};
ghost use Rattle.protobuf_wire.specs.Fields.{value_of_text};
ghost use Rattle.tree_messages.specs.Results.{action_result_of, action_result_shown, output_directory_shown};
ghost use Rattle.instance_view.specs.Texts.{look_of};
ghost use Rattle.action_cache.specs.Complete.{with_each, with_output_directory};
ghost use Rattle.action_cache.specs.LastTrees.{are_trees_there, is_tree_there, last_trees, blobs_once, with_outputs_once};
ghost use Rattle.action_cache.specs.Naming.{Names};
ghost use Rattle.action_cache.specs.Work.{sum_of, tree_length, tree_looks, trees_length, looks_within, result_looks, looks_named, trees_named};

use crate::last_trees::last_trees;
use crate::naming::{Blobs, Unnamed, is_there, name_blob, name_set};
use crate::tree_texts::name_tree;
use blob_pool::Pool;
use digest::Digest;
use input_tree::{digest_written, text_or_none};
use instance_view::{Sight, Texts, Work};
use protobuf_wire::{Decode, MessageError};
use std::alloc::{AllocError, Global};
use tree_messages::{ActionResult, OutputDirectory, OutputFile};

/// A part of a result that names blobs.
trait NamesBlobs: Sized {
    /// The part without where it lies in memory.
    ghost Value: { Type 0 };

    ghost shown: { Self → Value };

    /// The digests so far and those that the part names, where each blob is there.
    ghost with_part: { Lookup → List Digest → Value → Option (List Digest) };

    /// How often blobs are looked for to name the part, at most, and how many bytes are read.
    ghost looks_for: { Lookup → Value → ℕ };

    ghost bytes_of: { Lookup → Value → ℕ };

    /// Names the blobs of the part, where each is there.
    fn name(
        &self,
        blobs: &Blobs<'_>,
        work: &mut Work,
        named: &mut Vec<Digest>,
    ) -> Result<(), Unnamed>
        ensures named { Names (λ _. named.new.items) result
            (with_part (look_of blobs.now.texts) named.old.items (shown self.now)) }
        ensures looks { work.new.looks
            ≤ work.old.looks + looks_for (look_of blobs.now.texts) (shown self.now) }
        ensures bytes { work.new.bytes
            ≤ work.old.bytes + bytes_of (look_of blobs.now.texts) (shown self.now) };
}

/// Names the blobs of each part, in order.
fn name_each<P: NamesBlobs>(
    blobs: &Blobs<'_>,
    work: &mut Work,
    named: &mut Vec<Digest>,
    parts: &[P],
) -> Result<(), Unnamed>
    ensures named { Names (λ _. named.new.items) result
        (with_each (P.with_part (look_of blobs.now.texts)) named.old.items
        (map P.shown parts.now)) }
    ensures looks { work.new.looks ≤ work.old.looks
        + sum_of (P.looks_for (look_of blobs.now.texts)) (map P.shown parts.now) }
    ensures bytes { work.new.bytes ≤ work.old.bytes
        + sum_of (P.bytes_of (look_of blobs.now.texts)) (map P.shown parts.now) }
{
    let mut left = parts;
    'parts: while let [first, rest @ ..] = left {
        first.name(blobs, work, named)?;
        left = rest;
    }
    Ok(())
}

impl<'a> NamesBlobs for OutputFile<'a> {
    ghost use Rattle.tree_messages.specs.Results.{OutputFileValue, output_file_shown};
    ghost use Rattle.action_cache.specs.Complete.{with_output_file};

    ghost Value = { OutputFileValue };

    ghost shown = { output_file_shown };

    ghost with_part = { with_output_file };

    ghost looks_for = { λ _ _. 1 };

    ghost bytes_of = { λ _ _. 0 };

    fn name(
        &self,
        blobs: &Blobs<'_>,
        work: &mut Work,
        named: &mut Vec<Digest>,
    ) -> Result<(), Unnamed> {
        name_blob(blobs, work, named, &self.digest)
    }
}

/// Names a tree, and then its files.
impl<'a> NamesBlobs for OutputDirectory<'a> {
    ghost use Rattle.tree_messages.specs.Results.{OutputDirectoryValue, output_directory_shown};
    ghost use Rattle.action_cache.specs.Complete.{with_output_directory};
    ghost use Rattle.action_cache.specs.Work.{tree_length, tree_looks};

    ghost Value = { OutputDirectoryValue };

    ghost shown = { output_directory_shown };

    ghost with_part = { with_output_directory };

    ghost looks_for = { tree_looks };

    ghost bytes_of = { tree_length };

    fn name(
        &self,
        blobs: &Blobs<'_>,
        work: &mut Work,
        named: &mut Vec<Digest>,
    ) -> Result<(), Unnamed> {
        match digest_written(&self.tree_digest) {
            Some(digest) if is_there(blobs, work, &digest) => {
                named.push(digest)?;
                let text = text_or_none(blobs.alloc, &blobs.texts, work, &digest)?;
                name_tree(blobs, work, named, &text)
            }
            _ => Err(Unnamed::Incomplete),
        }
    }
}

/// Whether the tree of an output directory is there.
fn is_tree_there(blobs: &Blobs<'_>, work: &mut Work, output: &OutputDirectory<'_>) -> bool
    ensures there { result ≡ is_tree_there (look_of blobs.now.texts)
        (output_directory_shown output.now) }
    ensures looks { work.new.looks ≤ work.old.looks + 1 }
    ensures bytes { work.new.bytes ≡ work.old.bytes }
{
    match digest_written(&output.tree_digest) {
        None => false,
        Some(digest) => is_there(blobs, work, &digest),
    }
}

/// Whether the tree of each output directory is there.
fn are_there(blobs: &Blobs<'_>, work: &mut Work, outputs: &[OutputDirectory<'_>]) -> bool
    ensures there { result ≡ are_trees_there (look_of blobs.now.texts)
        (map output_directory_shown outputs.now) }
    ensures looks { work.new.looks ≤ work.old.looks + length outputs.now }
    ensures bytes { work.new.bytes ≡ work.old.bytes }
{
    let mut left = outputs;
    'outputs: while let [first, rest @ ..] = left {
        if !is_tree_there(blobs, work, first) {
            return false;
        }
        left = rest;
    }
    true
}

/// Names the blobs of output directories, the last of which comes first.
fn name_from_last(
    blobs: &Blobs<'_>,
    work: &mut Work,
    named: &mut Vec<Digest>,
    outputs: Vec<OutputDirectory<'_>>,
) -> Result<(), Unnamed>
    ensures named { Names (λ _. named.new.items) result
        (with_each (with_output_directory (look_of blobs.now.texts))
        named.old.items (reverse (map output_directory_shown outputs.entry.items))) }
    ensures looks { work.new.looks ≤ work.old.looks
        + sum_of (tree_looks (look_of blobs.now.texts))
        (reverse (map output_directory_shown outputs.entry.items)) }
    ensures bytes { work.new.bytes ≤ work.old.bytes
        + sum_of (tree_length (look_of blobs.now.texts))
        (reverse (map output_directory_shown outputs.entry.items)) }
{
    let mut outputs = outputs;
    'outputs: while let Some(output) = outputs.pop() {
        output.name(blobs, work, named)?;
    }
    Ok(())
}

/// Names each tree that output directories name and its files, where it is named last.
#[tactic(auto, using(crate::proofs::Trees::kept_are_last))]
fn name_last_trees(
    blobs: &Blobs<'_>,
    work: &mut Work,
    named: &mut Vec<Digest>,
    outputs: &[OutputDirectory<'_>],
) -> Result<(), Unnamed>
    ensures named { Names (λ _. named.new.items) result
        (with_each (with_output_directory (look_of blobs.now.texts))
        named.old.items (last_trees (map output_directory_shown outputs.now))) }
    ensures looks { work.new.looks ≤ work.old.looks
        + sum_of (tree_looks (look_of blobs.now.texts))
        (last_trees (map output_directory_shown outputs.now)) }
    ensures bytes { work.new.bytes ≤ work.old.bytes
        + sum_of (tree_length (look_of blobs.now.texts))
        (last_trees (map output_directory_shown outputs.now)) }
{
    let last = last_trees(blobs.alloc, blobs.texts.key(), outputs)?;
    name_from_last(blobs, work, named, last)
}

/// The same. Nothing is remembered of trees before all are known to be there.
fn name_trees(
    blobs: &Blobs<'_>,
    work: &mut Work,
    named: &mut Vec<Digest>,
    outputs: &[OutputDirectory<'_>],
) -> Result<(), Unnamed>
    ensures named { Names (λ _. named.new.items) result
        (with_each (with_output_directory (look_of blobs.now.texts))
        named.old.items (last_trees (map output_directory_shown outputs.now))) }
    ensures looks { work.new.looks ≤ work.old.looks + (length outputs.now
        + sum_of (tree_looks (look_of blobs.now.texts))
        (last_trees (map output_directory_shown outputs.now))) }
    ensures bytes { work.new.bytes ≤ work.old.bytes
        + sum_of (tree_length (look_of blobs.now.texts))
        (last_trees (map output_directory_shown outputs.now)) }
{
    if !are_there(blobs, work, outputs) {
        return Err(Unnamed::Incomplete);
    }
    name_last_trees(blobs, work, named, outputs)
}

/// The digests of the blobs that the parts of a result name: its files, its trees, each followed by
/// its files where it is named last, what it printed.
fn name_parts(
    blobs: &Blobs<'_>,
    work: &mut Work,
    parts: &ActionResult<'_>,
) -> Result<Vec<Digest>, Unnamed>
    ensures named { Names (λ named. named.items) result
        (with_outputs_once (look_of blobs.now.texts)
        (Ok (action_result_shown parts.now))) }
    ensures looks { work.new.looks ≤ work.old.looks
        + result_looks (look_of blobs.now.texts) (action_result_shown parts.now) }
    ensures bytes { work.new.bytes ≤ work.old.bytes
        + trees_named (look_of blobs.now.texts) (Ok (action_result_shown parts.now)) }
{
    let mut named = Vec::new(blobs.alloc);
    name_each(blobs, work, &mut named, &parts.output_files)?;
    name_trees(blobs, work, &mut named, &parts.output_directories)?;
    name_set(blobs, work, &mut named, &parts.stdout_digest)?;
    name_set(blobs, work, &mut named, &parts.stderr_digest)?;
    Ok(named)
}

/// The digests of the blobs that the result that a text spells names.
fn name_result(blobs: &Blobs<'_>, work: &mut Work, text: &[u8]) -> Result<Vec<Digest>, Unnamed>
    ensures named { Names (λ named. named.items) result
        (blobs_once (look_of blobs.now.texts) text.now) }
    ensures looks { work.new.looks ≤ work.old.looks
        + looks_named (look_of blobs.now.texts) (value_of_text action_result_of text.now) }
    ensures bytes { work.new.bytes
        ≤ work.old.bytes + trees_length (look_of blobs.now.texts) text.now }
{
    match ActionResult::decode(blobs.alloc, text) {
        Ok(parts) => name_parts(blobs, work, &parts),
        Err(MessageError::NoMemory) => Err(Unnamed::NoMemory),
        Err(_) => Err(Unnamed::Incomplete),
    }
}

/// The digests of the blobs that a result names: its files, its trees, each followed by its files
/// where it is named last, what it printed. `None` where it or a tree cannot be read, or a blob is
/// not there. Each tree is read once, up to the first thing that is wrong, and is not built.
///
/// Blobs are looked for at most four times for each byte of the result, twice for each byte of a
/// tree that it names, each tree once, and twice.
#[tactic(auto, using(crate::proofs::Looks::looks_are_few))]
pub fn blobs_once(
    alloc: Global,
    view: &Sight<'_>,
    pool: &Pool,
    work: &mut Work,
    text: &[u8],
) -> Result<Option<Vec<Digest>>, AllocError>
    ensures blobs { IfOk result (λ all. option_map (λ v. v.items) all
        ≡ blobs_once (texts_of pool.now view.now) text.now) }
    ensures looks { work.new.looks ≤ work.old.looks
        + looks_within (texts_of pool.now view.now) text.now }
    ensures bytes { work.new.bytes
        ≤ work.old.bytes + trees_length (texts_of pool.now view.now) text.now }
{
    let texts = Texts::new(view, pool);
    match name_result(&Blobs { alloc, texts }, work, text) {
        Ok(named) => Ok(Some(named)),
        Err(Unnamed::Incomplete) => Ok(None),
        Err(Unnamed::NoMemory) => Err(AllocError),
    }
}
