//! The nodes of a directory whose text an instance sees.

ghost use Rattle.std.specs.Prelude.{◌≡◌, ◌++◌, ◌≤◌, map, option_map, reverse, IfOk, IfSome, OnOk};
ghost use Rattle.input_tree.specs.Taken.{taken_at, taken_shown};
ghost use Rattle.input_tree.specs.Taking.{bytes_left, given_by};
ghost use Rattle.input_tree.specs.declared.directory.TheConstants.{MOST_DIRECTORY_BYTES};
ghost use Rattle.actions.specs.Nodes.{nodes_taken};
ghost use Rattle.actions.specs.Shown.{nodes_shown};

use crate::finding::Finds;
use crate::node::{NodeTaken, PlanNode};
use blob_pool::Pool;
use digest::Digest;
use input_tree::{DirectoryReading, DirectoryTaken, MOST_DIRECTORY_BYTES};
use instance_view::{Seen, copy_of};
use std::alloc::{AllocError, Global};

/// Begins to read the directory of a digest, where the instance sees a text of it. A text that is
/// too long is not copied.
pub(crate) fn open<F: Finds>(
    alloc: Global,
    view: &F,
    pool: &Pool,
    digest: &Digest,
) -> Result<Option<DirectoryReading>, AllocError>
    ensures given { IfOk result (λ found. option_map given_by found
        ≡ taken_at (F.found_in pool.now view.now) digest.now) }
    ensures few { IfOk result (λ found.
        IfSome found (λ r. bytes_left r ≤ MOST_DIRECTORY_BYTES)) }
{
    let Some(seen) = view.get(digest) else {
        return Ok(None);
    };
    if let Seen::Text(kept) = seen {
        if pool.length(kept) > MOST_DIRECTORY_BYTES as u64 {
            return Ok(Some(DirectoryReading::too_long(alloc)));
        }
    }
    let text = copy_of(alloc, pool, seen)?;
    Ok(Some(DirectoryReading::begin(alloc, text)))
}

/// Puts the nodes of one kind on a stack, the first of them on top.
fn stack<N: NodeTaken>(
    todo: &mut Vec<PlanNode>,
    level: usize,
    nodes: &[N],
) -> Result<(), AllocError>
    ensures { OnOk result (nodes_shown todo.new.items ≡ nodes_shown todo.old.items
        ++ reverse (map (N.at level) (map N.shown nodes.now))) }
{
    let mut left = nodes;
    'nodes: while let [rest @ .., last] = left {
        todo.push(last.node_at(level)?)?;
        left = rest;
    }
    Ok(())
}

/// Puts the nodes of a directory on a stack, the first of them on top: files, then symbolic links,
/// then directories.
pub(crate) fn stack_nodes(
    todo: &mut Vec<PlanNode>,
    level: usize,
    taken: &DirectoryTaken,
) -> Result<(), AllocError>
    ensures { OnOk result (nodes_shown todo.new.items ≡ nodes_shown todo.old.items
        ++ reverse (nodes_taken level (taken_shown taken.now))) }
{
    stack(todo, level, &taken.directories)?;
    stack(todo, level, &taken.symlinks)?;
    stack(todo, level, &taken.files)
}
