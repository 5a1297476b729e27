//! The walk.

ghost use Rattle.std.specs.Prelude.{◌≡◌, true, IfOk, IfErr};
ghost use Rattle.actions.specs.Shown.{nodes_shown};
ghost use Rattle.actions.specs.Walk.{nodes_met, walk};
ghost use Rattle.actions.specs.Answers.{Answers, Fails};
ghost use Rattle.actions.specs.TreeWalks.{LeadsTo, is_over};

use crate::fault::TreeFault;
use crate::finding::Finds;
use crate::node::PlanNode;
use crate::tree_walk::TreeWalk;
use blob_pool::Pool;
use digest::Digest;
use std::alloc::Global;

/// The most nodes that a tree has below its root.
pub const MOST_NODES: usize = 10_000;

/// The most levels that a tree has, of which the root is the first.
pub const MOST_LEVELS: usize = 64;

/// What stands in a tree.
#[derive(Drop)]
pub struct Plan {
    /// The nodes in the order met: of a directory the files, then the symbolic links, then each
    /// directory followed by what is in it.
    pub nodes: Vec<PlanNode>,
}

/// A walk that is gone on with to its end, without a pause for other work.
fn walked<F: Finds>(
    alloc: Global,
    view: &F,
    pool: &Pool,
    root: &Digest,
) -> Result<TreeWalk, TreeFault>
    ensures root { IfOk result (λ whole. whole.root ≡ root.now) }
    ensures leads { IfOk result (λ whole. LeadsTo (F.found_in pool.now view.now) whole) }
    ensures over { IfOk result (λ whole. is_over whole ≡ true) }
    ensures fault { IfErr result (λ e. Fails e
        (nodes_met (F.found_in pool.now view.now) root.now)) }
{
    let mut walk = TreeWalk::begin(alloc, pool.key(), root);
    'steps: while !walk.is_over() {
        walk.step(alloc, view, pool)?;
    }
    Ok(walk)
}

/// The nodes of a root's tree, in the order met, or the first fault that is met. A text that is not
/// there is none: nothing is met in its directory.
pub fn nodes_met<F: Finds>(
    alloc: Global,
    view: &F,
    pool: &Pool,
    root: &Digest,
) -> Result<Vec<PlanNode>, TreeFault>
    ensures { Answers (λ nodes. nodes_shown nodes.items) result
        (nodes_met (F.found_in pool.now view.now) root.now) }
{
    let walk = walked(alloc, view, pool, root)?;
    Ok(walk.into_nodes())
}

/// Walks through the tree of a root: of each directory first the files, then the symbolic links,
/// then each directory with what is in it.
///
/// Each node is counted when it is met, then its level is tested, then its text is looked at; the
/// first fault that is met is answered. What is missing is answered where the whole walk has no
/// other fault. A directory that stands in many places is read at most twice.
pub fn walk<F: Finds>(
    alloc: Global,
    view: &F,
    pool: &Pool,
    root: &Digest,
) -> Result<Plan, TreeFault>
    ensures { Answers (λ plan. nodes_shown plan.nodes.items) result
        (walk (F.found_in pool.now view.now) root.now) }
{
    let walk = walked(alloc, view, pool, root)?;
    walk.end()
}
