//! Claiming the trees of a run.

ghost use Rattle.std.specs.Prelude.{◌≡◌, ◌≤◌, ◌+◌, [], ◌∷◌, ◌++◌, true, IfOk, vec_capacity, vec_len};
ghost use Rattle.made_trees.specs.Trees.{key_of};
ghost use Rattle.made_trees.specs.RunTrees.{AllStayUsed, AreBound, AreClaimed, IsAdded, IsUsed, claimed};

use crate::list::RunTree;
use crate::store::{Claim, Held, MadeTrees};
use crate::tree::TreeKey;
use run_calls::{InputTree, RunKey};
use run_folders::is_below;
use std::alloc::{AllocError, Global};

/// The longest path from the root of a run on at which a tree is bound, in bytes.
const MOST_PATH: usize = 1_024;

/// Whether a path is that of one of these trees, or lies below it.
fn is_in_any(path: &str, trees: &[RunTree]) -> bool {
    trees.iter().any(|tree| is_below(tree.path(), path))
}

/// Whether the tree of a directory was made before. One that the run has then is added.
#[tactic(auto, using(crate::proofs::Others::all_same))]
fn claim_one(
    alloc: Global,
    store: &mut MadeTrees<'_>,
    run: RunKey,
    tree: &InputTree,
    own: &mut Vec<RunTree>,
) -> Result<bool, AllocError>
    ensures own { IfOk result (λ is_bound.
        IsAdded (claimed run tree.now) is_bound own.old.items own.new.items) }
    ensures bound { IfOk result (λ is_bound. is_bound ≡ true
        → IsUsed run (key_of run tree.now.digest) store.new.trees) }
    ensures stays { AllStayUsed store.old.trees store.new.trees }
{
    if tree.path.len() > MOST_PATH || is_in_any(tree.path.as_str(), own) {
        return Ok(false);
    }
    let path = String::from_str(alloc, tree.path.as_str())?;
    let key = TreeKey {
        instance: run.instance,
        digest: tree.digest,
    };
    let size = tree.size;
    own.reserve(1)?;
    // What is made or waited for is so at one place alone.
    let is_first = !own.iter().any(|other| other.key == key);
    match store.claim(run, &tree.digest, size)? {
        Claim::Bound(_) => {
            add(own, RunTree { path, key, size });
            Ok(true)
        }
        Claim::Make(_) => {
            add(own, RunTree { path, key, size });
            Ok(false)
        }
        Claim::Waits if is_first => {
            add(own, RunTree { path, key, size });
            Ok(false)
        }
        Claim::Waits | Claim::Copied => Ok(false),
    }
}

/// Adds a tree, for which there is room.
fn add(own: &mut Vec<RunTree>, tree: RunTree)
    requires room { vec_len own.old + 1 ≤ vec_capacity own.old }
    ensures { own.new.items ≡ own.old.items ++ tree ∷ [] }
{
    let added: Result<_, _> = own.push(tree);
    added.unwrap();
}

/// Whether the tree of each directory was made before. Those that the run has then are added.
#[tactic(auto, using(crate::proofs::Claimed::begins, crate::proofs::Claimed::ends))]
pub(crate) fn claim_all(
    alloc: Global,
    store: &mut MadeTrees<'_>,
    run: RunKey,
    trees: &[InputTree],
    own: &mut Vec<RunTree>,
) -> Result<Vec<bool>, AllocError>
    requires none { own.old.items ≡ [] }
    ensures bound { IfOk result (λ bound.
        AreBound run store.new.trees own.new.items bound.items trees.now) }
    ensures claimed { IfOk result (λ _. AreClaimed run trees.now own.new.items) }
    ensures stays { AllStayUsed store.old.trees store.new.trees }
{
    let mut bound = Vec::new(alloc);
    let mut left = trees;
    'trees: while let [first, rest @ ..] = left {
        let is_bound = claim_one(alloc, store, run, first, own)?;
        bound.push(is_bound)?;
        left = rest;
    }
    Ok(bound)
}

/// What a run claimed, and does not have, it claims again.
fn settle_one(store: &mut MadeTrees<'_>, run: RunKey, tree: &RunTree) -> Result<(), AllocError>
    ensures stays { AllStayUsed store.old.trees store.new.trees }
{
    let key = tree.key();
    if store.held(run, key) != Held::Nothing {
        return Ok(());
    }
    store.claim(run, &key.digest, tree.size)?;
    Ok(())
}

/// The same of each of these.
pub(crate) fn settle_all(
    store: &mut MadeTrees<'_>,
    run: RunKey,
    trees: &[RunTree],
) -> Result<(), AllocError>
    ensures stays { AllStayUsed store.old.trees store.new.trees }
{
    for tree in trees {
        settle_one(store, run, tree)?;
    }
    Ok(())
}
