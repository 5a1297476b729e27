//! What is told of the trees of a run to whoever starts its program.

ghost use Rattle.std.specs.Prelude.{◌≡◌, ◌++◌, IfOk, OnOk};
ghost use Rattle.made_trees.specs.Stages.{held_shown};
ghost use Rattle.made_trees.specs.RunTrees.{ended, tree_words, words_of};

use crate::list::RunTree;
use crate::store::{Held, MadeTrees};
use run_calls::RunKey;
use run_folders::root_path;
use std::alloc::{AllocError, Global};

/// What is told of the trees that a run claimed, whose folders stand in that of a start: of each
/// that the run uses the absolute path of its folder, and its place from the root of the run on,
/// each ended by a NUL.
pub(crate) fn tree_words(
    alloc: Global,
    start: &str,
    store: &MadeTrees<'_>,
    run: RunKey,
    trees: &[RunTree],
) -> Result<Vec<u8>, AllocError>
    ensures { IfOk result (λ text. text.items
        ≡ tree_words start.now run store.now.trees trees.now) }
{
    let mut text = Vec::new(alloc);
    let mut left = trees;
    'trees: while let [first, rest @ ..] = left {
        let held = store.held(run, first.key());
        add_words(alloc, &mut text, start, held, first.path())?;
        left = rest;
    }
    Ok(text)
}

fn add_words(
    alloc: Global,
    text: &mut Vec<u8>,
    start: &str,
    held: Held,
    path: &str,
) -> Result<(), AllocError>
    ensures { OnOk result (text.new.items
        ≡ text.old.items ++ words_of start.now (held_shown held) path.now) }
{
    match held {
        Held::Uses(folder) => {
            let tree = root_path(alloc, start, folder)?;
            add_word(text, tree.as_str())?;
            add_word(text, path)
        }
        Held::Nothing | Held::Makes(_) => Ok(()),
    }
}

fn add_word(text: &mut Vec<u8>, word: &str) -> Result<(), AllocError>
    ensures { OnOk result (text.new.items ≡ text.old.items ++ ended word.now) }
{
    text.extend_from_slice(word.as_bytes())?;
    text.push(0)?;
    Ok(())
}
