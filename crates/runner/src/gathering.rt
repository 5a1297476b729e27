//! Gathering what a run left at its outputs' paths, step by step.

ghost use Rattle.std.specs.Prelude.{◌≡◌, ◌≤◌, ◌<◌, [], ◌∷◌, ◌++◌, ◌+◌, IfErr, IfOk, OnOk, length, map, reverse, string_bytes};
ghost use Rattle.run_calls.specs.Values.{PlaceValue, entry_shown, place_shown};
ghost use Rattle.runner.specs.Steps.{FolderGoes, FolderGoesWith, exited_told, file_items, tree_file_items, tree_items};
ghost use Rattle.run_calls.specs.Calls.{file_asked};
ghost use Rattle.runner.specs.Listed.{IsNext, IsStack, file_names, inner_asked, inner_shown, inners_of, most_nodes, stack_of, walk_before};
ghost use Rattle.runner.specs.Gathered.{end_item, output_items};
ghost use Rattle.runner.specs.Bounds.{ExitsUnasked, FolderAsks};
ghost use Rattle.runner.specs.Faults.{FolderCounts};
ghost use Rattle.runner.specs.Sizes.{GoesCounted, IsCounted, IsCountedThen, exited_length, nodes_length};
ghost use Rattle.runner.specs.Stops.{FolderStops, FolderStopsWith};
ghost use Rattle.runner.specs.declared.stage.Stage.TheVariants as Stages;

use crate::fault::{RunFault, of_folder};
use crate::making::{PIECE, cost_of};
use crate::reading::{Reading, is_too_large};
use crate::stage::{Gathering, OutputFile, Stage, Step, TreeFile};
use crate::tree::{Inner, Tree, TreeNodes};
use run_calls::{Entry, Folder, Found, Place};
use std::alloc::{AllocError, Global};
use std::collections::VecDeque;

/// How many nodes of an output directory are gathered. One with more is refused by whoever takes
/// it, so that it is not gathered further.
const MOST_NODES: usize = 10_001;

/// What a directory costs of what is done in one call: all of it, since many of its entries may be
/// passed over.
const COST_OF_DIRECTORY: u32 = 256;

/// What it costs to go to a file and look at it.
const COST_OF_LOOK: u32 = 2;

/// Looks at the next output.
pub(crate) fn next_output<F: Folder>(
    alloc: Global,
    folder: &mut F,
    place: &Place,
    gathering: Gathering,
) -> Result<Step, RunFault>
    requires counted { IsCounted (Stages.Outputs gathering) }
    ensures goes { IfOk result (λ step. FolderGoes (place_shown place.now)
        (Stages.Outputs gathering) step (F.asked folder.old) (F.asked folder.new)) }
    ensures few { FolderAsks (F.asked folder.old) (F.asked folder.new) }
    ensures exits { IfOk result (λ step.
        ExitsUnasked step (F.asked folder.old) (F.asked folder.new)) }
    ensures counts { FolderCounts result (F.failures folder.old) (F.failures folder.new) }
    ensures counted { IfOk result IsCountedThen }
    ensures stops { IfErr result (λ fault. FolderStops (place_shown place.now)
        (Stages.Outputs gathering) fault (F.asked folder.old) (F.asked folder.new)) }
{
    let mut gathering = gathering;
    let Some(path) = gathering.left.pop_front() else {
        return Ok(Step::Exits(gathering.exited()));
    };
    match of_folder(folder.look(place, path.as_str()))? {
        Found::File(facts) => {
            if is_too_large(gathering.taken, facts.size) {
                return Err(RunFault::TooLarge);
            }
            let file = OutputFile {
                path,
                is_executable: facts.is_executable,
                content: Reading::new(alloc, place.function),
            };
            Ok(Step::Goes(Stage::File(gathering, file), COST_OF_LOOK))
        }
        Found::Directory => Ok(Step::Goes(Stage::Listing(gathering, path), COST_OF_LOOK)),
        Found::Nothing => Ok(Step::Goes(Stage::Outputs(gathering), COST_OF_LOOK)),
        Found::Other => Ok(Step::Goes(Stage::Outputs(gathering), COST_OF_LOOK)),
    }
}

/// Reads the next piece of an output that is a file.
pub(crate) fn read_file<F: Folder>(
    folder: &mut F,
    place: &Place,
    gathering: Gathering,
    file: OutputFile,
) -> Result<Step, RunFault>
    requires counted { IsCounted (Stages.File gathering file) }
    ensures goes { IfOk result (λ step. FolderGoes (place_shown place.now)
        (Stages.File gathering file) step (F.asked folder.old) (F.asked folder.new)) }
    ensures few { FolderAsks (F.asked folder.old) (F.asked folder.new) }
    ensures counts { FolderCounts result (F.failures folder.old) (F.failures folder.new) }
    ensures counted { IfOk result GoesCounted }
    ensures stops { IfErr result (λ fault. FolderStops (place_shown place.now)
        (Stages.File gathering file) fault (F.asked folder.old) (F.asked folder.new)) }
{
    let mut gathering = gathering;
    let mut file = file;
    let from = file.content.length();
    let piece = of_folder(folder.read(place, file.path.as_str(), &[], from, PIECE))?;
    if piece.is_empty() {
        let gathering = with_file(gathering, file)?;
        return Ok(Step::Goes(Stage::Outputs(gathering), 1));
    }
    let count = piece.len() as u64;
    if is_too_large(gathering.taken, count) {
        return Err(RunFault::TooLarge);
    }
    gathering.taken += count;
    file.content.push(&piece)?;
    Ok(Step::Goes(Stage::File(gathering, file), cost_of(piece.len())))
}

/// Adds an output that is a file.
fn with_file(gathering: Gathering, file: OutputFile) -> Result<Gathering, AllocError>
    ensures items { IfOk result (λ added. (place : PlaceValue) →
        output_items place added.exited.outputs.items
        ≡ output_items place gathering.exited.outputs.items
        ++ (file_items place file
        ++ end_item place (string_bytes file.path) [] (length file.content) ∷ [])) }
    ensures length { IfOk result (λ added. exited_length added.exited
        ≡ exited_length gathering.exited + length file.content) }
    ensures told { IfOk result (λ added. (place : PlaceValue) →
        exited_told place added.exited ≡ exited_told place gathering.exited) }
    ensures left { IfOk result (λ added. added.left ≡ gathering.left) }
    ensures taken { IfOk result (λ added. added.taken ≡ gathering.taken) }
{
    let mut gathering = gathering;
    gathering.exited.outputs.push(file.output())?;
    Ok(gathering)
}

/// Sets the entries of a directory apart: its files, in their order, and its directories, the first
/// on top.
fn set_apart(
    entries: Vec<Entry>,
    level: u32,
    files: &mut VecDeque<String>,
    todo: &mut Vec<Inner>,
) -> Result<(), AllocError>
    ensures files { OnOk result (map string_bytes files.new.items
        ≡ file_names (map entry_shown entries.items) ++ map string_bytes files.old.items) }
    ensures directories { OnOk result (map inner_shown todo.new.items
        ≡ map inner_shown todo.old.items
        ++ reverse (inners_of level (map entry_shown entries.items))) }
{
    let mut rest = entries;
    'entries: while let Some(Entry { name, is_directory }) = rest.pop() {
        if is_directory {
            todo.push(Inner { name, level })?;
        } else {
            files.push_front(name)?;
        }
    }
    Ok(())
}

/// Lists an output directory.
pub(crate) fn list_output<F: Folder>(
    alloc: Global,
    folder: &mut F,
    place: &Place,
    gathering: Gathering,
    path: String,
) -> Result<Step, RunFault>
    requires counted { IsCounted (Stages.Listing gathering path) }
    ensures goes { IfOk result (λ step. FolderGoes (place_shown place.now)
        (Stages.Listing gathering path) step (F.asked folder.old) (F.asked folder.new)) }
    ensures few { FolderAsks (F.asked folder.old) (F.asked folder.new) }
    ensures counts { FolderCounts result (F.failures folder.old) (F.failures folder.new) }
    ensures counted { IfOk result GoesCounted }
    ensures stops { IfErr result (λ fault. FolderStops (place_shown place.now)
        (Stages.Listing gathering path) fault (F.asked folder.old) (F.asked folder.new)) }
{
    let entries = of_folder(folder.list(place, path.as_str(), &[], MOST_NODES))?;
    let mut files = VecDeque::new(alloc);
    let mut todo = Vec::new(alloc);
    set_apart(entries, 1, &mut files, &mut todo)?;
    let tree = Tree {
        path,
        nodes: TreeNodes::new(alloc),
        files,
        todo,
    };
    Ok(Step::Goes(Stage::Tree(gathering, tree), COST_OF_DIRECTORY))
}

/// Adds an output directory that was gathered.
fn with_tree(gathering: Gathering, tree: Tree) -> Result<Gathering, AllocError>
    ensures items { IfOk result (λ added. (place : PlaceValue) →
        output_items place added.exited.outputs.items
        ≡ output_items place gathering.exited.outputs.items ++ tree_items place tree) }
    ensures length { IfOk result (λ added. exited_length added.exited
        ≡ exited_length gathering.exited + nodes_length tree.nodes.nodes) }
    ensures told { IfOk result (λ added. (place : PlaceValue) →
        exited_told place added.exited ≡ exited_told place gathering.exited) }
    ensures left { IfOk result (λ added. added.left ≡ gathering.left) }
    ensures taken { IfOk result (λ added. added.taken ≡ gathering.taken) }
{
    let mut gathering = gathering;
    gathering.exited.outputs.push(tree.output())?;
    Ok(gathering)
}

/// Looks at the next file of an output directory, or lists the next directory in it.
pub(crate) fn next_in_tree<F: Folder>(
    alloc: Global,
    folder: &mut F,
    place: &Place,
    gathering: Gathering,
    tree: Tree,
) -> Result<Step, RunFault>
    requires counted { IsCounted (Stages.Tree gathering tree) }
    ensures goes { IfOk result (λ step. FolderGoes (place_shown place.now)
        (Stages.Tree gathering tree) step (F.asked folder.old) (F.asked folder.new)) }
    ensures few { FolderAsks (F.asked folder.old) (F.asked folder.new) }
    ensures counts { FolderCounts result (F.failures folder.old) (F.failures folder.new) }
    ensures counted { IfOk result GoesCounted }
    ensures stops { IfErr result (λ fault. FolderStops (place_shown place.now)
        (Stages.Tree gathering tree) fault (F.asked folder.old) (F.asked folder.new)) }
{
    let mut tree = tree;
    match next_of(&mut tree.files, &mut tree.todo, tree.nodes.count()) {
        Next::File(name) => look_in_tree(alloc, folder, place, gathering, tree, name),
        Next::Directory(inner) => list_in_tree(folder, place, gathering, tree, inner),
        Next::Nothing => {
            let gathering = with_tree(gathering, tree)?;
            Ok(Step::Goes(Stage::Outputs(gathering), 1))
        }
    }
}

/// What is next in an output directory.
#[derive(Drop)]
enum Next {
    File(String),
    Directory(Inner),
    Nothing,
}

/// What is next in an output directory of which so many nodes are gathered.
fn next_of(files: &mut VecDeque<String>, todo: &mut Vec<Inner>, count: usize) -> Next
    ensures { IsNext result count (map string_bytes files.old.items)
        (map string_bytes files.new.items) todo.old.items todo.new.items }
{
    if count >= MOST_NODES {
        return Next::Nothing;
    }
    if let Some(name) = files.pop_front() {
        return Next::File(name);
    }
    match todo.pop() {
        Some(inner) => Next::Directory(inner),
        None => Next::Nothing,
    }
}

/// Looks at a file of an output directory.
fn look_in_tree<F: Folder>(
    alloc: Global,
    folder: &mut F,
    place: &Place,
    gathering: Gathering,
    tree: Tree,
    name: String,
) -> Result<Step, RunFault>
    requires counted { IsCounted (Stages.Tree gathering tree) }
    requires few { length tree.nodes.nodes < most_nodes }
    ensures goes { IfOk result (λ step. FolderGoesWith (walk_before (place_shown place.now) tree
        (file_asked (place_shown place.now) (string_bytes tree.path)
        (tree.nodes.above ++ string_bytes name ∷ []))) (place_shown place.now)
        (Stages.Tree gathering tree) step (F.asked folder.old) (F.asked folder.new)) }
    ensures few { FolderAsks (F.asked folder.old) (F.asked folder.new) }
    ensures counts { FolderCounts result (F.failures folder.old) (F.failures folder.new) }
    ensures counted { IfOk result GoesCounted }
    ensures stops { IfErr result (λ fault. FolderStopsWith (walk_before (place_shown place.now) tree
        (file_asked (place_shown place.now) (string_bytes tree.path)
        (tree.nodes.above ++ string_bytes name ∷ []))) (place_shown place.now)
        (Stages.Tree gathering tree) fault (F.asked folder.old) (F.asked folder.new)) }
{
    let names = tree.nodes.names(name.as_str())?;
    let Some(facts) = of_folder(folder.file(place, tree.path.as_str(), &names))? else {
        return Ok(Step::Goes(Stage::Tree(gathering, tree), COST_OF_LOOK));
    };
    if is_too_large(gathering.taken, facts.size) {
        return Err(RunFault::TooLarge);
    }
    let file = TreeFile {
        name,
        is_executable: facts.is_executable,
        content: Reading::new(alloc, place.function),
    };
    Ok(Step::Goes(Stage::TreeFile(gathering, tree, file), COST_OF_LOOK))
}

/// Adds a directory of an output directory, and lists it.
fn list_in_tree<F: Folder>(
    folder: &mut F,
    place: &Place,
    gathering: Gathering,
    tree: Tree,
    inner: Inner,
) -> Result<Step, RunFault>
    requires counted { IsCounted (Stages.Tree gathering tree) }
    requires stack { IsStack (length tree.nodes.above + 1)
        (inner_shown inner ∷ stack_of tree.todo.items) }
    requires files { map string_bytes tree.files.items ≡ [] }
    requires few { length tree.nodes.nodes < most_nodes }
    requires shallow { inner.level ≤ most_nodes }
    ensures goes { IfOk result (λ step. FolderGoesWith (walk_before (place_shown place.now) tree
        (inner_asked (place_shown place.now) (string_bytes tree.path) tree.nodes.above
        (inner_shown inner))) (place_shown place.now)
        (Stages.Tree gathering tree) step (F.asked folder.old) (F.asked folder.new)) }
    ensures few { FolderAsks (F.asked folder.old) (F.asked folder.new) }
    ensures counts { FolderCounts result (F.failures folder.old) (F.failures folder.new) }
    ensures counted { IfOk result GoesCounted }
    ensures stops { IfErr result (λ fault. FolderStopsWith (walk_before (place_shown place.now) tree
        (inner_asked (place_shown place.now) (string_bytes tree.path) tree.nodes.above
        (inner_shown inner))) (place_shown place.now)
        (Stages.Tree gathering tree) fault (F.asked folder.old) (F.asked folder.new)) }
{
    let level = inner.level + 1;
    let mut tree = tree.with_directory(inner)?;
    let names = tree.nodes.above();
    let entries = of_folder(folder.list(place, tree.path.as_str(), names, MOST_NODES))?;
    set_apart(entries, level, &mut tree.files, &mut tree.todo)?;
    Ok(Step::Goes(Stage::Tree(gathering, tree), COST_OF_DIRECTORY))
}

/// Reads the next piece of a file of an output directory.
pub(crate) fn read_in_tree<F: Folder>(
    folder: &mut F,
    place: &Place,
    gathering: Gathering,
    tree: Tree,
    file: TreeFile,
) -> Result<Step, RunFault>
    requires counted { IsCounted (Stages.TreeFile gathering tree file) }
    ensures goes { IfOk result (λ step. FolderGoes (place_shown place.now)
        (Stages.TreeFile gathering tree file) step (F.asked folder.old) (F.asked folder.new)) }
    ensures few { FolderAsks (F.asked folder.old) (F.asked folder.new) }
    ensures counts { FolderCounts result (F.failures folder.old) (F.failures folder.new) }
    ensures counted { IfOk result GoesCounted }
    ensures stops { IfErr result (λ fault. FolderStops (place_shown place.now)
        (Stages.TreeFile gathering tree file) fault (F.asked folder.old) (F.asked folder.new)) }
{
    let mut gathering = gathering;
    let mut file = file;
    let names = tree.nodes.names(file.name.as_str())?;
    let from = file.content.length();
    let piece = of_folder(folder.read(place, tree.path.as_str(), &names, from, PIECE))?;
    if piece.is_empty() {
        let tree = tree.with_file(file)?;
        return Ok(Step::Goes(Stage::Tree(gathering, tree), 1));
    }
    let count = piece.len() as u64;
    if is_too_large(gathering.taken, count) {
        return Err(RunFault::TooLarge);
    }
    gathering.taken += count;
    file.content.push(&piece)?;
    Ok(Step::Goes(Stage::TreeFile(gathering, tree, file), cost_of(piece.len())))
}
