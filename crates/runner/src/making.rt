//! Making the folder of a run, and starting its program there, step by step.

ghost use Rattle.std.specs.Prelude.{◌≡◌, ◌++◌, ◌-◌, ◌∷◌, [], ℕ, List, Option, IfErr, IfOk, length, map, take, string_bytes};
ghost use Rattle.std.specs.Rc.{rc_str_bytes};
ghost use Rattle.run_calls.specs.Values.{PlaceValue, place_shown, command_shown};
ghost use Rattle.run_calls.specs.Calls.{ProgramCall, start_asked};
ghost use Rattle.runner.specs.Made.{kind_made};
ghost use Rattle.runner.specs.Steps.{Goes, FolderGoes, ProgramGoes, above_behind, making_left, making_outputs, making_starts, nodes_left};
ghost use Rattle.runner.specs.Bounds.{AddsAtMost, FolderAsks, ProgramAsks};
ghost use Rattle.runner.specs.Faults.{Counted, FolderCounts, ProgramsCounts};
ghost use Rattle.runner.specs.Sizes.{GoesCounted};
ghost use Rattle.runner.specs.Stops.{Stops, FolderStops, ProgramStops};
ghost use Rattle.runner.specs.declared.stage.Stage.TheVariants as Stages;
ghost use Rattle.runner.specs.declared.stage.Making.TheVariants as Makings;

use crate::fault::{RunFault, of_folder, of_programs};
use crate::stage::{Making, Nodes, Parents, Prepared, Stage, Step, Writing};
use run_calls::{Folder, Place, Programs, TaskNode, TaskNodeKind, Texts};

/// How many bytes of a file are written or read at most by a step.
pub(crate) const PIECE: u32 = 65_536;

/// What a node costs of what is done in one call.
const COST_OF_NODE: u32 = 2;

/// How many names of a path cost something. With more, all that is left of a call is spent.
const NAMES_THAT_COST: usize = 128;

/// How many bytes cost 1.
const BYTES_FOR_ONE: usize = 4_096;

/// What bytes cost that were hashed or written.
pub(crate) fn cost_of(count: usize) -> u32 {
    u32::try_from(count / BYTES_FOR_ONE)
        .unwrap_or(u32::MAX)
        .saturating_add(1)
}

/// What it costs to make the directories on a path.
fn cost_of_path(path: &str) -> u32 {
    let mut cost = COST_OF_NODE;
    for _name in path.split('/').take(NAMES_THAT_COST) {
        cost = cost.saturating_add(COST_OF_NODE);
    }
    cost
}

/// Makes the root.
fn make_root<F: Folder>(folder: &mut F, place: &Place, nodes: Nodes) -> Result<Step, RunFault>
    ensures goes { IfOk result (λ step. FolderGoes (place_shown place.now)
        (Stages.Making (Makings.Root nodes)) step (F.asked folder.old) (F.asked folder.new)) }
    ensures few { FolderAsks (F.asked folder.old) (F.asked folder.new) }
    ensures counts { FolderCounts result (F.failures folder.old) (F.failures folder.new) }
    ensures counted { IfOk result GoesCounted }
    ensures stops { IfErr result (λ fault. FolderStops (place_shown place.now)
        (Stages.Making (Makings.Root nodes)) fault (F.asked folder.old) (F.asked folder.new)) }
{
    of_folder(folder.make_root(place.run))?;
    Ok(Step::Goes(Stage::Making(Making::Nodes(nodes)), COST_OF_NODE))
}

/// What follows a node that was made, whose names stand in `nodes.above`.
fn after_node(nodes: Nodes, kind: TaskNodeKind) -> Making
    ensures left { (text : ℕ → List ℕ) → (place : PlaceValue) →
        making_left text place result
        ≡ kind_made text place.run (map rc_str_bytes nodes.above.items) kind
        ++ nodes_left text place (above_behind (map rc_str_bytes nodes.above.items) kind) nodes }
    ensures starts { (place : PlaceValue) → making_starts place result
        ≡ start_asked place (command_shown nodes.next.command) ∷ [] }
    ensures outputs { making_outputs result ≡ map string_bytes nodes.next.outputs.items }
{
    match kind {
        TaskNodeKind::File { text, .. } => Making::Writing(Writing {
            text,
            from: 0,
            nodes,
        }),
        TaskNodeKind::Symlink { .. } => Making::Nodes(left_above(nodes)),
        TaskNodeKind::Directory => Making::Nodes(nodes),
        TaskNodeKind::Made { .. } => Making::Nodes(left_above(nodes)),
    }
}

/// The names of the directory above in place of a node's own.
fn left_above(nodes: Nodes) -> Nodes
    ensures left { (text : ℕ → List ℕ) → (place : PlaceValue) →
        nodes_left text place (map rc_str_bytes result.above.items) result
        ≡ nodes_left text place (take (length (map rc_str_bytes nodes.above.items) - 1)
        (map rc_str_bytes nodes.above.items)) nodes }
    ensures next { result.next ≡ nodes.next }
{
    let mut nodes = nodes;
    nodes.above.pop();
    nodes
}

/// Makes the next node.
fn make_node<F: Folder>(folder: &mut F, place: &Place, nodes: Nodes) -> Result<Step, RunFault>
    ensures goes { IfOk result (λ step. FolderGoes (place_shown place.now)
        (Stages.Making (Makings.Nodes nodes)) step (F.asked folder.old) (F.asked folder.new)) }
    ensures few { FolderAsks (F.asked folder.old) (F.asked folder.new) }
    ensures counts { FolderCounts result (F.failures folder.old) (F.failures folder.new) }
    ensures counted { IfOk result GoesCounted }
    ensures stops { IfErr result (λ fault. FolderStops (place_shown place.now)
        (Stages.Making (Makings.Nodes nodes)) fault (F.asked folder.old) (F.asked folder.new)) }
{
    let mut nodes = nodes;
    let Some(node) = nodes.left.pop_front() else {
        return Ok(Step::Goes(Stage::Making(Making::Directory(nodes.next())), 1));
    };
    let TaskNode { name, level, kind } = node;
    nodes.above.truncate(level.saturating_sub(1));
    nodes.above.push(name)?;
    of_folder(folder.make_node(place.run, &nodes.above, &kind))?;
    let making = after_node(nodes, kind);
    Ok(Step::Goes(Stage::Making(making), COST_OF_NODE))
}

/// Writes the next part of a file.
fn write_part<F: Folder, T: Texts>(
    folder: &mut F,
    texts: &T,
    place: &Place,
    writing: Writing,
) -> Result<Step, RunFault>
    ensures goes { IfOk result (λ step. (p : Option (List ProgramCall)) →
        Goes (T.text_of texts.now) (place_shown place.now)
        (Stages.Making (Makings.Writing writing)) step
        (F.asked folder.old) (F.asked folder.new) p p) }
    ensures few { FolderAsks (F.asked folder.old) (F.asked folder.new) }
    ensures counts { FolderCounts result (F.failures folder.old) (F.failures folder.new) }
    ensures counted { IfOk result GoesCounted }
    ensures stops { IfErr result (λ fault. (p : Option (List ProgramCall)) →
        Stops (T.text_of texts.now) (place_shown place.now)
        (Stages.Making (Makings.Writing writing)) fault
        (F.asked folder.old) (F.asked folder.new) p p) }
{
    let Writing { text, from, nodes } = writing;
    let part = texts.part(text, from, PIECE);
    if part.is_empty() {
        return Ok(Step::Goes(Stage::Making(Making::Nodes(left_above(nodes))), 1));
    }
    of_folder(folder.write(place.run, &nodes.above, part))?;
    let count = part.len();
    let from = from + count as u64;
    let making = Making::Writing(Writing { text, from, nodes });
    Ok(Step::Goes(Stage::Making(making), cost_of(count)))
}

/// Makes the working directory.
fn make_directory<F: Folder>(
    folder: &mut F,
    place: &Place,
    prepared: Prepared,
) -> Result<Step, RunFault>
    ensures goes { IfOk result (λ step. FolderGoes (place_shown place.now)
        (Stages.Making (Makings.Directory prepared)) step
        (F.asked folder.old) (F.asked folder.new)) }
    ensures few { FolderAsks (F.asked folder.old) (F.asked folder.new) }
    ensures counts { FolderCounts result (F.failures folder.old) (F.failures folder.new) }
    ensures counted { IfOk result GoesCounted }
    ensures stops { IfErr result (λ fault. FolderStops (place_shown place.now)
        (Stages.Making (Makings.Directory prepared)) fault
        (F.asked folder.old) (F.asked folder.new)) }
{
    of_folder(folder.make_working_directory(place))?;
    let parents = prepared.parents();
    let cost = cost_of_path(&place.directory);
    Ok(Step::Goes(Stage::Making(Making::Parents(parents)), cost))
}

/// Makes the directories above the next output.
fn make_parents<F: Folder>(
    folder: &mut F,
    place: &Place,
    parents: Parents,
) -> Result<Step, RunFault>
    ensures goes { IfOk result (λ step. FolderGoes (place_shown place.now)
        (Stages.Making (Makings.Parents parents)) step (F.asked folder.old) (F.asked folder.new)) }
    ensures few { FolderAsks (F.asked folder.old) (F.asked folder.new) }
    ensures counts { FolderCounts result (F.failures folder.old) (F.failures folder.new) }
    ensures counted { IfOk result GoesCounted }
    ensures stops { IfErr result (λ fault. FolderStops (place_shown place.now)
        (Stages.Making (Makings.Parents parents)) fault (F.asked folder.old) (F.asked folder.new)) }
{
    let mut parents = parents;
    let Some(path) = parents.left.pop_front() else {
        return Ok(Step::Goes(Stage::Making(Making::Starting(parents.prepared())), 1));
    };
    of_folder(folder.make_parents(place, path.as_str()))?;
    let cost = cost_of_path(&path);
    parents.made.push_back(path)?;
    Ok(Step::Goes(Stage::Making(Making::Parents(parents)), cost))
}

/// Starts the program.
fn start<P: Programs>(programs: &mut P, place: &Place, prepared: Prepared) -> Result<Step, RunFault>
    ensures goes { IfOk result (λ step. ProgramGoes (place_shown place.now)
        (Stages.Making (Makings.Starting prepared)) step
        (P.asked programs.old) (P.asked programs.new)) }
    ensures few { ProgramAsks (P.asked programs.old) (P.asked programs.new) }
    ensures counts { ProgramsCounts result (P.failures programs.old) (P.failures programs.new) }
    ensures counted { IfOk result GoesCounted }
    ensures stops { IfErr result (λ fault. ProgramStops (place_shown place.now)
        (Stages.Making (Makings.Starting prepared)) fault
        (P.asked programs.old) (P.asked programs.new)) }
{
    of_programs(programs.start(place, &prepared.command))?;
    Ok(Step::Goes(Stage::Running(prepared.outputs()), u32::MAX))
}

/// The next step of a folder that is being made.
pub(crate) fn make<F: Folder, P: Programs, T: Texts>(
    folder: &mut F,
    programs: &mut P,
    texts: &T,
    place: &Place,
    making: Making,
) -> Result<Step, RunFault>
    ensures goes { IfOk result (λ step. Goes (T.text_of texts.now) (place_shown place.now)
        (Stages.Making making) step (F.asked folder.old) (F.asked folder.new)
        (P.asked programs.old) (P.asked programs.new)) }
    ensures few { AddsAtMost 1 (F.asked folder.old) (F.asked folder.new)
        (P.asked programs.old) (P.asked programs.new) }
    ensures faults { Counted result (F.failures folder.old) (F.failures folder.new)
        (P.failures programs.old) (P.failures programs.new) }
    ensures counted { IfOk result GoesCounted }
    ensures stops { IfErr result (λ fault. Stops (T.text_of texts.now) (place_shown place.now)
        (Stages.Making making) fault (F.asked folder.old) (F.asked folder.new)
        (P.asked programs.old) (P.asked programs.new)) }
{
    match making {
        Making::Root(nodes) => make_root(folder, place, nodes),
        Making::Nodes(nodes) => make_node(folder, place, nodes),
        Making::Writing(writing) => write_part(folder, texts, place, writing),
        Making::Directory(prepared) => make_directory(folder, place, prepared),
        Making::Parents(parents) => make_parents(folder, place, parents),
        Making::Starting(prepared) => start(programs, place, prepared),
    }
}
