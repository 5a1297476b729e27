//! What is done for a run in one call: steps, until they took some tenths of a millisecond.

ghost use Rattle.std.specs.Prelude.{◌≡◌, IfErr, IfOk};
ghost use Rattle.run_calls.specs.Values.{place_shown};
ghost use Rattle.runner.specs.Steps.{Goes};
ghost use Rattle.runner.specs.Bounds.{AddsAtMost, most_of_step, most_of_steps};
ghost use Rattle.runner.specs.Faults.{Counted};
ghost use Rattle.runner.specs.Runs.{FailsBy, fault_of};
ghost use Rattle.runner.specs.Sizes.{IsCounted, IsCountedThen};
ghost use Rattle.runner.specs.Stops.{Stops};

use crate::fault::RunFault;
use crate::gathering::{list_output, next_in_tree, next_output, read_file, read_in_tree};
use crate::making::make;
use crate::running::{ask, measure, read_error, read_output, stop};
use crate::stage::{Making, Stage, Step, Stopped};
use run_calls::{Folder, Place, Programs, Texts};
use std::alloc::Global;

/// What steps may cost in one call: so much takes eight small calls, or 32 kilobytes that are hashed.
const MOST_COST: u32 = 8;

/// The next step of a run.
fn step<F: Folder, P: Programs, T: Texts>(
    alloc: Global,
    folder: &mut F,
    programs: &mut P,
    texts: &T,
    place: &Place,
    stage: Stage,
) -> Result<Step, RunFault>
    requires counted { IsCounted stage }
    ensures goes { IfOk result (λ step. Goes (T.text_of texts.now) (place_shown place.now) stage
        step (F.asked folder.old) (F.asked folder.new)
        (P.asked programs.old) (P.asked programs.new)) }
    ensures few { AddsAtMost (most_of_step result) (F.asked folder.old)
        (F.asked folder.new) (P.asked programs.old) (P.asked programs.new) }
    ensures faults { Counted result (F.failures folder.old) (F.failures folder.new)
        (P.failures programs.old) (P.failures programs.new) }
    ensures counted { IfOk result IsCountedThen }
    ensures stops { IfErr result (λ fault. Stops (T.text_of texts.now) (place_shown place.now) stage
        fault (F.asked folder.old) (F.asked folder.new)
        (P.asked programs.old) (P.asked programs.new)) }
{
    match stage {
        Stage::Making(making) => make(folder, programs, texts, place, making),
        Stage::Running(outputs) => ask(programs, place, outputs),
        Stage::Stopping(ended) => Ok(stop(programs, place, ended)),
        Stage::Measuring(ended) => measure(alloc, programs, place, ended),
        Stage::Output(ended, content) => read_output(alloc, programs, place, ended, content),
        Stage::Error(ended, stdout, content) => {
            read_error(alloc, programs, place, ended, stdout, content)
        }
        Stage::Outputs(gathering) => next_output(alloc, folder, place, gathering),
        Stage::File(gathering, file) => read_file(folder, place, gathering, file),
        Stage::Listing(gathering, path) => list_output(alloc, folder, place, gathering, path),
        Stage::Tree(gathering, tree) => next_in_tree(alloc, folder, place, gathering, tree),
        Stage::TreeFile(gathering, tree, file) => {
            read_in_tree(folder, place, gathering, tree, file)
        }
    }
}

/// Whether the next step of a run can be made at once.
fn is_ready<F: Folder>(folder: &mut F, place: &Place, stage: &Stage) -> bool
    ensures same { F.asked folder.new ≡ F.asked folder.old }
    ensures fails { F.failures folder.new ≡ F.failures folder.old }
{
    match stage {
        Stage::Making(Making::Root(_)) => folder.has_room(place.run),
        Stage::File(_, file) => folder.is_ready(place, file.path.as_str(), &[], None),
        Stage::TreeFile(_, tree, file) => {
            let (above, name) = (tree.nodes.above(), file.name.as_str());
            folder.is_ready(place, tree.path.as_str(), above, Some(name))
        }
        Stage::Making(_)
        | Stage::Running(_)
        | Stage::Stopping(_)
        | Stage::Measuring(_)
        | Stage::Output(_, _)
        | Stage::Error(_, _, _)
        | Stage::Outputs(_)
        | Stage::Listing(_, _)
        | Stage::Tree(_, _) => true,
    }
}

/// The next step of a run, or none where that would have to wait: the call ends then.
fn step_if_ready<F: Folder, P: Programs, T: Texts>(
    alloc: Global,
    folder: &mut F,
    programs: &mut P,
    texts: &T,
    place: &Place,
    stage: Stage,
) -> Result<Step, RunFault>
    requires counted { IsCounted stage }
    ensures goes { IfOk result (λ step. Goes (T.text_of texts.now) (place_shown place.now) stage
        step (F.asked folder.old) (F.asked folder.new)
        (P.asked programs.old) (P.asked programs.new)) }
    ensures few { AddsAtMost (most_of_step result) (F.asked folder.old)
        (F.asked folder.new) (P.asked programs.old) (P.asked programs.new) }
    ensures faults { Counted result (F.failures folder.old) (F.failures folder.new)
        (P.failures programs.old) (P.failures programs.new) }
    ensures counted { IfOk result IsCountedThen }
    ensures stops { IfErr result (λ fault. Stops (T.text_of texts.now) (place_shown place.now) stage
        fault (F.asked folder.old) (F.asked folder.new)
        (P.asked programs.old) (P.asked programs.new)) }
{
    if !is_ready(folder, place, &stage) {
        return Ok(Step::Goes(stage, u32::MAX));
    }
    step(alloc, folder, programs, texts, place, stage)
}

/// What is done for a run in one call.
pub(crate) fn turn<F: Folder, P: Programs, T: Texts>(
    alloc: Global,
    folder: &mut F,
    programs: &mut P,
    texts: &T,
    place: &Place,
    stage: Stage,
) -> Result<Step, Stopped>
    requires counted { IsCounted stage }
    ensures goes { IfOk result (λ step. Goes (T.text_of texts.now) (place_shown place.now) stage
        step (F.asked folder.old) (F.asked folder.new)
        (P.asked programs.old) (P.asked programs.new)) }
    ensures few { AddsAtMost (most_of_steps result) (F.asked folder.old)
        (F.asked folder.new) (P.asked programs.old) (P.asked programs.new) }
    ensures faults { Counted (fault_of result) (F.failures folder.old) (F.failures folder.new)
        (P.failures programs.old) (P.failures programs.new) }
    ensures counted { IfOk result IsCountedThen }
    ensures fails { IfErr result (λ stopped. FailsBy (T.text_of texts.now) place.now stage stopped
        (F.asked folder.old) (F.asked folder.new) (P.asked programs.old) (P.asked programs.new)) }
{
    let mut reached = stage;
    let mut spent = 0u32;
    for _ in 0..MOST_COST {
        let ending = reached.ending();
        let stepped = match step_if_ready(alloc, folder, programs, texts, place, reached) {
            Ok(stepped) => stepped,
            Err(fault) => return Err(Stopped { fault, ending }),
        };
        match stepped {
            Step::Exits(exited) => return Ok(Step::Exits(exited)),
            Step::Goes(next, cost) => {
                spent = spent.saturating_add(cost);
                if spent >= MOST_COST {
                    return Ok(Step::Goes(next, spent));
                }
                reached = next;
            }
        }
    }
    Ok(Step::Goes(reached, spent))
}
