//! Asking a program, ending it, and reading what it wrote, step by step.

ghost use Rattle.std.specs.Prelude.{◌≡◌, [], ◌∷◌, ◌++◌, IfErr, IfOk};
ghost use Rattle.run_calls.specs.Values.{PlaceValue, place_shown};
ghost use Rattle.runner.specs.Steps.{ProgramGoes, exited_told};
ghost use Rattle.runner.specs.Bounds.{ProgramAsks};
ghost use Rattle.runner.specs.Faults.{ProgramsCounts, StaysOrRises};
ghost use Rattle.runner.specs.Sizes.{GoesCounted, IsCounted};
ghost use Rattle.runner.specs.Stops.{ProgramStops};
ghost use Rattle.runner.specs.Told.{code_item, killed_item, whole_stream};
ghost use Rattle.run_calls.specs.declared.programs.Stream.TheVariants as StreamKinds;
ghost use Rattle.runner.specs.declared.stage.Stage.TheVariants as Stages;
ghost use Rattle.runner.specs.declared.stage.Step.TheVariants.{Goes};

use crate::fault::{RunFault, of_programs};
use crate::making::{PIECE, cost_of};
use crate::reading::{MOST_BYTES, Reading, is_too_large};
use crate::stage::{Ended, Gathering, Stage, Step};
use crate::wanted::Wanted;
use run_calls::{Content, Exited, Place, Programs, Stream, Streams};
use std::alloc::Global;

/// Asks whether the program has ended.
pub(crate) fn ask<P: Programs>(
    programs: &mut P,
    place: &Place,
    outputs: Wanted,
) -> Result<Step, RunFault>
    ensures goes { IfOk result (λ step. ProgramGoes (place_shown place.now)
        (Stages.Running outputs) step (P.asked programs.old) (P.asked programs.new)) }
    ensures few { ProgramAsks (P.asked programs.old) (P.asked programs.new) }
    ensures counts { ProgramsCounts result (P.failures programs.old) (P.failures programs.new) }
    ensures counted { IfOk result GoesCounted }
    ensures stops { IfErr result (λ fault. ProgramStops (place_shown place.now)
        (Stages.Running outputs) fault (P.asked programs.old) (P.asked programs.new)) }
{
    match of_programs(programs.ask(place.run))? {
        None => Ok(Step::Goes(Stage::Running(outputs), u32::MAX)),
        Some(code) => Ok(ended(code, outputs)),
    }
}

fn ended(code: i32, outputs: Wanted) -> Step
    ensures { result ≡ Goes (Stages.Stopping (record { code = code; outputs = outputs })) 1 }
{
    Step::Goes(Stage::Stopping(Ended { code, outputs }), 1)
}

/// Ends all that the program started. Where that is not done, or fails, the next call tries again.
pub(crate) fn stop<P: Programs>(programs: &mut P, place: &Place, ended: Ended) -> Step
    ensures goes { ProgramGoes (place_shown place.now)
        (Stages.Stopping ended) result (P.asked programs.old) (P.asked programs.new) }
    ensures few { ProgramAsks (P.asked programs.old) (P.asked programs.new) }
    ensures counts { StaysOrRises (P.failures programs.old) (P.failures programs.new) }
    ensures counted { GoesCounted result }
{
    match programs.kill(place.run) {
        Ok(true) => Step::Goes(Stage::Measuring(ended), 1),
        Ok(false) => Step::Goes(Stage::Stopping(ended), u32::MAX),
        Err(_) => Step::Goes(Stage::Stopping(ended), u32::MAX),
    }
}

/// Looks how much it wrote, before any of it is read.
pub(crate) fn measure<P: Programs>(
    alloc: Global,
    programs: &mut P,
    place: &Place,
    ended: Ended,
) -> Result<Step, RunFault>
    ensures goes { IfOk result (λ step. ProgramGoes (place_shown place.now)
        (Stages.Measuring ended) step (P.asked programs.old) (P.asked programs.new)) }
    ensures few { ProgramAsks (P.asked programs.old) (P.asked programs.new) }
    ensures counts { ProgramsCounts result (P.failures programs.old) (P.failures programs.new) }
    ensures counted { IfOk result GoesCounted }
    ensures stops { IfErr result (λ fault. ProgramStops (place_shown place.now)
        (Stages.Measuring ended) fault (P.asked programs.old) (P.asked programs.new)) }
{
    let length = of_programs(programs.length(place.run))?;
    if length > MOST_BYTES {
        return Err(RunFault::TooLarge);
    }
    Ok(Step::Goes(Stage::Output(ended, Reading::new(alloc, place.function)), 1))
}

/// Reads the next piece of standard output.
pub(crate) fn read_output<P: Programs>(
    alloc: Global,
    programs: &mut P,
    place: &Place,
    ended: Ended,
    content: Reading,
) -> Result<Step, RunFault>
    requires counted { IsCounted (Stages.Output ended content) }
    ensures goes { IfOk result (λ step. ProgramGoes (place_shown place.now)
        (Stages.Output ended content) step (P.asked programs.old) (P.asked programs.new)) }
    ensures few { ProgramAsks (P.asked programs.old) (P.asked programs.new) }
    ensures counts { ProgramsCounts result (P.failures programs.old) (P.failures programs.new) }
    ensures counted { IfOk result GoesCounted }
    ensures stops { IfErr result (λ fault. ProgramStops (place_shown place.now)
        (Stages.Output ended content) fault (P.asked programs.old) (P.asked programs.new)) }
{
    let mut content = content;
    let from = content.length();
    let piece = of_programs(programs.read(place.run, Stream::Output, from, PIECE))?;
    if piece.is_empty() {
        let stage = Stage::Error(ended, content.whole(), Reading::new(alloc, place.function));
        return Ok(Step::Goes(stage, 1));
    }
    if is_too_large(from, piece.len() as u64) {
        return Err(RunFault::TooLarge);
    }
    content.push(&piece)?;
    Ok(Step::Goes(Stage::Output(ended, content), cost_of(piece.len())))
}

/// Reads the next piece of standard error.
pub(crate) fn read_error<P: Programs>(
    alloc: Global,
    programs: &mut P,
    place: &Place,
    ended: Ended,
    stdout: Content,
    content: Reading,
) -> Result<Step, RunFault>
    requires counted { IsCounted (Stages.Error ended stdout content) }
    ensures goes { IfOk result (λ step. ProgramGoes (place_shown place.now)
        (Stages.Error ended stdout content) step (P.asked programs.old) (P.asked programs.new)) }
    ensures few { ProgramAsks (P.asked programs.old) (P.asked programs.new) }
    ensures counts { ProgramsCounts result (P.failures programs.old) (P.failures programs.new) }
    ensures counted { IfOk result GoesCounted }
    ensures stops { IfErr result (λ fault. ProgramStops (place_shown place.now)
        (Stages.Error ended stdout content) fault (P.asked programs.old) (P.asked programs.new)) }
{
    let mut content = content;
    let from = content.length();
    let piece = of_programs(programs.read(place.run, Stream::Error, from, PIECE))?;
    if piece.is_empty() {
        let gathering = both_read(alloc, ended, stdout, content);
        return Ok(Step::Goes(Stage::Outputs(gathering), 1));
    }
    if is_too_large(stdout.length() + from, piece.len() as u64) {
        return Err(RunFault::TooLarge);
    }
    content.push(&piece)?;
    Ok(Step::Goes(Stage::Error(ended, stdout, content), cost_of(piece.len())))
}

/// Nothing gathered yet.
fn both_read(alloc: Global, ended: Ended, stdout: Content, stderr: Reading) -> Gathering
    requires counted { IsCounted (Stages.Error ended stdout stderr) }
    ensures told { (place : PlaceValue) →
        exited_told place result.exited ≡ code_item place.run ended.code ∷ killed_item place.run
        ∷ (whole_stream place.run StreamKinds.Output stdout
        ++ whole_stream place.run StreamKinds.Error stderr) }
    ensures outputs { result.exited.outputs.items ≡ [] }
    ensures left { result.left ≡ ended.outputs }
    ensures counted { IsCounted (Stages.Outputs result) }
{
    let taken = stdout.length() + stderr.length();
    let Ended { code, outputs } = ended;
    let stderr = stderr.whole();
    let (left, streams) = outputs.written(Streams { stdout, stderr });
    let exited = Exited {
        code,
        streams,
        outputs: Vec::new(alloc),
    };
    Gathering {
        exited,
        left,
        taken,
    }
}
