//! A script, from its text to the status.
ghost use Rattle.std.specs.Prelude.{◌≡◌, ◌≢◌, ◌≤◌, ◌^◌, ℕ, List, [], length, Ok, None, Some, map, IfOk, IfErr, IfSome};
ghost use Rattle.std.specs.Io.KnownBytes.{Appends};
ghost use Rattle.tool_programs.specs.Status.{fault_line, status_of};
ghost use Rattle.tool_programs.specs.declared.status.Status.TheVariants.{Failed};
ghost use Rattle.tool_programs.specs.Printed.{printed_text, text_printed_by};
ghost use Rattle.tool_programs.specs.ReplayOutcome.{IsOutcome};
ghost use Rattle.script.specs.Faults.{IsFaultOf};
ghost use Rattle.script.specs.ReplayShown.{replay_script_value};
ghost use Rattle.server_core.specs.Families.{family_in, family_events};
ghost use Rattle.server_core.specs.LoneOutput.{config_at, lone_output, strays};
ghost use Rattle.server_core.specs.RunSoFar.{HasTaken};
ghost use Rattle.server_core.specs.Shown.{output_at};
ghost use Rattle.server_events.specs.Configs.{ConfigValue, config_fault, parent_of};
ghost use Rattle.server_events.specs.LimitsShown.{limits_value};
ghost use Rattle.server_events.specs.Shown.{config_value};

use crate::lines::lines;
use crate::status::{Status, read_all, told};
use script::ScriptFault;
use script::replay::{EventReader, ReplayScript, parse};
use server_core::{Outputs, ServerRun};
use server_events::{Configs, InstanceConfig, Limits};
use std::alloc::{AllocError, Global};
use std::io::{Read, Write};

/// Has a run that begins take the events that are read.
fn take_all(
    alloc: Global,
    begun: ServerRun,
    mut events: EventReader,
) -> Result<ServerRun, AllocError>
    requires begun { (configs : List ConfigValue) × HasTaken configs [] begun }
    requires few { length events ≤ 2 ^ 63 }
    ensures { IfOk result (λ run. (configs : List ConfigValue) → HasTaken configs [] begun
        → HasTaken configs events.entry run) }
{
    let mut run = begun;
    'events: while let Some(event) = events.next_event(alloc)? {
        run = run.step(event)?;
    }
    Ok(run)
}

/// Runs a server through the events that are read.
fn run(alloc: Global, configs: &Configs, events: EventReader) -> Result<Outputs, AllocError>
    requires few { length events ≤ 2 ^ 63 }
    ensures alone { IfOk result (λ outputs. (i : ℕ) (config : ConfigValue)
        → config_at i configs.now ≡ Some config
        → output_at i outputs.instances.items
        ≡ Some (lone_output (family_in configs.now config)
        (family_events i (parent_of configs.now config) events.entry))) }
    ensures count { IfOk result (λ outputs. length outputs.instances.items
        ≡ length configs.now) }
    ensures strays { IfOk result (λ outputs. outputs.strays.items
        ≡ strays configs.now events.entry) }
{
    let begun = ServerRun::new(alloc, configs)?;
    let ran = take_all(alloc, begun, events)?;
    ran.outputs(alloc)
}

/// The configurations of a script, which have no fault.
fn configured(configs: Vec<InstanceConfig>) -> Configs
    requires { config_fault (map config_value configs.items) ≡ None }
    ensures { result ≡ map config_value configs.items }
{
    Configs::new(configs).unwrap()
}

/// Runs a script, and gives what it prints.
fn carry_out(alloc: Global, script: ReplayScript) -> Result<Vec<u8>, AllocError>
    requires configs { config_fault (map config_value script.configs.items) ≡ None }
    requires few { length script.events ≤ 2 ^ 63 }
    ensures { IfOk result (λ text. text.items ≡ printed_text (replay_script_value script.entry)) }
{
    let configs = configured(script.configs);
    let outputs = run(alloc, &configs, script.events)?;
    lines(alloc, &outputs)
}

/// What the script of a text prints.
fn replayed(alloc: Global, limits: Limits, text: &[u8]) -> Result<Vec<u8>, ScriptFault>
    ensures printed { IfOk result (λ lines.
        text_printed_by (limits_value limits) text.now ≡ Ok lines.items) }
    ensures fault { IfErr result (IsFaultOf (text_printed_by (limits_value limits) text.now)) }
{
    let script = parse(alloc, limits, text)?;
    match carry_out(alloc, script) {
        Ok(lines) => Ok(lines),
        Err(_) => Err(ScriptFault::NoMemory),
    }
}

fn perform<I: Read, O: Write>(
    alloc: Global,
    limits: Limits,
    input: &mut I,
    output: &mut O,
) -> Result<(), Status>
    ensures { IfSome (I.remaining input.old)
        (λ text. IsOutcome (text_printed_by (limits_value limits) text) (status_of result)
        (O.contents output.old) (O.contents output.new)) }
{
    let text = read_all(alloc, input)?;
    let lines = replayed(alloc, limits, &text)?;
    match output.write_all(&lines) {
        Ok(()) => Ok(()),
        Err(_) => Err(Status::Failed),
    }
}

/// Reads a script of events, runs it on a server of its own, for whose instances these limits were
/// chosen, and writes what each instance sent on its connections, ordered of whoever runs jobs, and
/// refused, and which events were no instance's. A fault is told in one line on `errors`. Where a
/// line is bad, nothing is carried out.
pub fn replay<I: Read, O: Write, E: Write>(
    alloc: Global,
    limits: Limits,
    input: &mut I,
    output: &mut O,
    errors: &mut E,
) -> Status
    ensures outcome { IfSome (I.remaining input.old)
        (λ text. IsOutcome (text_printed_by (limits_value limits) text) result
        (O.contents output.old) (O.contents output.new)) }
    // Where the line could not be written, the status is `Failed`.
    ensures told { result ≢ Failed →
        Appends (E.contents errors.old) (E.contents errors.new) (fault_line result) }
{
    told(perform(alloc, limits, input, output), errors)
}
