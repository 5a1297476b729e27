//! A script, run line by line.

ghost use Rattle.std.specs.Prelude.{◌≡◌, ◌≢◌, ◌++◌, ◌<◌, ℕ, List, [], ◌∷◌, length, map, take, vec_len, OnOk, IfSome, Err};
ghost use Rattle.std.specs.List.{All};
ghost use Rattle.std.specs.Io.KnownBytes.{Appends, Keeps};
ghost use Rattle.tool_programs.specs.Status.{fault_line, status_of};
ghost use Rattle.tool_programs.specs.declared.status.Status.TheVariants.{Failed};
ghost use Rattle.tool_programs.specs.declared.status.Fault.TheVariants.{OutOfMemory};
ghost use Rattle.script.specs.UnaryShown.{command_value, unary_script_value};
ghost use Rattle.script.specs.LimitsShown.{limits_value};
ghost use Rattle.script.specs.UnaryLines.{instance_place, HasGoodInstances};
ghost use Rattle.tool_programs.specs.Session.{line_of, store_of, stores_after, lines_of_commands, lines_of_value, lines_of_script, text_of_lines};
ghost use Rattle.tool_programs.specs.UnaryOutcome.{IsOutcome};

use crate::session::{answer, open_all};
use crate::status::{Fault, Status, read_all, told};
use crate::store::Store;
use script::Limits;
use script::unary::{Command, UnaryScript, parse};
use std::alloc::Global;
use std::io::{Read, Write};

/// Carries a command out, and writes its line.
fn step<O: Write>(
    alloc: Global,
    stores: &mut [Store],
    command: &Command,
    output: &mut O,
) -> Result<(), Fault>
    requires { instance_place (command_value command.now) < length stores.old }
    ensures line { OnOk result (Appends (O.contents output.old) (O.contents output.new)
        (line_of (command_value command.now) (store_of (command_value command.now) stores.old) ++ 10
        ∷ [])) }
    ensures after { OnOk result (stores.new ≡ stores_after (command_value command.now) stores.old) }
    ensures memory { result ≡ Err OutOfMemory →
        Keeps (O.contents output.old) (O.contents output.new) }
{
    let line = answer(alloc, stores, command)?;
    match output.write_all(&line) {
        Ok(()) => Ok(()),
        Err(_) => Err(Fault::InputOrOutput),
    }
}

/// Carries the commands out, and writes their lines.
fn play<O: Write>(
    alloc: Global,
    stores: &mut [Store],
    commands: &[Command],
    output: &mut O,
) -> Result<(), Fault>
    requires { All (λ command. instance_place (command_value command) < length stores.old)
        commands.now }
    ensures lines { OnOk result (Appends (O.contents output.old) (O.contents output.new)
        (text_of_lines (lines_of_commands (map command_value commands.now) stores.old))) }
    ensures memory { result ≡ Err OutOfMemory →
        (count : ℕ) × Appends (O.contents output.old) (O.contents output.new)
        (text_of_lines (take count
        (lines_of_commands (map command_value commands.now) stores.old))) }
{
    for command in commands {
        step(alloc, stores, command, output)?;
    }
    Ok(())
}

/// Carries a script out, for whose instances these limits were chosen, and writes what it prints.
fn perform<O: Write>(
    alloc: Global,
    limits: Limits,
    script: &UnaryScript,
    output: &mut O,
) -> Result<(), Fault>
    requires instances { HasGoodInstances (unary_script_value script.now).instances }
    requires commands { All (λ command. instance_place
        (command_value command) < vec_len script.now.instances) script.now.commands.items }
    ensures lines { OnOk result (Appends (O.contents output.old) (O.contents output.new)
        (text_of_lines
        (lines_of_value (limits_value limits) (unary_script_value script.now)))) }
    ensures memory { result ≡ Err OutOfMemory →
        (count : ℕ) × Appends (O.contents output.old) (O.contents output.new)
        (text_of_lines (take count
        (lines_of_value (limits_value limits) (unary_script_value script.now)))) }
{
    let mut stores = open_all(alloc, limits, &script.instances)?;
    play(alloc, &mut stores, &script.commands, output)
}

/// Reads a script, carries it out, and writes what it prints.
fn run<I: Read, O: Write>(
    alloc: Global,
    limits: Limits,
    input: &mut I,
    output: &mut O,
) -> Result<(), Status>
    ensures { IfSome (I.remaining input.old)
        (λ text. IsOutcome (lines_of_script (limits_value limits) text) (status_of result)
        (O.contents output.old) (O.contents output.new)) }
{
    let text = read_all(alloc, input)?;
    let script = parse(alloc, &text)?;
    perform(alloc, limits, &script, output)?;
    Ok(())
}

/// Reads a script of calls, carries it out by instances for which these limits were chosen, and
/// writes a line for each command. A fault is told in one line on `errors`. Where a line is bad,
/// nothing is carried out.
pub fn unary<I: Read, O: Write, E: Write>(
    alloc: Global,
    limits: Limits,
    input: &mut I,
    output: &mut O,
    errors: &mut E,
) -> Status
    ensures outcome { IfSome (I.remaining input.old)
        (λ text. IsOutcome (lines_of_script (limits_value limits) text) result
        (O.contents output.old) (O.contents output.new)) }
    // Where the line could not be written, the status is `Failed`.
    ensures told { result ≢ Failed →
        Appends (E.contents errors.old) (E.contents errors.new) (fault_line result) }
{
    told(run(alloc, limits, input, output), errors)
}
