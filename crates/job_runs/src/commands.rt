//! Commands of tasks.

ghost use Rattle.std.specs.Prelude.{◌≡◌, map, string_bytes, IfOk};
ghost use Rattle.execution_messages.specs.Actions.{environment_variable_shown};
ghost use Rattle.execution_messages.specs.Actions as messages;
ghost use Rattle.run_calls.specs.Values.{command_shown, variable_shown};
ghost use Rattle.actions.specs.Shown.{asked_shown};
ghost use Rattle.job_runs.specs.Tasks.{command_for, no_command, output_paths, program_of, variable_of};

use actions::{AskedOutput, asked_outputs, read_command};
use execution_messages::{Command as CommandMessage, EnvironmentVariable};
use run_calls::{Command, Variable};
use std::alloc::{AllocError, Global};
use std::collections::VecDeque;

/// The command that a text spells. One that asks for nothing, where it spells none.
pub(crate) fn command_for<'a>(
    alloc: Global,
    text: &'a [u8],
) -> Result<CommandMessage<'a>, AllocError>
    ensures { IfOk result (λ command. messages.command_shown command ≡ command_for text.now) }
{
    match read_command(alloc, text)? {
        Some(command) => Ok(command),
        None => Ok(no_command(alloc)),
    }
}

fn no_command<'a>(alloc: Global) -> CommandMessage<'a>
    ensures { messages.command_shown result ≡ no_command }
{
    CommandMessage {
        arguments: Vec::new(alloc),
        environment_variables: Vec::new(alloc),
        output_files: Vec::new(alloc),
        output_directories: Vec::new(alloc),
        working_directory: "",
        output_paths: Vec::new(alloc),
    }
}

fn arguments_of(alloc: Global, arguments: &[&str]) -> Result<Vec<String>, AllocError>
    ensures { IfOk result (λ made. map string_bytes made.items ≡ map (λ s. s.now) arguments.now) }
{
    let mut made = Vec::with_capacity(alloc, arguments.len())?;
    let mut left = arguments;
    while let [first, rest @ ..] = left {
        let argument = String::from_str(alloc, first)?;
        made.push(argument)?;
        left = rest;
    }
    Ok(made)
}

fn variable_of(alloc: Global, variable: &EnvironmentVariable<'_>) -> Result<Variable, AllocError>
    ensures { IfOk result (λ made. variable_shown made
        ≡ variable_of (environment_variable_shown variable.now)) }
{
    let name = String::from_str(alloc, variable.name)?;
    let value = String::from_str(alloc, variable.value)?;
    Ok(Variable { name, value })
}

fn variables_of(
    alloc: Global,
    variables: &[EnvironmentVariable<'_>],
) -> Result<Vec<Variable>, AllocError>
    ensures { IfOk result (λ made. map variable_shown made.items
        ≡ map variable_of (map environment_variable_shown variables.now)) }
{
    let mut made = Vec::with_capacity(alloc, variables.len())?;
    let mut left = variables;
    while let [first, rest @ ..] = left {
        let variable = variable_of(alloc, first)?;
        made.push(variable)?;
        left = rest;
    }
    Ok(made)
}

/// The program of a command, and what it is given.
pub(crate) fn program_of(alloc: Global, command: &CommandMessage<'_>) -> Result<Command, AllocError>
    ensures { IfOk result (λ made. command_shown made
        ≡ program_of (messages.command_shown command.now)) }
{
    let arguments = arguments_of(alloc, &command.arguments)?;
    let variables = variables_of(alloc, &command.environment_variables)?;
    Ok(Command {
        arguments,
        variables,
    })
}

fn paths_of(alloc: Global, asked: &[AskedOutput<'_>]) -> Result<VecDeque<String>, AllocError>
    ensures { IfOk result (λ paths. map string_bytes paths.items
        ≡ map (λ a. a.path) (map asked_shown asked.now)) }
{
    let mut paths = VecDeque::with_capacity(alloc, asked.len())?;
    let mut left = asked;
    while let [first, rest @ ..] = left {
        let path = String::from_str(alloc, first.path)?;
        paths.push_back(path)?;
        left = rest;
    }
    Ok(paths)
}

/// The paths of the outputs that a command asks for, in order.
pub(crate) fn output_paths(
    alloc: Global,
    command: &CommandMessage<'_>,
) -> Result<VecDeque<String>, AllocError>
    ensures { IfOk result (λ paths. map string_bytes paths.items
        ≡ output_paths (messages.command_shown command.now)) }
{
    let asked = asked_outputs(alloc, command)?;
    paths_of(alloc, &asked)
}
