//! The commands by which programs are started.

ghost use Rattle.std.specs.Prelude.{◌≡◌, ◌≢◌, ◌++◌, ◌∷◌, ℕ, List, None, Some, IfOk, OnOk, codes, true, map, string_bytes};
ghost use Rattle.run_calls.specs.Values.{variable_shown};
ghost use Rattle.run_programs.specs.Launching.{StartsBare, session_words};
ghost use Rattle.run_programs.specs.Spawning.{set_by};

use crate::host::SESSION;
use run_calls::Variable;
use std::alloc::AllocError;
use std::io::{self, ErrorKind};
use system::{Command, Spawner};

/// A command that starts the first of these words with the others as its arguments, in a session of
/// its own where there are such, in this directory, and with no variables.
pub(crate) fn bare_command<S: Spawner>(
    spawner: &S,
    has_sessions: bool,
    words: &[String],
    directory: &str,
) -> io::Result<S::Command>
    ensures { IfOk result (λ command. StartsBare (session_words has_sessions
        (map string_bytes words.now)) directory.now (S.Command.shown command)) }
{
    let [program, arguments @ ..] = words else {
        return Err(io::Error::from(ErrorKind::InvalidInput));
    };
    if has_sessions {
        let mut command = spawner.command(SESSION)?;
        fill_session(&mut command, words, directory)?;
        Ok(command)
    } else {
        let mut command = spawner.command(program.as_str())?;
        fill(&mut command, arguments, directory)?;
        Ok(command)
    }
}

/// Adds the words behind `--` to what makes sessions.
fn fill_session<C: Command>(
    command: &mut C,
    words: &[String],
    directory: &str,
) -> Result<(), AllocError>
    ensures words { OnOk result ((C.shown command.new).words
        ≡ (C.shown command.old).words ++ (codes "--" ∷ map string_bytes words.now)) }
    ensures cleared { OnOk result ((C.shown command.new).clears_env ≡ true) }
    ensures variables { OnOk result ((name : List ℕ)
        → (C.shown command.new).variable name ≡ None) }
    ensures directory { OnOk result ((C.shown command.new).directory ≡ Some directory.now) }
{
    command.add("--")?;
    fill(command, words, directory)
}

/// Adds words to a command that is to be started in a directory, with no variables.
fn fill<C: Command>(command: &mut C, words: &[String], directory: &str) -> Result<(), AllocError>
    ensures words { OnOk result ((C.shown command.new).words
        ≡ (C.shown command.old).words ++ map string_bytes words.now) }
    ensures cleared { OnOk result ((C.shown command.new).clears_env ≡ true) }
    ensures variables { OnOk result ((name : List ℕ)
        → (C.shown command.new).variable name ≡ None) }
    ensures directory { OnOk result ((C.shown command.new).directory ≡ Some directory.now) }
{
    add_words(command, words)?;
    command.clear();
    command.enter(directory)
}

fn add_words<C: Command>(command: &mut C, words: &[String]) -> Result<(), AllocError>
    ensures { OnOk result ((C.shown command.new).words
        ≡ (C.shown command.old).words ++ map string_bytes words.now) }
{
    let mut left = words;
    while let [first, rest @ ..] = left {
        command.add(first.as_str())?;
        left = rest;
    }
    Ok(())
}

/// Gives a program its variables: of several of one name the last.
pub(crate) fn add_variables<C: Command>(
    command: &mut C,
    variables: &[Variable],
) -> Result<(), AllocError>
    ensures words { OnOk result ((C.shown command.new).words ≡ (C.shown command.old).words) }
    ensures cleared { OnOk result ((C.shown command.new).clears_env
        ≡ (C.shown command.old).clears_env) }
    ensures variables { OnOk result ((name : List ℕ) → (C.shown command.new).variable name
        ≡ set_by (map variable_shown variables.now) name
        ((C.shown command.old).variable name)) }
    ensures directory { OnOk result ((C.shown command.new).directory
        ≡ (C.shown command.old).directory) }
{
    let mut left = variables;
    while let [first, rest @ ..] = left {
        command.set(first.name.as_str(), first.value.as_str())?;
        left = rest;
    }
    Ok(())
}
