//! Copies of what calls name and answer, for logs.

ghost use Rattle.std.specs.Prelude.{◌≡◌, IfOk, map, string_bytes};
ghost use Rattle.std.specs.Rc.{rc_str_bytes};
ghost use Rattle.run_calls.specs.Values.{command_shown, entry_shown, place_shown, variable_shown};

use run_calls::{Command, Entry, Place, Variable};
use std::alloc::{AllocError, Global};
use std::rc::RcStr;

pub(crate) fn copied_bytes(alloc: Global, bytes: &[u8]) -> Result<Vec<u8>, AllocError>
    ensures { IfOk result (λ copy. copy.items ≡ bytes.now) }
{
    Vec::from_slice(alloc, bytes)
}

pub(crate) fn copied_names(alloc: Global, names: &[String]) -> Result<Vec<String>, AllocError>
    ensures { IfOk result (λ copy. map string_bytes copy.items ≡ map string_bytes names.now) }
{
    let mut copy = Vec::new(alloc);
    let mut left = names;
    while let [first, rest @ ..] = left {
        copy.push(String::from_str(alloc, first)?)?;
        left = rest;
    }
    Ok(copy)
}

/// The same names, which share their texts.
pub(crate) fn shared_names(alloc: Global, names: &[RcStr]) -> Result<Vec<RcStr>, AllocError>
    ensures { IfOk result (λ same. map rc_str_bytes same.items ≡ map rc_str_bytes names.now) }
{
    let mut same = Vec::new(alloc);
    let mut left = names;
    while let [first, rest @ ..] = left {
        same.push(first.clone()?)?;
        left = rest;
    }
    Ok(same)
}

pub(crate) fn copied_place(alloc: Global, place: &Place) -> Result<Place, AllocError>
    ensures { IfOk result (λ copy. place_shown copy ≡ place_shown place.now) }
{
    let directory = String::from_str(alloc, &place.directory)?;
    Ok(Place {
        run: place.run,
        directory,
        function: place.function,
    })
}

fn copied_entry(alloc: Global, entry: &Entry) -> Result<Entry, AllocError>
    ensures { IfOk result (λ copy. entry_shown copy ≡ entry_shown entry.now) }
{
    let name = String::from_str(alloc, &entry.name)?;
    Ok(Entry {
        name,
        is_directory: entry.is_directory,
    })
}

pub(crate) fn copied_entries(alloc: Global, entries: &[Entry]) -> Result<Vec<Entry>, AllocError>
    ensures { IfOk result (λ copy. map entry_shown copy.items ≡ map entry_shown entries.now) }
{
    let mut copy = Vec::new(alloc);
    let mut left = entries;
    while let [first, rest @ ..] = left {
        copy.push(copied_entry(alloc, first)?)?;
        left = rest;
    }
    Ok(copy)
}

fn copied_variable(alloc: Global, variable: &Variable) -> Result<Variable, AllocError>
    ensures { IfOk result (λ copy. variable_shown copy ≡ variable_shown variable.now) }
{
    let name = String::from_str(alloc, &variable.name)?;
    let value = String::from_str(alloc, &variable.value)?;
    Ok(Variable { name, value })
}

fn copied_variables(alloc: Global, variables: &[Variable]) -> Result<Vec<Variable>, AllocError>
    ensures { IfOk result
        (λ copy. map variable_shown copy.items ≡ map variable_shown variables.now) }
{
    let mut copy = Vec::new(alloc);
    let mut left = variables;
    while let [first, rest @ ..] = left {
        copy.push(copied_variable(alloc, first)?)?;
        left = rest;
    }
    Ok(copy)
}

pub(crate) fn copied_command(alloc: Global, command: &Command) -> Result<Command, AllocError>
    ensures { IfOk result (λ copy. command_shown copy ≡ command_shown command.now) }
{
    let arguments = copied_names(alloc, &command.arguments)?;
    let variables = copied_variables(alloc, &command.variables)?;
    Ok(Command {
        arguments,
        variables,
    })
}
