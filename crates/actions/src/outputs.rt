//! The outputs that a command asks for.

ghost use Rattle.std.specs.Prelude.{◌≡◌, ◌++◌, map, IfOk, OnOk};
ghost use Rattle.execution_messages.specs.Actions.{command_shown};
ghost use Rattle.actions.specs.Commands.{asked_as, asked_outputs};
ghost use Rattle.actions.specs.Shown.{asked_shown};

use execution_messages::Command;
use std::alloc::{AllocError, Global};

/// An output that a command asks for.
#[derive(Clone, Copy, PartialEq, Eq, Debug)]
pub struct AskedOutput<'a> {
    /// Where it is to be, from the working directory.
    pub path: &'a str,
    /// Whether it may be a file.
    pub as_file: bool,
    /// Whether it may be a directory.
    pub as_tree: bool,
}

/// Adds what is asked for at paths.
fn add_paths<'a>(
    asked: &mut Vec<AskedOutput<'a>>,
    paths: &[&'a str],
    as_file: bool,
    as_tree: bool,
) -> Result<(), AllocError>
    ensures { OnOk result (map asked_shown asked.new.items ≡ map asked_shown asked.old.items
        ++ map (asked_as as_file as_tree) (map (λ s. s.now) paths.now)) }
{
    let mut left = paths;
    while let [first, rest @ ..] = left {
        asked.push(AskedOutput {
            path: *first,
            as_file,
            as_tree,
        })?;
        left = rest;
    }
    Ok(())
}

/// The outputs that a command asks for, in order: those of `output_paths`, each of which may be a
/// file or a directory. A command without any asks by `output_files` and `output_directories`.
pub fn asked_outputs<'a>(
    alloc: Global,
    command: &Command<'a>,
) -> Result<Vec<AskedOutput<'a>>, AllocError>
    ensures { IfOk result (λ asked. map asked_shown asked.items
        ≡ asked_outputs (command_shown command.now)) }
{
    let mut asked = Vec::new(alloc);
    if command.output_paths.is_empty() {
        add_paths(&mut asked, &command.output_files, true, false)?;
        add_paths(&mut asked, &command.output_directories, false, true)?;
    } else {
        add_paths(&mut asked, &command.output_paths, true, true)?;
    }
    Ok(asked)
}
