//! Programs that are looked for.

ghost use Rattle.std.specs.Prelude.{◌≡◌, IfOk, map, string_bytes};
ghost use Rattle.run_calls.specs.Values.{command_shown, variable_shown};
ghost use Rattle.run_programs.specs.Ways.{is_of, sought_shown};

use crate::search::{Progress, Search, search_from};
use run_calls::{Command as Ordered, RunKey, Variable};
use std::alloc::{AllocError, Global};
use std::io;
use system::Host;

/// A program whose search path is so long that it is still looked for.
#[derive(Drop)]
pub(crate) struct Sought {
    run: RunKey,
    ordered: Ordered,
    directory: String,
    progress: Progress,
}

fn copy_of(alloc: Global, ordered: &Ordered) -> Result<Ordered, AllocError>
    ensures { IfOk result (λ copy. command_shown copy ≡ command_shown ordered.now) }
{
    let arguments = copies_of(alloc, &ordered.arguments)?;
    let variables = variables_of(alloc, &ordered.variables)?;
    Ok(Ordered {
        arguments,
        variables,
    })
}

fn copies_of(alloc: Global, texts: &[String]) -> Result<Vec<String>, AllocError>
    ensures { IfOk result (λ copies. map string_bytes copies.items ≡ map string_bytes texts.now) }
{
    let mut copies = Vec::new(alloc);
    let mut left = texts;
    while let [first, rest @ ..] = left {
        copies.push(first.clone()?)?;
        left = rest;
    }
    Ok(copies)
}

fn variables_of(alloc: Global, variables: &[Variable]) -> Result<Vec<Variable>, AllocError>
    ensures { IfOk result (λ copies. map variable_shown copies.items
        ≡ map variable_shown variables.now) }
{
    let mut copies = Vec::new(alloc);
    let mut left = variables;
    while let [first, rest @ ..] = left {
        let name = first.name.clone()?;
        let value = first.value.clone()?;
        copies.push(Variable { name, value })?;
        left = rest;
    }
    Ok(copies)
}

impl Sought {
    pub(crate) fn new(
        alloc: Global,
        run: RunKey,
        ordered: &Ordered,
        directory: String,
        progress: Progress,
    ) -> Result<Sought, AllocError>
        ensures run { IfOk result (λ sought. sought.run ≡ run) }
        ensures directory { IfOk result (λ sought. sought.directory ≡ directory) }
        ensures command { IfOk result (λ sought. command_shown sought.ordered
            ≡ command_shown ordered.now) }
    {
        Ok(Sought {
            run,
            ordered: copy_of(alloc, ordered)?,
            directory,
            progress,
        })
    }

    pub(crate) fn is_of(&self, run: RunKey) -> bool
        ensures { result ≡ is_of run (sought_shown self.now) }
    {
        self.run.instance == run.instance && self.run.job == run.job
    }

    pub(crate) fn run(&self) -> RunKey
        ensures { result ≡ self.now.run }
    {
        self.run
    }

    pub(crate) fn ordered(&self) -> &Ordered
        ensures { result.now ≡ self.now.ordered }
    {
        &self.ordered
    }

    pub(crate) fn directory(&self) -> &str
        ensures { result.now ≡ string_bytes self.now.directory }
    {
        self.directory.as_str()
    }

    /// Goes on with the search.
    pub(crate) fn go_on<H: Host>(&mut self, host: &H) -> io::Result<Search>
        ensures { sought_shown self.new ≡ sought_shown self.old }
    {
        let found = search_from(host, self.directory.as_str(), &self.ordered, self.progress)?;
        if let Search::GoesOn(progress) = found {
            self.progress = progress;
        }
        Ok(found)
    }
}
