//! Programs of this host.

ghost use Rattle.std.specs.Prelude.{◌≡◌, false, is_some, IfOk, OnErr};
ghost use Rattle.std.specs.Option.{option_map, option_map_or};
ghost use Rattle.std.specs.Process.{child_status};
ghost use Rattle.host_system.specs.Programs.{ending_of, start_of};

use crate::file::HostFile;
use std::alloc::AllocError;
use std::io;
use std::os::unix::process::ExitStatusExt;
use std::process::{self, ExitStatus, Stdio};
use system::{Child, Command, Ending, Spawner};

/// A command of this host.
#[derive(Drop)]
pub struct HostCommand {
    command: process::Command,
}

impl Command for HostCommand {
    ghost shown = { λ c. start_of c.command };

    fn add(&mut self, word: &str) -> Result<(), AllocError> {
        self.command.arg(word)?;
        Ok(())
    }

    fn clear(&mut self) {
        self.command.env_clear();
    }

    fn set(&mut self, name: &str, value: &str) -> Result<(), AllocError> {
        self.command.env(name, value)?;
        Ok(())
    }

    fn enter(&mut self, directory: &str) -> Result<(), AllocError> {
        self.command.current_dir(directory)?;
        Ok(())
    }
}

/// A program of this host that was started.
#[derive(Drop)]
pub struct HostChild {
    child: process::Child,
    /// The number of its process.
    number: u32,
    /// How it ended, once a look told that.
    ended: Option<Ending>,
}

impl HostChild {
    /// Whether it has ended by itself, as a look told.
    pub fn has_ended_by_itself(&self) -> bool
        ensures { result ≡ option_map_or (λ ending. is_some ending.code) self.now.ended false }
    {
        matches!(&self.ended, Some(ending) if ending.code.is_some())
    }
}

pub(crate) fn ending_of(status: ExitStatus) -> Ending
    ensures { result ≡ ending_of status }
{
    Ending {
        code: status.code(),
        signal: status.signal(),
    }
}

impl Child for HostChild {
    ghost ended = { λ c. c.ended };

    ghost number = { λ c. c.number };

    fn number(&self) -> u32 {
        self.number
    }

    fn look(&mut self) -> io::Result<Option<Ending>>
        ensures told { IfOk result (λ ending. self.new.ended ≡ ending) }
        ensures kept { OnErr result (self.new.ended ≡ self.old.ended) }
        ensures number { self.new.number ≡ self.old.number }
        ensures own { IfOk result (λ ending. ending
            ≡ option_map ending_of (child_status self.new.child)) }
    {
        self.ended = match self.child.try_wait()? {
            Some(status) => Some(ending_of(status)),
            None => None,
        };
        Ok(self.ended)
    }

    fn kill(&mut self) -> io::Result<()> {
        self.child.kill()
    }
}

/// What starts commands on this host. Of what it started nothing is known.
#[derive(Drop)]
pub struct HostSpawner<'a> {
    rt: &'a HostRuntime,
}

impl<'a> HostSpawner<'a> {
    pub fn new(rt: &'a HostRuntime) -> HostSpawner<'a> {
        HostSpawner { rt }
    }
}

impl<'a> Spawner for HostSpawner<'a> {
    type Command = HostCommand;

    type Child = HostChild;

    type File = HostFile;

    fn command(&self, program: &str) -> Result<HostCommand, AllocError> {
        let command = process::Command::new(self.rt.alloc(), program)?;
        Ok(HostCommand { command })
    }

    fn spawn(
        &mut self,
        command: &mut HostCommand,
        output: &HostFile,
        error: &HostFile,
    ) -> io::Result<HostChild> {
        command
            .command
            .stdin(Stdio::null())
            .stdout(output.stream()?)
            .stderr(error.stream()?);
        let child = command.command.spawn(self.rt)?;
        let number = child.id();
        Ok(HostChild {
            child,
            number,
            ended: None,
        })
    }
}
