//! A host whose directory for runs is that of a tree in memory, and shells that never answer.

ghost use Rattle.std.specs.Prelude.{[], None, Some, ⊤};

use crate::disk::Disk;
use crate::fake::{FakeDirectory, FakeFile, called};
use crate::tree::START;
use crate::trouble::Call;
use std::alloc::Global;
use std::cell::{RefCell, RefMut};
use std::io::{self, ErrorKind};
use std::time::{Clock, Duration, Instant};
use system::{Ending, Facts, Host, Shell, Shells, ToldShell, WorkHost};

/// How many milliseconds pass from one look at the clock to the next.
const LOOKS_APART: u64 = 25;

/// A host with a tree in memory.
#[derive(Clone, Copy)]
pub struct FakeHost<'a> {
    pub alloc: Global,
    pub disk: &'a RefCell<Disk>,
    pub has_shells: bool,
}

/// A shell that never answers.
#[derive(Drop)]
pub struct FakeShell<'a> {
    host: FakeHost<'a>,
}

fn error<T>(kind: ErrorKind) -> io::Result<T> {
    Err(io::Error::from(kind))
}

impl<'a> FakeHost<'a> {
    /// The disk, for a call of the host.
    fn called(&self, call: Call) -> io::Result<RefMut<'a, Disk>> {
        called(self.disk, call, START, b"")
    }
}

impl<'a> Clock for FakeHost<'a> {
    fn monotonic(&self) -> io::Result<Duration> {
        let mut disk = self.called(Call::Clock)?;
        disk.passed = disk.passed.saturating_add(LOOKS_APART);
        Ok(Duration::from_millis(disk.passed))
    }

    fn since_1970(&self) -> io::Result<Duration> {
        let _ = self.called(Call::Clock)?;
        Ok(Duration::from_secs(5))
    }
}

impl<'a> Host for FakeHost<'a> {
    type File = FakeFile<'a>;

    fn alloc(&self) -> Global {
        self.alloc
    }

    fn now(&self) -> io::Result<Instant> {
        Instant::now(self)
    }

    /// All that stands there is of one user.
    fn look(&self, _path: &str) -> io::Result<Facts> {
        self.called(Call::Look)?.facts(START)
    }

    fn look_through(&self, _path: &str) -> io::Result<Facts> {
        error(ErrorKind::Unsupported)
    }

    fn whole_path(&self, path: &str) -> io::Result<String> {
        let _ = self.called(Call::Look)?;
        Ok(String::from_str(self.alloc, path)?)
    }

    fn make_file(&self, _path: &str, _mode: u32) -> io::Result<FakeFile<'a>> {
        error(ErrorKind::Unsupported)
    }
}

impl<'a> WorkHost for FakeHost<'a> {
    type Directory = FakeDirectory<'a>;

    ghost top = { Some [] };

    fn since_1970(&self) -> io::Result<Duration> {
        Clock::since_1970(self)
    }

    fn pause(&self, _time: Duration) {}

    fn make_directories(&self, _path: &str) -> io::Result<()> {
        let _ = self.called(Call::MakeDir)?;
        Ok(())
    }

    fn open_directory(&self, _path: &str) -> io::Result<FakeDirectory<'a>> {
        let _ = self.called(Call::OpenIn)?;
        Ok(FakeDirectory::start(self.alloc, self.disk))
    }
}

impl<'a> Shell for FakeShell<'a> {
    ghost ended = { λ _. None };

    fn number(&self) -> u32 {
        1
    }

    fn hear(&mut self, _room: &mut [u8]) -> io::Result<usize> {
        Err(io::Error::from(ErrorKind::WouldBlock))
    }

    fn look(&mut self) -> io::Result<Option<Ending>> {
        Ok(None)
    }

    fn kill(&mut self) -> io::Result<()> {
        Ok(())
    }
}

impl<'a> ToldShell for FakeShell<'a> {
    type File = FakeFile<'a>;

    ghost holds = { λ _ _. ⊤ };

    fn tell(&mut self, bytes: &[u8]) -> io::Result<usize> {
        let _ = self.host.called(Call::AskShell)?;
        Ok(bytes.len())
    }

    fn held_facts(&self) -> io::Result<Facts> {
        error(ErrorKind::Unsupported)
    }

    fn open_held(&self) -> io::Result<FakeFile<'a>> {
        Err(io::Error::from(ErrorKind::Unsupported))
    }
}

impl<'a> Shells for FakeHost<'a> {
    type File = FakeFile<'a>;

    type Shell = FakeShell<'a>;

    ghost showed = { λ _ _. ⊤ };

    fn alloc(&self) -> Global {
        self.alloc
    }

    fn now(&self) -> io::Result<Instant> {
        Instant::now(self)
    }

    fn pause(&self, _time: Duration) {}

    fn start(&mut self, _script: &str, _arguments: &[&str]) -> io::Result<FakeShell<'a>> {
        let _ = self.called(Call::AskShell)?;
        if self.has_shells {
            Ok(FakeShell { host: *self })
        } else {
            error(ErrorKind::NotFound)
        }
    }

    fn show(&self, _path: &str, _room: &mut [u8]) -> io::Result<usize> {
        Err(io::Error::from(ErrorKind::Unsupported))
    }

    fn show_process(&self, _process: u32, _room: &mut [u8]) -> io::Result<usize> {
        Err(io::Error::from(ErrorKind::Unsupported))
    }

    fn look(&self, _process: u32) -> io::Result<Facts> {
        error(ErrorKind::Unsupported)
    }

    fn processes(&self) -> io::Result<Vec<u32>> {
        error(ErrorKind::Unsupported)
    }

    fn session_of(&self, _process: i32) -> io::Result<u32> {
        error(ErrorKind::Unsupported)
    }
}
