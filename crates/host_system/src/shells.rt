//! Shells of this host, and what it shows of processes.

ghost use Rattle.std.specs.Prelude.{◌≡◌, ⊤, None, IfOk, OnErr};
ghost use Rattle.std.specs.Io.{ReadsAtMost, WritesAtMost};

use crate::file::{HostFile, facts_of};
use crate::programs::ending_of;
use std::alloc::Global;
use std::fs::{self, File};
use std::io::{self, ErrorKind, Read, Write};
use std::os::fd::AsRawFd;
use std::process::{self, ChildStdin, ChildStdout, Command, Stdio};
use std::thread;
use std::time::{Duration, Instant};
use system::{Ending, Facts, Shell, Shells, ToldShell};

const SHELL: &str = "/bin/sh";

/// Makes a program the first of a session of its own, whose number is its own number.
const SESSION: &str = "/usr/bin/setsid";

/// Where the system shows a directory for each process.
const PROCESSES: &str = "/proc";

/// The descriptor under which a shell has a file open for the server.
const HELD: u32 = 9;

/// Makes calls on an end of a pipe fail where they would wait.
fn keep_from_waiting<P: AsRawFd>(end: &P) -> io::Result<()> {
    if os::set_nonblocking(end.as_raw_fd(), true) == 0 {
        Ok(())
    } else {
        Err(io::Error::from(ErrorKind::Other))
    }
}

/// Starts a shell with a script and its arguments, the first of which is its name, and with pipes
/// to it and from it.
pub(crate) fn spawned(
    rt: &HostRuntime,
    script: &str,
    arguments: &[&str],
) -> io::Result<process::Child> {
    let mut command = Command::new(rt.alloc(), SESSION)?;
    launch(rt, script, arguments, &mut command)
}

/// Starts the shell, as what `SESSION` is told to start.
fn launch(
    rt: &HostRuntime,
    script: &str,
    arguments: &[&str],
    command: &mut Command,
) -> io::Result<process::Child> {
    command.arg("--")?.arg(SHELL)?.arg("-c")?.arg(script)?;
    for argument in arguments {
        command.arg(*argument)?;
    }
    command.env_clear();
    command
        .stdin(Stdio::piped())
        .stdout(Stdio::piped())
        .stderr(Stdio::null());
    command.spawn(rt)
}

/// A shell of this host, and the pipes to it and from it.
pub struct HostShell<'a> {
    rt: &'a HostRuntime,
    child: process::Child,
    questions: ChildStdin,
    answers: ChildStdout,
    /// How it ended, once a look told that.
    ended: Option<Ending>,
}

// Written out, so that each exit of a function that owns it has one call in place of one for each
// part.
impl<'a> Drop for HostShell<'a> {
    fn drop(self) {
        let HostShell {
            rt: _,
            child,
            questions,
            answers,
            ended: _,
        } = self;
        drop(child);
        drop(questions);
        drop(answers);
    }
}

impl<'a> HostShell<'a> {
    /// One that was started just before.
    pub(crate) fn of(rt: &'a HostRuntime, child: process::Child) -> io::Result<HostShell<'a>>
        ensures runs { IfOk result (λ shell. shell.ended ≡ None) }
    {
        let mut child = child;
        let (Some(questions), Some(answers)) = (child.stdin.take(), child.stdout.take()) else {
            return Err(io::Error::from(ErrorKind::BrokenPipe));
        };
        keep_from_waiting(&questions)?;
        keep_from_waiting(&answers)?;
        Ok(HostShell {
            rt,
            child,
            questions,
            answers,
            ended: None,
        })
    }

    /// Tells it a line. Whether it was told it whole.
    pub(crate) fn is_told(&mut self, line: &str) -> io::Result<bool>
        ensures ended { self.new.ended ≡ self.old.ended }
    {
        let count = self.questions.write(line.as_bytes())?;
        Ok(count == line.len())
    }

    /// Where the system shows what it has open for the server.
    fn held_path(&self) -> io::Result<String> {
        let process = self.child.id();
        Ok(format!(in self.rt.alloc(); "{PROCESSES}/{process}/fd/{HELD}")?)
    }
}

impl<'a> Shell for HostShell<'a> {
    ghost ended = { λ s. s.ended };

    fn number(&self) -> u32 {
        self.child.id()
    }

    fn hear(&mut self, room: &mut [u8]) -> io::Result<usize> {
        self.answers.read(room)
    }

    fn look(&mut self) -> io::Result<Option<Ending>> {
        self.ended = match self.child.try_wait()? {
            Some(status) => Some(ending_of(status)),
            None => None,
        };
        Ok(self.ended)
    }

    fn kill(&mut self) -> io::Result<()> {
        self.child.kill()
    }
}

impl<'a> ToldShell for HostShell<'a> {
    type File = HostFile;

    // The system does not say more of what is open than it is asked.
    ghost holds = { λ _ _. ⊤ };

    fn tell(&mut self, bytes: &[u8]) -> io::Result<usize> {
        self.questions.write(bytes)
    }

    fn held_facts(&self) -> io::Result<Facts> {
        let path = self.held_path()?;
        let held = fs::metadata(self.rt, path.as_str())?;
        Ok(facts_of(&held))
    }

    fn open_held(&self) -> io::Result<HostFile> {
        let path = self.held_path()?;
        let file = File::open(self.rt, path.as_str())?;
        Ok(HostFile::new(file))
    }
}

/// What starts shells on this host.
#[derive(Drop)]
pub struct HostShells<'a> {
    pub(crate) rt: &'a HostRuntime,
}

impl<'a> HostShells<'a> {
    pub fn new(rt: &'a HostRuntime) -> HostShells<'a> {
        HostShells { rt }
    }
}

/// The first bytes of the file at a path, and how many they are.
fn first_bytes(rt: &HostRuntime, path: &str, room: &mut [u8]) -> io::Result<usize>
    ensures { ReadsAtMost result room.new }
{
    let mut file: File = File::open(rt, path)?;
    file.read(room)
}

impl<'a> Shells for HostShells<'a> {
    type File = HostFile;

    type Shell = HostShell<'a>;

    // What it showed is not known but by whom it was asked.
    ghost showed = { λ _ _. ⊤ };

    fn alloc(&self) -> Global {
        self.rt.alloc()
    }

    fn now(&self) -> io::Result<Instant> {
        Instant::now(self.rt)
    }

    fn pause(&self, time: Duration) {
        thread::sleep(self.rt, time);
    }

    fn start(&mut self, script: &str, arguments: &[&str]) -> io::Result<HostShell<'a>> {
        HostShell::of(self.rt, spawned(self.rt, script, arguments)?)
    }

    fn show(&self, path: &str, room: &mut [u8]) -> io::Result<usize> {
        first_bytes(self.rt, path, room)
    }

    fn show_process(&self, process: u32, room: &mut [u8]) -> io::Result<usize> {
        let path = format!(in self.rt.alloc(); "{PROCESSES}/{process}/stat")?;
        first_bytes(self.rt, path.as_str(), room)
    }

    fn look(&self, process: u32) -> io::Result<Facts> {
        let path = format!(in self.rt.alloc(); "{PROCESSES}/{process}")?;
        let found = fs::symlink_metadata(self.rt, path.as_str())?;
        Ok(facts_of(&found))
    }

    fn processes(&self) -> io::Result<Vec<u32>> {
        let mut numbers = Vec::new(self.rt.alloc());
        for entry in fs::read_dir(self.rt, PROCESSES)? {
            match entry {
                Ok(entry) => {
                    if let Ok(number) = entry.file_name().parse::<u32>() {
                        numbers.push(number)?;
                    }
                }
                // The name is no text, so it is no number.
                Err(error) if error.kind() == ErrorKind::InvalidFilename => {}
                Err(error) => return Err(error),
            }
        }
        Ok(numbers)
    }

    fn session_of(&self, process: i32) -> io::Result<u32> {
        let session = libc::getsid(process);
        if session < 0 {
            return Err(io::Error::from_raw_os_error(os::errno()));
        }
        Ok(session as u32)
    }
}
