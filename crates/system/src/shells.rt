//! Shells of the server's own, and what the system shows of processes.

ghost use Rattle.std.specs.Prelude.{◌≡◌, None, IfOk, OnErr};
ghost use Rattle.std.specs.Io.{ReadsAtMost, WritesAtMost};

use crate::directory::{Facts, OpenFile};
use crate::programs::{Child, Ending};
use std::alloc::Global;
use std::io;
use std::time::{Duration, Instant};

/// A shell that was started, with pipes to it and from it, of which no call waits. It ends when the
/// first is closed. Where it is let go, both are closed, and it is not waited for.
pub trait Shell: Drop {
    ghost use Rattle.std.specs.Prelude.{Option};
    ghost use Rattle.system.specs.declared.programs.Ending.{Ending};

    // How it ended, once a look told that. Until then its number is no other's.
    ghost ended: { Self → Option Ending };

    /// The number of its process.
    fn number(&self) -> u32;

    /// Reads bytes that it wrote, and says how many; none where it writes no more.
    fn hear(&mut self, room: &mut [u8]) -> io::Result<usize>
        ensures bound { ReadsAtMost result room.new }
        ensures ended { ended self.new ≡ ended self.old };

    /// How it ended, if it has.
    fn look(&mut self) -> io::Result<Option<Ending>>
        ensures told { IfOk result (λ ending. ended self.new ≡ ending) }
        ensures kept { OnErr result (ended self.new ≡ ended self.old) };

    /// Kills it, where a look did not tell that it has ended.
    fn kill(&mut self) -> io::Result<()>
        ensures ended { ended self.new ≡ ended self.old };
}

/// A shell that is told lines, and may have a file open under a number that its script knows.
pub trait ToldShell: Shell {
    ghost use Rattle.system.specs.declared.directory.Identity.{Identity};

    type File: OpenFile;

    // That what it has open under that number has this identity. It has that open until it is told
    // the next line, and nothing else gets the identity meanwhile.
    ghost holds: { Self → Identity → Type 0 };

    /// Tells it these bytes, or some of them.
    fn tell(&mut self, bytes: &[u8]) -> io::Result<usize>
        ensures bound { WritesAtMost result bytes.now }
        ensures ended { Self.ended self.new ≡ Self.ended self.old };

    /// What is told of what it has open.
    fn held_facts(&self) -> io::Result<Facts>
        ensures { IfOk result (λ f. holds self.now f.identity) };

    /// Opens what it has open, to read it.
    fn open_held(&self) -> io::Result<Self::File>
        ensures { IfOk result (λ file. (what : Identity) → holds self.now what
            → Self.File.has file what) };
}

/// Starts shells, and tells what the system shows of processes.
pub trait Shells: Drop {
    ghost use Rattle.std.specs.Prelude.{ℕ, List, take};

    type File: OpenFile;

    type Shell: ToldShell<File = Self::File>;

    // That what the system showed of the process of a number began with these bytes at some time.
    ghost showed: { ℕ → List ℕ → Type 0 };

    /// Of whom memory is asked.
    fn alloc(&self) -> Global;

    /// A moment of a clock that never goes back.
    fn now(&self) -> io::Result<Instant>;

    /// Waits for so long.
    fn pause(&self, time: Duration);

    /// Starts a shell with a script and its arguments, the first of which is its name. It is the
    /// first of a session of its own, and has no variables.
    fn start(&mut self, script: &str, arguments: &[&str]) -> io::Result<Self::Shell>
        ensures runs { IfOk result (λ shell. Self.Shell.ended shell ≡ None) };

    /// The first bytes of the file at a path, in which the system shows something, and how many they
    /// are.
    fn show(&self, path: &str, room: &mut [u8]) -> io::Result<usize>
        ensures bound { ReadsAtMost result room.new };

    /// The first bytes of what the system shows of a process, and how many they are.
    fn show_process(&self, process: u32, room: &mut [u8]) -> io::Result<usize>
        ensures bound { ReadsAtMost result room.new }
        ensures shown { IfOk result (λ count. showed process (take count room.new)) };

    /// What is told of the directory in which the system shows a process.
    fn look(&self, process: u32) -> io::Result<Facts>;

    /// The numbers of all processes, in the order in which the system lists them.
    fn processes(&self) -> io::Result<Vec<u32>>;

    /// The number of the session in which a process is, or a thread.
    fn session_of(&self, process: i32) -> io::Result<u32>;
}
