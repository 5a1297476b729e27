//! Programs that are started.

ghost use Rattle.std.specs.Prelude.{◌≡◌, ◌++◌, ◌∷◌, [], None, IfOk, OnErr};

use crate::directory::{Facts, OpenFile};
use std::alloc::{AllocError, Global};
use std::io;
use std::time::Instant;

/// How a program ended: by itself with a code, or by a signal.
#[derive(Clone, Copy, Debug, PartialEq, Eq)]
pub struct Ending {
    pub code: Option<i32>,
    pub signal: Option<i32>,
}

/// The system's number for a program that was waited for already, or cannot be.
const NO_CHILD: i32 = 10;

/// Whether a call failed since a program was waited for already, or cannot be.
pub fn is_no_child(error: &io::Error) -> bool {
    error.raw_os_error() == Some(NO_CHILD)
}

/// What is asked of a host for programs, but to start them and to end them.
pub trait Host: Drop {
    type File: OpenFile;

    /// Of whom memory is asked.
    fn alloc(&self) -> Global;

    /// A moment of a clock that never goes back.
    fn now(&self) -> io::Result<Instant>;

    /// What is told of what stands at a path, a link not followed.
    fn look(&self, path: &str) -> io::Result<Facts>;

    /// The same of what a path leads to.
    fn look_through(&self, path: &str) -> io::Result<Facts>;

    /// The absolute path of what a path leads to.
    fn whole_path(&self, path: &str) -> io::Result<String>;

    /// Makes a file that may be used as a mode says, as far as the process's own mask allows, and
    /// opens it to be read and added to. It is an error where anything has the path.
    fn make_file(&self, path: &str, mode: u32) -> io::Result<Self::File>
        ensures own { IfOk result Self.File.may_write };
}

/// A command, which starts a program.
pub trait Command: Drop {
    ghost use Rattle.std.specs.Prelude.{◌≢◌, ℕ, List, Some, OnOk, true};
    ghost use Rattle.system.specs.Starting.{SameVariables, Start};

    // What it starts.
    ghost shown: { Self → Start };

    /// Adds an argument.
    fn add(&mut self, word: &str) -> Result<(), AllocError>
        ensures words { OnOk result ((shown self.new).words
            ≡ (shown self.old).words ++ (word.now ∷ [])) }
        ensures variables { OnOk result (SameVariables (shown self.old) (shown self.new)) }
        ensures directory { OnOk result ((shown self.new).directory
            ≡ (shown self.old).directory) };

    /// Gives the program no variables, neither those that were set nor those of whoever starts it.
    fn clear(&mut self)
        ensures cleared { (shown self.new).clears_env ≡ true }
        ensures variables { (name : List ℕ) → (shown self.new).variable name ≡ None }
        ensures words { (shown self.new).words ≡ (shown self.old).words }
        ensures directory { (shown self.new).directory ≡ (shown self.old).directory };

    /// Sets a variable.
    fn set(&mut self, name: &str, value: &str) -> Result<(), AllocError>
        ensures set { OnOk result ((shown self.new).variable name.now ≡ Some (Some value.now)) }
        ensures others { OnOk result ((other : List ℕ) → other ≢ name.now
            → (shown self.new).variable other ≡ (shown self.old).variable other) }
        ensures cleared { OnOk result ((shown self.new).clears_env
            ≡ (shown self.old).clears_env) }
        ensures words { OnOk result ((shown self.new).words ≡ (shown self.old).words) }
        ensures directory { OnOk result ((shown self.new).directory
            ≡ (shown self.old).directory) };

    /// Has the program begin in a directory.
    fn enter(&mut self, directory: &str) -> Result<(), AllocError>
        ensures directory { OnOk result ((shown self.new).directory ≡ Some directory.now) }
        ensures words { OnOk result ((shown self.new).words ≡ (shown self.old).words) }
        ensures variables { OnOk result (SameVariables (shown self.old) (shown self.new)) };
}

/// A program that was started. Where it is let go, it is neither ended nor waited for.
pub trait Child: Drop {
    ghost use Rattle.std.specs.Prelude.{ℕ, Option};
    ghost use Rattle.system.specs.declared.programs.Ending.{Ending};

    // How it ended, once a look told that. Until then its number is no other's.
    ghost ended: { Self → Option Ending };

    // The number of its process.
    ghost number: { Self → ℕ };

    /// The number of its process.
    fn number(&self) -> u32
        ensures { result ≡ number self.now };

    /// How it ended, if it has.
    fn look(&mut self) -> io::Result<Option<Ending>>
        ensures told { IfOk result (λ ending. ended self.new ≡ ending) }
        ensures kept { OnErr result (ended self.new ≡ ended self.old) }
        ensures number { number self.new ≡ number self.old };

    /// Ends it alone, where a look did not tell that it has ended.
    fn kill(&mut self) -> io::Result<()>
        ensures ended { ended self.new ≡ ended self.old }
        ensures number { number self.new ≡ number self.old };
}

/// Starts commands, and nothing else.
pub trait Spawner: Drop {
    ghost use Rattle.std.specs.Prelude.{List, Option, None};
    ghost use Rattle.system.specs.Starting.{Is, Start, StartsBy};

    type Command: Command;

    type Child: Child;

    type File: OpenFile;

    // All that it started, in order, where it is known.
    ghost started: { Self → Option (List Start) } = { λ _. None };

    /// A command that starts the program at a path, with no arguments yet.
    fn command(&self, program: &str) -> Result<Self::Command, AllocError>
        ensures { IfOk result (λ c. (Self.Command.shown c).words ≡ program.now ∷ []) };

    /// Starts a command, which reads nothing, and writes into these files.
    fn spawn(
        &mut self,
        command: &mut Self::Command,
        output: &Self::File,
        error: &Self::File,
    ) -> io::Result<Self::Child>
        ensures starts { StartsBy (Is (Self.Command.shown command.old)) result
            (started self.old) (started self.new) }
        ensures runs { IfOk result (λ child. Self.Child.ended child ≡ None) };
}
