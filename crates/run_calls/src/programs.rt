//! Programs that run.

ghost use Rattle.std.specs.Prelude.{◌≡◌, ◌≤◌, ℕ, List, Option, None, IfOk, IfSome, length};

use crate::folder::Place;
use crate::task::{Command, RunKey};
use std::io;

/// What a program writes to.
#[derive(Clone, Copy, Debug, PartialEq, Eq)]
pub enum Stream {
    Output,
    Error,
}

/// With how many numbers programs are looked at, once a millisecond.
pub const MOST_LOOKS: usize = 97;

/// The programs of runs, one for each. No call waits for a program.
pub trait Programs {
    ghost use Rattle.std.specs.Prelude.{Ok};
    ghost use Rattle.run_calls.specs.Calls.{ProgramCall, program_done, start_asked, end_asked, kill_asked, length_asked, read_asked, forget_asked, Adds, started_of, state_of, killed_of, length_of, bytes_of, called};
    ghost use Rattle.run_calls.specs.Values.{command_shown, place_shown, IsInRange};
    ghost use Rattle.run_calls.specs.Failures.{Counts};

    // All that was asked, in order, and what was answered, where it is known.
    ghost asked: { Self → Option (List ProgramCall) } = { λ _. None };

    // How many calls failed, 2^64 - 1 at most.
    ghost failures: { Self → ℕ };

    /// Starts a program, with nothing on its standard input and no variables but its own.
    fn start(&mut self, place: &Place, command: &Command) -> io::Result<()>
        ensures adds { Adds (asked self.old) (asked self.new)
            (called (start_asked (place_shown place.now) (command_shown command.now))
            (started_of result)) }
        ensures counts { Counts result (failures self.old) (failures self.new) };

    /// The code with which a program ended, or `None` while it runs. The error `ConnectionAborted`
    /// says that what started it was lost.
    fn ask(&mut self, run: RunKey) -> io::Result<Option<i32>>
        ensures adds { Adds (asked self.old) (asked self.new)
            (called (end_asked run) (state_of result)) }
        ensures range { IfOk result (λ state. IfSome state IsInRange) }
        ensures counts { Counts result (failures self.old) (failures self.new) };

    /// Looks at one of the programs, which this number chooses, and says of which run one is to be
    /// asked, as it has ended, or is not started yet. With the numbers below [`MOST_LOOKS`] those are
    /// looked at that were started last, and a share of the others, in a circle. No promise is made
    /// of it: to ask another one does no harm.
    fn look(&mut self, number: usize) -> Option<RunKey>
        ensures asked { asked self.new ≡ asked self.old }
        ensures failures { failures self.new ≡ failures self.old };

    /// Ends a program and all that it started, whether or not it has ended itself. Whether that is
    /// done: where it is not, it is to be asked again.
    fn kill(&mut self, run: RunKey) -> io::Result<bool>
        ensures adds { Adds (asked self.old) (asked self.new)
            (called (kill_asked run) (killed_of result)) }
        ensures counts { Counts result (failures self.old) (failures self.new) };

    /// How many bytes a program that was ended wrote to both its streams.
    fn length(&mut self, run: RunKey) -> io::Result<u64>
        ensures adds { Adds (asked self.old) (asked self.new)
            (called (length_asked run) (length_of result)) }
        ensures counts { Counts result (failures self.old) (failures self.new) };

    /// Bytes that a program that was ended wrote to a stream, from a place on, at most so many;
    /// none at their end alone.
    fn read(&mut self, run: RunKey, stream: Stream, from: u64, most: u32) -> io::Result<Vec<u8>>
        ensures adds { Adds (asked self.old) (asked self.new)
            (called (read_asked run stream from most) (bytes_of result)) }
        ensures within { IfOk result (λ bytes. length bytes.items ≤ most) }
        ensures counts { Counts result (failures self.old) (failures self.new) };

    /// Lets go of a program that was ended, and of what it wrote.
    fn forget(&mut self, run: RunKey)
        ensures adds { Adds (asked self.old) (asked self.new)
            (called (forget_asked run) (Ok program_done)) }
        ensures counts { failures self.new ≡ failures self.old };

    /// The last bytes of what the launcher of a program that was not forgotten says, at most so
    /// many; none where nothing is said. What the program writes is not among them.
    fn last_words(&self, run: RunKey, most: u32) -> io::Result<Vec<u8>>
        ensures within { IfOk result (λ bytes. length bytes.items ≤ most) };

    /// How many calls failed, 2^64 - 1 at most.
    fn faults(&self) -> u64
        ensures { result ≡ failures self.now };
}
