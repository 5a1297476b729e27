//! How a run of the program ends: its status and the line that says why; the reading of a whole
//! input or file; and what a program writes, with the first failure of any.

ghost use Rattle.std.specs.Prelude.{◌≡◌, ◌≢◌, ◌⊎◌, OnOk, IfOk, IsSome, IfSome, Ok, None};
ghost use Rattle.std.specs.IoError.{error_kind};
ghost use Rattle.std.specs.Io.KnownBytes.{Appends};
ghost use Rattle.tool_programs.specs.Status.{code_of, fault_line, status_of, status_of_fault, status_of_script_fault, unread_line};
ghost use Rattle.tool_programs.specs.declared.status.Status.TheVariants.{Failed};

use script::ScriptFault;
use std::alloc::{AllocError, Global};
use std::fs;
use std::io::{self, ErrorKind, Read, Write};

/// How a run ended.
#[derive(Clone, Copy, Debug, PartialEq, Eq)]
pub enum Status {
    /// All that was asked for was done.
    Done,
    /// Reading or writing failed.
    Failed,
    /// The line of this number, counted from 1, is the first that is bad. Nothing was carried out.
    BadLine(u64),
    /// No more than so many bytes came, which is fewer than were waited for.
    TooFew(u64),
    /// A request for memory was refused.
    OutOfMemory,
}

impl Status {
    /// The number with which the program ends.
    pub fn code(self) -> u8
        ensures { result ≡ code_of self }
    {
        match self {
            Status::Done => 0,
            Status::Failed => 1,
            Status::BadLine(_) => 3,
            Status::TooFew(_) => 4,
            Status::OutOfMemory => 5,
        }
    }

    /// Writes the line that says why a run ended, if it was not done. That takes no memory.
    pub fn tell<E: Write>(self, errors: &mut E) -> io::Result<()>
        ensures { OnOk result (Appends (E.contents errors.old) (E.contents errors.new)
            (fault_line self)) }
    {
        match self {
            Status::Done => Ok(()),
            Status::Failed => errors.write_all(b"remoted: input or output failed\n"),
            Status::BadLine(number) => writeln!(errors, "remoted: bad line {number}"),
            Status::TooFew(count) => writeln!(errors, "remoted: {count} bytes came"),
            Status::OutOfMemory => errors.write_all(b"remoted: out of memory\n"),
        }
    }
}

/// Why a run was not carried out to its end.
#[derive(Clone, Copy, Debug, PartialEq, Eq)]
pub enum Fault {
    /// Reading or writing failed.
    InputOrOutput,
    /// A request for memory was refused.
    OutOfMemory,
}

impl Fault {
    /// Which of the two an error of reading, writing or connecting is.
    pub fn of(error: &io::Error) -> Fault
        ensures memory { error_kind error.now ≡ ErrorKind.OutOfMemory → result ≡ Fault.OutOfMemory }
        ensures other { error_kind error.now ≢ ErrorKind.OutOfMemory →
            result ≡ Fault.InputOrOutput }
    {
        match error.kind() {
            ErrorKind::OutOfMemory => Fault::OutOfMemory,
            _ => Fault::InputOrOutput,
        }
    }

    /// The status of a run that ended so.
    pub fn status(self) -> Status
        ensures { result ≡ status_of_fault self }
    {
        match self {
            Fault::InputOrOutput => Status::Failed,
            Fault::OutOfMemory => Status::OutOfMemory,
        }
    }
}

impl From<AllocError> for Fault {
    ghost use Rattle.tool_programs.specs.declared.status.Fault.{Fault};

    ghost from_gives = { λ _ fault. fault ≡ Fault.OutOfMemory };

    fn from(_refused: AllocError) -> Fault {
        Fault::OutOfMemory
    }
}

impl From<Fault> for Status {
    ghost from_gives = { λ fault status. status ≡ status_of_fault fault };

    fn from(fault: Fault) -> Status {
        fault.status()
    }
}

impl From<ScriptFault> for Status {
    ghost from_gives = { λ fault status. status ≡ status_of_script_fault fault };

    fn from(fault: ScriptFault) -> Status {
        match fault {
            ScriptFault::BadLine(number) => Status::BadLine(number),
            ScriptFault::NoMemory => Status::OutOfMemory,
        }
    }
}

/// Tells how a run ended, whose error is the status of one that was not done, and gives the status.
/// Where the line could not be written, that is `Failed`.
pub fn told<E: Write>(outcome: Result<(), Status>, errors: &mut E) -> Status
    ensures status { (result ≡ Failed) ⊎ (result ≡ status_of outcome) }
    ensures told { result ≢ Failed →
        Appends (E.contents errors.old) (E.contents errors.new) (fault_line result) }
{
    let status = match outcome {
        Ok(()) => Status::Done,
        Err(status) => status,
    };
    match status.tell(errors) {
        Ok(()) => status,
        Err(_) => Status::Failed,
    }
}

/// All that is read.
pub fn read_all<I: Read>(alloc: Global, input: &mut I) -> Result<Vec<u8>, Fault>
    ensures { IfOk result (λ text. IfSome (I.remaining input.old) (λ all. text.items ≡ all)) }
{
    let mut text = Vec::new(alloc);
    match input.read_to_end(&mut text) {
        Ok(_) => Ok(text),
        Err(error) => Err(Fault::of(&error)),
    }
}

/// The bytes of a file; where it cannot be read, that is told, and there are none. An error is a
/// refused request for memory, or that telling failed.
pub fn read_file<E: Write>(
    rt: &HostRuntime,
    file: &str,
    errors: &mut E,
) -> io::Result<Option<Vec<u8>>>
    ensures told { result ≡ Ok None →
        Appends (E.contents errors.old) (E.contents errors.new) (unread_line file.now) }
    ensures quiet { IfOk result (λ read. IsSome read →
        E.contents errors.new ≡ E.contents errors.old) }
{
    match fs::read(rt, file) {
        Ok(bytes) => Ok(Some(bytes)),
        Err(error) if error.kind() == ErrorKind::OutOfMemory => Err(error),
        Err(_) => {
            writeln!(errors, "remoted: cannot read {file}")?;
            Ok(None)
        }
    }
}
