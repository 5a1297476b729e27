//! What this process was given: its streams, the words of its command line, and its signals.

use std::io::{self, ErrorKind, Write};
use std::{fs, str};

/// How many descriptors are streams of the process: standard input, output and error.
const STREAMS: i32 = 3;

/// What is opened where one of them is closed.
const NOTHING: &[u8] = b"/dev/null";

/// The most bytes of a word of a command line, as execve(2) has it.
const WORD_LIMIT: usize = 131_072;

/// Opens each stream that is closed, so that what is opened later, as a client's connection, is
/// never one of them. It is called before anything else is opened.
pub fn open_streams() -> io::Result<()> {
    for stream in 0..STREAMS {
        let is_closed = libc::isatty(stream) == 0 && os::errno() == libc::EBADF;
        // The system gives the lowest number that is free, and those below are open.
        if is_closed && os::open_update(NOTHING) < 0 {
            return Err(io::Error::from_raw_os_error(os::errno()));
        }
    }
    Ok(())
}

/// Whether standard input is a terminal.
pub fn reads_terminal() -> bool {
    libc::isatty(0) == 1
}

/// The words of the command line. Where one is not UTF-8, that is told, and there is no answer.
pub fn words_of<E: Write>(rt: &HostRuntime, errors: &mut E) -> io::Result<Option<Vec<String>>> {
    match std::env::args(rt) {
        Ok(words) => Ok(Some(words.collect(rt.alloc())?)),
        Err(error) if error.kind() == ErrorKind::InvalidData => {
            let place = odd_word(rt)?;
            writeln!(
                errors,
                "remoted: word {place} of the command line is not UTF-8"
            )?;
            Ok(None)
        }
        Err(error) => Err(error),
    }
}

/// Which word is the first that is not UTF-8, where the program's name is number 0.
fn odd_word(rt: &HostRuntime) -> io::Result<usize> {
    let mut room = vec![in rt.alloc(); 0u8; WORD_LIMIT]?;
    for place in 0..os::arg_count() {
        if !is_text(place, &mut room) {
            return Ok(place);
        }
    }
    Ok(os::arg_count())
}

/// Whether the word at a place is UTF-8. There is room for it.
fn is_text(place: usize, room: &mut [u8]) -> bool {
    let length = os::arg(place, room);
    str::from_utf8(&room[..length]).is_ok()
}

/// What the system tells of this process, if it does.
pub fn status(rt: &HostRuntime) -> Option<String> {
    fs::read_to_string(rt, "/proc/self/status").ok()
}

/// The milliseconds of processor time that this process has used, if the system tells.
pub fn processor_milliseconds() -> Option<u64> {
    let mut time = libc::types::timespec {
        tv_sec: 0,
        tv_nsec: 0,
    };
    if libc::clock_gettime(libc::CLOCK_PROCESS_CPUTIME_ID, &mut time) != 0 {
        return None;
    }
    let seconds = u64::try_from(time.tv_sec).ok()?;
    let nanoseconds = u64::try_from(time.tv_nsec).ok()?;
    seconds
        .checked_mul(1000)?
        .checked_add(nanoseconds / 1_000_000)
}
