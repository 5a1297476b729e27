//! What the server has of its host's processors.

use std::fs::File;
use std::os::fd::AsRawFd;
use std::{io, str};
use wires::ProcessorTime;

/// Where the system tells how long this process, by its first thread, waited for a processor.
const WAITED: &str = "/proc/self/schedstat";

/// The clock of the thread in which it is read.
#[derive(Drop)]
pub(crate) struct ProcessorClock {
    /// None where the system does not tell it.
    waited: Option<File>,
}

impl ProcessorClock {
    pub(crate) fn new(rt: &HostRuntime) -> ProcessorClock {
        ProcessorClock {
            waited: File::open(rt, WAITED).ok(),
        }
    }

    /// What it shows now.
    pub(crate) fn read(&self) -> io::Result<ProcessorTime> {
        Ok(ProcessorTime {
            had: ran()?,
            lacked: self.lacked().unwrap_or(0),
        })
    }

    /// The microseconds that the process waited for a processor, if the system tells.
    fn lacked(&self) -> Option<u64> {
        let file = self.waited.as_ref()?;
        let mut room = [0; 64];
        let count = libc::pread(file.as_raw_fd(), &mut room, 0);
        let told = room.get(..usize::try_from(count).ok()?)?;
        waited_in(str::from_utf8(told).ok()?)
    }
}

/// The microseconds that this thread ran.
fn ran() -> io::Result<u64> {
    let mut time = libc::types::timespec {
        tv_sec: 0,
        tv_nsec: 0,
    };
    if libc::clock_gettime(libc::CLOCK_THREAD_CPUTIME_ID, &mut time) != 0 {
        return Err(io::Error::from_raw_os_error(os::errno()));
    }
    let seconds = u64::try_from(time.tv_sec).unwrap_or(0);
    let nanoseconds = u64::try_from(time.tv_nsec).unwrap_or(0);
    Ok(
        seconds
            .saturating_mul(1_000_000)
            .saturating_add(nanoseconds / 1_000),
    )
}

/// The microseconds of waiting in such a text: its numbers are the nanoseconds of running and of
/// waiting, and how often it ran.
fn waited_in(told: &str) -> Option<u64> {
    let nanoseconds = told.split(' ').nth(1)?.parse::<u64>().ok()?;
    Some(nanoseconds / 1_000)
}
