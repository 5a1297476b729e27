//! Standard error, of which no write waits.

use std::fs::{self, File, OpenOptions};
use std::io::{self, ErrorKind, Stderr, Write};
use std::os::fd::AsRawFd;

/// The descriptor of standard error.
const DESCRIPTOR: i32 = 2;

/// What that is open on.
const OPENED: &str = "/proc/self/fd/2";

/// Standard error. A write that would have to wait fails with `WouldBlock`.
#[derive(Drop)]
pub enum StandardError {
    /// Opened again: whether writes wait is a property of what is open, which other programs may
    /// share.
    Again(File),
    /// A regular file, for which no write waits.
    Regular(Stderr),
    /// What cannot be opened again, as a socket. It is set back at the end.
    Shared(Stderr),
}

impl StandardError {
    /// Standard error, opened again if that is possible.
    pub fn new(rt: &HostRuntime) -> StandardError {
        match opened_again(rt) {
            Ok(Some(file)) => StandardError::Again(file),
            Ok(None) => StandardError::Regular(rt.stderr()),
            Err(_) => {
                let _ = os::set_nonblocking(DESCRIPTOR, true);
                StandardError::Shared(rt.stderr())
            }
        }
    }

    /// Sets back what was set.
    pub fn end(&self) {
        if let StandardError::Shared(_) = self {
            let _ = os::set_nonblocking(DESCRIPTOR, false);
        }
    }
}

/// What standard error is open on, opened again so that no write waits; none for a regular file,
/// where each that has it open has a place of its own in it. It is opened for reading too: to open
/// a FIFO for writing alone waits for a reader, and the reader may have gone.
fn opened_again(rt: &HostRuntime) -> io::Result<Option<File>> {
    if fs::metadata(rt, OPENED)?.is_file() {
        return Ok(None);
    }
    let file: File = OpenOptions::new().read(true).append(true).open(rt, OPENED)?;
    if os::set_nonblocking(file.as_raw_fd(), true) != 0 {
        return Err(io::Error::from(ErrorKind::Other));
    }
    Ok(Some(file))
}

impl Write for StandardError {
    fn write(&mut self, bytes: &[u8]) -> io::Result<usize> {
        match self {
            StandardError::Again(file) => file.write(bytes),
            StandardError::Regular(stream) => stream.write(bytes),
            StandardError::Shared(stream) => stream.write(bytes),
        }
    }

    fn flush(&mut self) -> io::Result<()> {
        Ok(())
    }
}
