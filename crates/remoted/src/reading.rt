//! Files that a command reads whole.

use std::fs::{self, File};
use std::io::{self, ErrorKind, Write};
use tool_programs::read_file;

/// Why a file cannot be read now, if it cannot.
fn reason_of(rt: &HostRuntime, path: &str) -> Option<io::Error> {
    let opened: io::Result<File> = File::open(rt, path);
    match (opened, fs::metadata(rt, path)) {
        (Err(error), _) | (Ok(_), Err(error)) => Some(error),
        (Ok(_), Ok(found)) if found.is_dir() => Some(io::Error::from(ErrorKind::IsADirectory)),
        (Ok(_), Ok(_)) => None,
    }
}

/// The bytes of a file. Where it cannot be read that is told, and why on a line behind.
pub fn read_told<E: Write>(
    rt: &HostRuntime,
    path: &str,
    errors: &mut E,
) -> io::Result<Option<Vec<u8>>> {
    let bytes = read_file(rt, path, errors)?;
    if bytes.is_none() {
        if let Some(reason) = reason_of(rt, path) {
            writeln!(errors, "remoted: {path}: {reason}")?;
        }
    }
    Ok(bytes)
}
