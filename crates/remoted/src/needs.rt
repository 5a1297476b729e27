//! What a launcher says of itself, and the files that are beside it.

use operator_lines::folder_of;
use std::fs::{self, File};
use std::io::{self, ErrorKind, Read};

/// How many bytes of a launcher are looked at.
const MOST_BYTES: u64 = 4096;

/// The beginning of a file.
fn beginning_of(rt: &HostRuntime, path: &str) -> io::Result<Vec<u8>> {
    let mut bytes = Vec::new(rt.alloc());
    let file: File = File::open(rt, path)?;
    file.take(MOST_BYTES).read_to_end(&mut bytes)?;
    Ok(bytes)
}

/// The text in which a launcher says what it needs and does. One that cannot be read says nothing.
pub fn said_by(rt: &HostRuntime, path: &str) -> Vec<u8> {
    match beginning_of(rt, path) {
        Ok(text) => text,
        Err(_) => Vec::new(rt.alloc()),
    }
}

/// Whether there is no file of this name beside a launcher.
pub fn is_lacking(rt: &HostRuntime, launcher: &str, name: &str) -> io::Result<bool> {
    let folder = folder_of(launcher);
    let path = format!(in rt.alloc(); "{folder}/{name}")?;
    match fs::metadata(rt, path.as_str()) {
        Err(error) if error.kind() == ErrorKind::NotFound => Ok(true),
        _ => Ok(false),
    }
}
