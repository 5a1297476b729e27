//! What an operator watches a server by: the file of its figures, and the file that ends it.

use operator_lines::{Due, is_memory};
use std::alloc::AllocError;
use std::fs::{self, File, OpenOptions};
use std::io::{self, ErrorKind, Write};

/// How often the file of figures is written, in milliseconds.
const WRITING: u64 = 10_000;

/// How often is told at most that it cannot be written.
const TELLING: u64 = 60_000;

/// How often the file that ends the server is looked for.
const LOOKING: u64 = 1_000;

/// The file to which the figures of a server are written.
#[derive(Drop)]
pub struct MetricsFile<'a> {
    rt: &'a HostRuntime,
    path: &'a str,
    /// The file beside it, which is written first.
    beside: String,
    writing: Due,
    telling: Due,
    /// Whether it was told that it cannot be written, and it could not be since.
    is_told: bool,
}

impl<'a> MetricsFile<'a> {
    pub fn new(rt: &'a HostRuntime, path: &'a str) -> Result<MetricsFile<'a>, AllocError> {
        Ok(MetricsFile {
            rt,
            path,
            beside: format!(in rt.alloc(); "{path}.new")?,
            writing: Due::every(WRITING),
            telling: Due::every(TELLING),
            is_told: false,
        })
    }

    /// The path of the file, as it was given.
    pub fn path(&self) -> &'a str {
        self.path
    }

    /// Whether figures are due at this moment: ten seconds have passed since they last were.
    pub fn is_due(&mut self, moment: u64) -> bool {
        self.writing.take(moment)
    }

    /// Writes the file anew, whole or not at all. Where that could not be done there is a line to
    /// be told, once until it goes well again.
    pub fn write(&mut self, text: &[u8], moment: u64) -> Option<String> {
        let Err(error) = self.replace(text) else {
            self.is_told = false;
            return None;
        };
        if self.is_told || !self.telling.take(moment) {
            return None;
        }
        self.is_told = true;
        let path = self.path;
        format!(in self.rt.alloc(); "remoted: cannot write {path}: {error}\n").ok()
    }

    fn replace(&self, text: &[u8]) -> io::Result<()> {
        let file = self.create_beside()?;
        let replaced = self.put(file, text);
        if replaced.is_err() {
            let _ = fs::remove_file(self.rt, self.beside.as_str());
        }
        replaced
    }

    /// Makes the file beside. What stood under its name, which others may have put there, is
    /// removed and never opened: it could be a link, or a FIFO that nobody reads.
    fn create_beside(&self) -> io::Result<File> {
        let beside = self.beside.as_str();
        match fs::remove_file(self.rt, beside) {
            Err(error) if error.kind() != ErrorKind::NotFound => return Err(error),
            _ => {}
        }
        OpenOptions::new()
            .write(true)
            .create_new(true)
            .open(self.rt, beside)
    }

    /// Writes the file beside, and puts it in the place of the other.
    fn put(&self, mut file: File, text: &[u8]) -> io::Result<()> {
        file.write_all(text)?;
        fs::rename(self.rt, self.beside.as_str(), self.path)
    }
}

/// The file that ends a server once it is there.
#[derive(Drop)]
pub struct StopFile<'a> {
    rt: &'a HostRuntime,
    path: &'a str,
    looking: Due,
}

impl<'a> StopFile<'a> {
    pub fn new(rt: &'a HostRuntime, path: &'a str) -> StopFile<'a> {
        StopFile {
            rt,
            path,
            looking: Due::every(LOOKING),
        }
    }

    /// Whether it is there: anything under its name, a link itself and not where it leads. It is
    /// not opened. A file that cannot be looked at counts as not there.
    pub fn is_there(&self) -> io::Result<bool> {
        match fs::symlink_metadata(self.rt, self.path) {
            Ok(_) => Ok(true),
            Err(error) if is_memory(&error) => Err(error),
            Err(_) => Ok(false),
        }
    }

    /// Whether the server is to end. It is looked for once a second; in between it counts as not
    /// there, and so it does where memory is refused for the look.
    pub fn ends(&mut self, moment: u64) -> bool {
        self.looking.take(moment) && matches!(self.is_there(), Ok(true))
    }
}
