//! The file whose lines end jobs.

use job_runs::EndedJobs;
use operator_lines::{Due, EndingLines};
use serve::Sight;
use server_events::Configs;
use std::alloc::AllocError;
use std::fs::{self, File};
use std::io::{self, ErrorKind, Read};

/// How often the file is looked for, in milliseconds.
const LOOKING: u64 = 1_000;

/// How often is told at most that it cannot be read or removed.
const TELLING: u64 = 60_000;

/// The most bytes that it may have.
const MOST_BYTES: u64 = 1_048_576;

/// The file whose lines end jobs. It is read and removed once it is there.
#[derive(Drop)]
pub struct EndFile<'a> {
    rt: &'a HostRuntime,
    lines: EndingLines<'a>,
    looking: Due,
    telling: Due,
}

impl<'a> EndFile<'a> {
    pub fn new(
        rt: &'a HostRuntime,
        path: &'a str,
        configs: &'a Configs,
        ended: &'a EndedJobs,
    ) -> EndFile<'a> {
        let lines = EndingLines {
            alloc: rt.alloc(),
            path,
            configs,
            ended,
        };
        EndFile {
            rt,
            lines,
            looking: Due::every(LOOKING),
            telling: Due::every(TELLING),
        }
    }

    /// Looks for the file once a second, and has the jobs ended that its lines name, of those that
    /// are there now. The lines that are to be told of that.
    pub fn look(&mut self, sight: &Sight<'_>) -> Vec<String> {
        let mut told = Vec::new(self.rt.alloc());
        if !self.looking.take(sight.moment) {
            return told;
        }
        // Where memory is refused the rest is not told.
        let _ = match self.take() {
            Ok(Some(text)) => self.lines.carry_out(&text, sight, &mut told),
            Ok(None) => Ok(()),
            Err(error) => self.complain(error, sight.moment, &mut told),
        };
        told
    }

    /// The text of the file, which is there no more then; none where it was not there.
    fn take(&self) -> io::Result<Option<Vec<u8>>> {
        let found = match fs::symlink_metadata(self.rt, self.lines.path) {
            Ok(found) => found,
            Err(error) if error.kind() == ErrorKind::NotFound => return Ok(None),
            Err(error) => return Err(error),
        };
        // What is no file could keep whoever opens it waiting.
        if !found.is_file() {
            return Err(io::Error::other("it is a folder, a link or a FIFO: remove it"));
        }
        let mut text = Vec::new(self.rt.alloc());
        let file: File = File::open(self.rt, self.lines.path)?;
        file.take(MOST_BYTES).read_to_end(&mut text)?;
        fs::remove_file(self.rt, self.lines.path)?;
        Ok(Some(text))
    }

    /// Tells that the file cannot be read or removed, and that no job was ended so.
    fn complain(
        &mut self,
        error: io::Error,
        moment: u64,
        told: &mut Vec<String>,
    ) -> Result<(), AllocError> {
        if self.telling.take(moment) {
            let path = self.lines.path;
            told.push(format!(in self.rt.alloc(); "remoted: cannot take {path}: {error}\n")?)?;
        }
        Ok(())
    }
}
