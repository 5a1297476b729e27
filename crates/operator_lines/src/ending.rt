//! The lines of the file that ends jobs, and what is told of each.

use figures::{open_jobs, watched_jobs};
use instance_core::Instance;
use job_runs::EndedJobs;
use run_calls::RunKey;
use serve::Sight;
use server_events::Configs;
use std::alloc::{AllocError, Global};

/// How many lines that have no form are told one by one.
const MOST_TOLD: usize = 10;

/// How many digits of the hash of an action name it at least.
const FEWEST_DIGITS: usize = 6;

/// The word for jobs for which nobody waits.
const ABANDONED: &str = "abandoned";

/// What is wrong with a line that says nothing.
const NO_FORM: &str = "it is not NAME, NAME HASH or NAME abandoned";

/// What is wrong with a hash of which too little is given.
const FEW_DIGITS: &str = "HASH has fewer than 6 digits";

/// What is wrong with one of other digits.
const CAPITALS: &str = "HASH has capitals, and is written in lower case";

/// What is wrong with a word behind the others.
const MORE_WORDS: &str = "a word stands behind NAME and HASH";

/// What is wrong with a name that a word may lack behind.
const BLANKS: &str = "blanks stand beside NAME, and no word";

/// What is wrong with one of an instance that is not there.
const NO_INSTANCE: &str = "no instance has this name";

/// Which jobs of an instance are to be ended.
#[derive(Clone, Copy)]
enum Which<'a> {
    All,
    /// Those whose action has a hash that begins with these digits.
    OfAction(&'a str),
    /// Those that no call watches.
    Abandoned,
}

/// What a line of the file says.
#[derive(Clone, Copy)]
struct Line<'a> {
    /// The name of an instance.
    name: &'a str,
    which: Which<'a>,
}

/// Which jobs a word names, behind the name of an instance; or what is wrong with it.
fn which_by(word: &str) -> Result<Which<'_>, &'static str> {
    if word == ABANDONED {
        return Ok(Which::Abandoned);
    }
    if !word.bytes().all(|byte| byte.is_ascii_hexdigit()) {
        Err(NO_FORM)
    } else if word.bytes().any(|byte| byte.is_ascii_uppercase()) {
        Err(CAPITALS)
    } else if word.len() < FEWEST_DIGITS {
        Err(FEW_DIGITS)
    } else {
        Ok(Which::OfAction(word))
    }
}

/// What a line of the file says, which has a word; or what is wrong with it.
fn read_line(line: &str) -> Result<Line<'_>, &'static str> {
    let line = line.strip_suffix("\r").unwrap_or(line);
    let mut words = line.split_ascii_whitespace();
    let name = words.next().ok_or(NO_FORM)?;
    let Some(word) = words.next() else {
        // As by a script whose HASH is empty: all jobs of the instance would be ended.
        if name.len() < line.len() {
            return Err(BLANKS);
        }
        return Ok(Line {
            name,
            which: Which::All,
        });
    };
    if words.next().is_some() {
        return Err(MORE_WORDS);
    }
    let which = which_by(word)?;
    Ok(Line { name, which })
}

/// The value of a lower-case hexadecimal digit.
fn value_of(digit: u8) -> u8 {
    if digit.is_ascii_digit() {
        digit.saturating_sub(b'0')
    } else {
        digit.saturating_sub(b'a').saturating_add(10)
    }
}

/// Whether a hash begins with these digits.
fn begins_with(hash: &[u8], digits: &str) -> bool {
    let mut place: usize = 0;
    for digit in digits.bytes() {
        let Some(byte) = hash.get(place / 2) else {
            return false;
        };
        let half = if place % 2 == 0 { byte >> 4 } else { byte & 15 };
        if half != value_of(digit) {
            return false;
        }
        place = place.saturating_add(1);
    }
    true
}

/// Has jobs of an instance ended that wait or run now, and says how many more are than before.
fn end_jobs(
    alloc: Global,
    ended: &EndedJobs,
    number: u32,
    instance: &Instance,
    which: Which<'_>,
) -> Result<u64, AllocError> {
    let watched = watched_jobs(alloc, instance)?;
    let mut count: u64 = 0;
    for (job, digest) in open_jobs(alloc, instance)?.iter() {
        let run = RunKey {
            instance: number,
            job: *job,
        };
        let is_meant = match which {
            Which::All => true,
            Which::OfAction(digits) => begins_with(digest.hash.as_bytes(), digits),
            Which::Abandoned => watched.binary_search(job).is_err(),
        };
        if is_meant && !ended.has(run) {
            ended.end(run)?;
            count = count.saturating_add(1);
        }
    }
    Ok(count)
}

/// The number of the instance of a name.
fn number_of(configs: &Configs, name: &str) -> Option<u32> {
    let place = configs
        .instances()
        .iter()
        .position(|config| config.name.as_str() == name)?;
    u32::try_from(place).ok()
}

/// Jobs that an operator ends, by the lines of a file.
#[derive(Clone, Copy)]
pub struct EndingLines<'a> {
    pub alloc: Global,
    /// The file of the lines.
    pub path: &'a str,
    /// The instances that are served.
    pub configs: &'a Configs,
    /// Where it is noted which jobs are to be ended.
    pub ended: &'a EndedJobs,
}

impl EndingLines<'_> {
    /// Does what the lines of a text say, with the jobs that wait or run now, and puts what is to
    /// be told of each behind what is there.
    ///
    /// Err: a request for memory was refused, and the rest is not told.
    pub fn carry_out(
        &self,
        text: &[u8],
        sight: &Sight<'_>,
        told: &mut Vec<String>,
    ) -> Result<(), AllocError> {
        let mut place: usize = 0;
        let mut bad: usize = 0;
        for line in text.split(|byte| *byte == b'\n') {
            place = place.saturating_add(1);
            if line.iter().all(|byte| byte.is_ascii_whitespace()) {
                continue;
            }
            let Some(fault) = self.carry_out_line(line, sight, told)? else {
                continue;
            };
            bad = bad.saturating_add(1);
            if bad <= MOST_TOLD {
                let path = self.path;
                told.push(format!(in self.alloc; "remoted: {path}: bad line {place}: {fault}\n")?)?;
            }
        }
        Ok(())
    }

    /// Does what a line says, and tells of it; or says what is wrong with the line.
    fn carry_out_line(
        &self,
        line: &[u8],
        sight: &Sight<'_>,
        told: &mut Vec<String>,
    ) -> Result<Option<&'static str>, AllocError> {
        let Ok(line) = str::from_utf8(line) else {
            return Ok(Some(NO_FORM));
        };
        let read = match read_line(line) {
            Ok(read) => read,
            Err(fault) => return Ok(Some(fault)),
        };
        let Some(number) = number_of(self.configs, read.name) else {
            return Ok(Some(NO_INSTANCE));
        };
        let Some(served) = sight.server.instance(number) else {
            return Ok(Some(NO_INSTANCE));
        };
        let (alloc, name) = (self.alloc, read.name);
        let line = match end_jobs(alloc, self.ended, number, served.instance(), read.which) {
            Ok(count) => format!(in alloc;
                "remoted: {name}: jobs ended by an operator: {count}\n"
            )?,
            Err(_) => format!(in alloc;
                "remoted: {name}: not all jobs are ended: out of memory\n"
            )?,
        };
        told.push(line)?;
        Ok(None)
    }
}
