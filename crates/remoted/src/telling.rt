//! `remoted check --metrics`.

use crate::exit::{Exit, FAILED};
use crate::reading::read_told;
use operator_lines::{Age, tell_figures};
use std::fs;
use std::io::{self, Write};
use std::time::SystemTime;

/// When a file was written, by the clock of this host.
fn age_of(rt: &HostRuntime, path: &str) -> Age {
    let Ok(found) = fs::metadata(rt, path) else {
        return Age::Unknown;
    };
    let (Ok(written), Ok(now)) = (found.modified(), SystemTime::now(rt)) else {
        return Age::Unknown;
    };
    match now.duration_since(written) {
        Ok(passed) => Age::Ago(passed.as_secs()),
        Err(ahead) => Age::Ahead(ahead.duration().as_secs()),
    }
}

/// Tells the figures of a file in words, those of an instance where one is named, and how old they
/// are, and says how the program ends.
pub fn tell_file<O: Write, E: Write>(
    rt: &HostRuntime,
    path: &str,
    instance: Option<&str>,
    output: &mut O,
    errors: &mut E,
) -> io::Result<Exit> {
    // A file that is replaced meanwhile is younger than this says.
    let age = age_of(rt, path);
    let Some(bytes) = read_told(rt, path, errors)? else {
        return Ok(FAILED);
    };
    let is_right = tell_figures(path, &bytes, instance, age, output, errors)?;
    Ok(Exit::of_answer(is_right))
}
