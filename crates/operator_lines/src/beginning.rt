//! What an operator is told of what has to be there before instances are served.

use crate::instance_words::{
    Instances, InstancesFault, Mistake, WordFault, mistake_of, parent_mistake_of,
};
use crate::lines::{ToldAddress, is_memory, told};
use host_sockets::LINGERING_LIMIT;
use std::io::{self, ErrorKind, Write};
use std::net::SocketAddr;

/// How many connections an instance has at most.
const MOST_CONNECTIONS: u64 = 64;

/// How many files are open for each action that runs, at most: what it writes goes to two, and what
/// its launcher says to one.
const FILES_OF_RUN: u64 = 3;

/// How many are open for an instance that runs actions: the pipes of what removes their folders and
/// of what opens their outputs, and the directory of an output.
const FILES_OF_SHELLS: u64 = 5;

/// How many more a server has open beside these and connections, at most and at least.
const OTHER_FILES: u64 = 64;

const FEWEST_OTHER_FILES: u64 = 32;

/// Tells which part of a word is wrong, and of a parent why it is none.
fn tell_mistake<E: Write>(
    words: &[&str],
    word: &str,
    reason: WordFault,
    mistake: Mistake<'_>,
    errors: &mut E,
) -> io::Result<()> {
    match parent_mistake_of(words, word) {
        Some(why) if reason == WordFault::Parent => {
            writeln!(errors, "remoted: {mistake}: {why}")
        }
        _ => writeln!(errors, "remoted: {mistake}"),
    }
}

/// Tells why the words for instances are refused.
pub fn tell_refused_words<E: Write>(
    words: &[&str],
    fault: InstancesFault,
    errors: &mut E,
) -> io::Result<()> {
    match fault {
        InstancesFault::Bad(place, reason) => {
            let word = words.get(place).copied().unwrap_or("");
            writeln!(errors, "remoted: bad instance {word}: {reason}")?;
            match mistake_of(word, reason) {
                Some(mistake) => tell_mistake(words, word, reason, mistake, errors),
                None => Ok(()),
            }
        }
        InstancesFault::TooMany => writeln!(errors, "remoted: {fault}"),
        InstancesFault::NoMemory(refused) => Err(io::Error::from(refused)),
    }
}

/// Tells that there is no listening at an address, and why, on a line of its own.
pub fn tell_taken<E: Write>(
    address: SocketAddr,
    error: &io::Error,
    errors: &mut E,
) -> io::Result<()> {
    let (told, port) = (ToldAddress(address), address.port());
    writeln!(errors, "remoted: cannot listen on {told}")?;
    writeln!(errors, "remoted: port {port}: {error}")
}

/// How many actions are run at a time, at most.
pub fn slots_of(instances: &Instances) -> usize {
    let mut slots: usize = 0;
    for config in instances.configs.instances() {
        slots = slots.saturating_add(config.slots as usize);
    }
    slots
}

/// How many files may be open for what runs, at most.
fn most_of_runs(instances: &Instances) -> u64 {
    let runs = FILES_OF_RUN.saturating_mul(slots_of(instances) as u64);
    let mut shells: u64 = 0;
    for config in instances.configs.instances() {
        if config.slots > 0 {
            shells = shells.saturating_add(FILES_OF_SHELLS);
        }
    }
    runs.saturating_add(shells)
}

/// Whether the instances can be served at all, where this many files may be open. Where these are
/// fewer than may be needed, that is told.
pub fn are_enough_files<E: Write>(
    most: u64,
    instances: &Instances,
    errors: &mut E,
) -> io::Result<bool> {
    let count = instances.ports.len() as u64;
    let needed = count
        .saturating_mul(1 + MOST_CONNECTIONS + LINGERING_LIMIT as u64)
        .saturating_add(most_of_runs(instances))
        .saturating_add(OTHER_FILES);
    let fewest = count.saturating_mul(2).saturating_add(FEWEST_OTHER_FILES);
    if most < fewest {
        told(writeln!(
            errors,
            "remoted: {most} files may be open, and at least {fewest} are needed to begin: raise \
             the limit (ulimit -n {needed}, or LimitNOFILE={needed})"
        ))?;
    } else if most < needed {
        told(writeln!(
            errors,
            "remoted: {most} files may be open, and up to {needed} are needed: raise the limit \
             (ulimit -n {needed}, or LimitNOFILE={needed})"
        ))?;
    }
    Ok(most >= fewest)
}

/// Tells that writing more than so many bytes to a file would end the server by a signal.
pub fn tell_file_limit<E: Write>(most: u64, errors: &mut E) -> io::Result<()> {
    writeln!(
        errors,
        "remoted: files may have {most} bytes, and writing more would end the server by SIGXFSZ: \
         raise the limit (ulimit -f unlimited, or LimitFSIZE=infinity), or start it by \
         env --ignore-signal=XFSZ remoted"
    )
}

/// Whether a process ignores a signal, by the signal's bit: that of its number less one. Its status
/// is the system's text (proc(5)); where that tells nothing of signals, none is ignored.
pub fn is_ignored(status: &str, bit: u64) -> bool {
    let found = status.lines().find_map(|line| line.strip_prefix("SigIgn:"));
    match found.map(|digits| u64::from_str_radix(digits.trim(), 16)) {
        Some(Ok(signals)) => signals & bit != 0,
        _ => false,
    }
}

/// The folder in which a file is.
pub fn folder_of(path: &str) -> &str {
    match path.rsplit_once('/') {
        None => ".",
        Some(("", _)) => "/",
        Some((folder, _)) => folder,
    }
}

/// Tells that the file of an option cannot be looked for in a folder: it is not there, or there is
/// this error.
pub fn tell_no_folder<E: Write>(
    option: &str,
    folder: &str,
    error: Option<io::Error>,
    errors: &mut E,
) -> io::Result<()> {
    match error {
        Some(error) if error.kind() != ErrorKind::NotFound => writeln!(
            errors,
            "remoted: {option} is looked for in {folder}: {error}"
        ),
        _ => writeln!(
            errors,
            "remoted: {option} is looked for in {folder}: there is no such folder"
        ),
    }
}

/// Tells that what programs start is not ended with them.
pub fn tell_no_sessions<E: Write>(errors: &mut E) -> io::Result<()> {
    told(writeln!(
        errors,
        "remoted: there is no /usr/bin/setsid, so what a program starts is not ended with it"
    ))
}

/// Whether programs can be run, by whether their ends are seen; where they cannot, that is told.
pub fn can_see_ends<E: Write>(seen: io::Result<bool>, errors: &mut E) -> io::Result<bool> {
    match seen {
        Ok(true) => Ok(true),
        Ok(false) => {
            writeln!(
                errors,
                "remoted: SIGCHLD is ignored, so how a program ends is not seen: start it by \
                 env --default-signal=CHLD remoted"
            )?;
            Ok(false)
        }
        Err(error) if is_memory(&error) => Err(error),
        Err(error) => {
            writeln!(errors, "remoted: cannot start /bin/sh: {error}")?;
            Ok(false)
        }
    }
}

/// Tells where it is so that leases of programs of actions may keep the server waiting, by whether
/// that could be prevented.
pub fn tell_leases<E: Write>(prevented: io::Result<bool>, errors: &mut E) -> io::Result<()> {
    match prevented {
        Ok(true) => Ok(()),
        Err(error) if is_memory(&error) => Err(error),
        _ => told(writeln!(
            errors,
            "remoted: an action can stop the server for 45 seconds (fs.lease-break-time) by a \
             lease on each of its outputs: end that by sysctl fs.leases-enable=0, or by a sandbox \
             (--launcher)"
        )),
    }
}
