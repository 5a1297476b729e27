//! What has to be there before instances are served, and what an operator is told of it.

use crate::process::status;
use host_system::{HostDirectory, HostShells, HostSystem, has_leases, sees_ends};
use operator_lines::{
    Instances, are_enough_files, can_see_ends, folder_of, is_ignored, is_memory, tell_file_limit,
    tell_leases, tell_no_folder, tell_no_sessions, told,
};
use run_programs::has_sessions;
use std::alloc::{AllocError, Global};
use std::fs;
use std::io::{self, ErrorKind, Write};
use work_folders::{Complaint, Work, WorkFault, WorkFolder, begin_work};

/// Where the runs of a start have their folders on this host.
pub struct HostWork<'a> {
    pub work: Work<HostDirectory<'a>, HostShells<'a>>,
}

impl<'a> HostWork<'a> {
    pub fn inner(self) -> Work<HostDirectory<'a>, HostShells<'a>> {
        let HostWork { work } = self;
        work
    }
}

// Written out, so that each exit of who holds it has one call.
impl<'a> Drop for HostWork<'a> {
    fn drop(self) {
        let HostWork { work } = self;
        drop(work);
    }
}

/// The folders of runs on this host.
pub type HostFolder<'a> = WorkFolder<'a, HostDirectory<'a>, HostShells<'a>>;

/// The limit of the size of a file, as getrlimit(2) numbers it.
const RLIMIT_FSIZE: i32 = 1;

/// What it gives where there is none.
const UNLIMITED: u64 = u64::MAX;

/// The bit of the signal to a process that writes past that: signal(7) gives it the number 25.
const SIGXFSZ: u64 = 1 << 24;

/// The size of a block that the C library learns by, in bytes: it learns of none over 32 MiB.
const LEARNING_BLOCK: usize = (32 << 20) - (64 << 10);

/// Has the C library keep what is freed for what comes next. glibc gives a block over a threshold
/// back to the system once it is freed, and what is free at the heap's end over twice as much. It
/// raises the threshold to the size of such a block when one is freed (mallopt(3),
/// `M_MMAP_THRESHOLD`), so one is taken and let go. It is never written to, and so takes no memory.
/// Where the environment says a threshold, that one stays.
pub fn keep_freed_memory(alloc: Global) {
    let block: Result<Vec<u8>, AllocError> = Vec::with_capacity(alloc, LEARNING_BLOCK);
    drop(block);
}

/// The most that this process may have of something.
fn limit_of(resource: i32) -> io::Result<u64> {
    let mut limit = libc::types::rlimit {
        rlim_cur: 0,
        rlim_max: 0,
    };
    if libc::getrlimit(resource, &mut limit) < 0 {
        return Err(io::Error::from_raw_os_error(os::errno()));
    }
    Ok(limit.rlim_cur)
}

/// Whether a file that grows over a limit of the system fails to be written, and does not end this
/// process by a signal; where it does that, it is told.
pub fn can_write<E: Write>(rt: &HostRuntime, errors: &mut E) -> io::Result<bool> {
    let most = limit_of(RLIMIT_FSIZE)?;
    if most == UNLIMITED || status(rt).is_some_and(|text| is_ignored(text.as_str(), SIGXFSZ)) {
        return Ok(true);
    }
    tell_file_limit(most, errors)?;
    Ok(false)
}

/// Whether so many files may be open that the instances can be served at all; where these are fewer
/// than may be needed, that is told.
pub fn can_open<E: Write>(instances: &Instances, errors: &mut E) -> io::Result<bool> {
    are_enough_files(limit_of(libc::RLIMIT_NOFILE)?, instances, errors)
}

/// Whether this is a folder, in which a file can be looked for.
fn may_look_for(rt: &HostRuntime, folder: &str, path: &str) -> io::Result<bool> {
    if !fs::metadata(rt, folder)?.is_dir() {
        return Ok(false);
    }
    match fs::symlink_metadata(rt, path) {
        Err(error) if error.kind() != ErrorKind::NotFound => Err(error),
        _ => Ok(true),
    }
}

/// Whether the folder is there in which the file of an option is looked for. Where it is not, that
/// is told: the file would never be found.
pub fn has_folder<E: Write>(
    rt: &HostRuntime,
    option: &str,
    path: Option<&str>,
    errors: &mut E,
) -> io::Result<bool> {
    let Some(path) = path else {
        return Ok(true);
    };
    let folder = folder_of(path);
    let error = match may_look_for(rt, folder, path) {
        Ok(true) => return Ok(true),
        Ok(false) => None,
        Err(error) if is_memory(&error) => return Err(error),
        Err(error) => Some(error),
    };
    tell_no_folder(option, folder, error, errors)?;
    Ok(false)
}

/// Whether programs can be run on this host; what it lacks for that is told.
pub fn can_run<E: Write>(rt: &HostRuntime, errors: &mut E) -> io::Result<bool> {
    if !has_sessions(&HostSystem::new(rt)) {
        tell_no_sessions(errors)?;
    }
    can_see_ends(sees_ends(rt), errors)
}

/// Sees to it that no lease of a program of an action keeps the server waiting. Where that is not
/// possible here, it is told.
pub fn guard_against_leases<E: Write>(
    rt: &HostRuntime,
    folder: &mut HostFolder<'_>,
    errors: &mut E,
) -> io::Result<()> {
    if !has_leases(rt)? {
        return Ok(());
    }
    tell_leases(folder.guard_against_leases(), errors)
}

/// A place for the runs of this start, and what is to be told of it.
#[tactic(auto, using(work_folders::proofs::Nowhere::may_work))]
fn begun<'a>(
    rt: &'a HostRuntime,
    path: &str,
    complaints: &mut Vec<Complaint>,
) -> Result<HostWork<'a>, WorkFault> {
    let (host, mut shells) = (HostSystem::new(rt), HostShells::new(rt));
    let work = begin_work(&host, &mut shells, path, complaints)?;
    Ok(HostWork { work })
}

/// A place for the runs of this start; where there is none, that is told, and there is no answer.
pub fn begin<'a, E: Write>(
    rt: &'a HostRuntime,
    path: &str,
    errors: &mut E,
) -> io::Result<Option<HostWork<'a>>> {
    let mut complaints = Vec::new(rt.alloc());
    let begun = begun(rt, path, &mut complaints);
    for complaint in complaints.iter() {
        told(tell(path, complaint, errors))?;
    }
    match begun {
        Ok(work) => Ok(Some(work)),
        Err(fault) => {
            tell_fault(path, fault, errors)?;
            Ok(None)
        }
    }
}

fn tell<E: Write>(path: &str, complaint: &Complaint, errors: &mut E) -> io::Result<()> {
    match complaint {
        Complaint::Unlocked(error) => writeln!(
            errors,
            "remoted: cannot tell whether another server works in {path}: {error}"
        ),
        Complaint::Left(left, error) => writeln!(errors, "remoted: cannot remove {left}: {error}"),
        Complaint::Shared => writeln!(
            errors,
            "remoted: other users may put folders of their own into {path}: let it be the server's \
             user's, and not be written by all"
        ),
    }
}

fn tell_fault<E: Write>(path: &str, fault: WorkFault, errors: &mut E) -> io::Result<()> {
    match fault {
        WorkFault::Unmade(error) if is_memory(&error) => Err(error),
        WorkFault::Unopened(error) if is_memory(&error) => Err(error),
        WorkFault::Unusable(error) if is_memory(&error) => Err(error),
        WorkFault::Unmade(error) if error.kind() == ErrorKind::AlreadyExists => writeln!(
            errors,
            "remoted: {path} is no folder: name another, or remove it"
        ),
        WorkFault::Unmade(error) => writeln!(errors, "remoted: cannot make {path}: {error}"),
        WorkFault::Unopened(error) => writeln!(
            errors,
            "remoted: cannot work in {path}: {path}/remoted.lock: {error}"
        ),
        WorkFault::Unusable(error) => writeln!(errors, "remoted: cannot work in {path}: {error}"),
        WorkFault::Foreign => writeln!(
            errors,
            "remoted: {path} is not empty, and is not a folder of remoted's: name an empty one, or \
             one that is not there"
        ),
        WorkFault::NoMark => writeln!(
            errors,
            "remoted: {path}/remoted.lock is no file: remove it, or name another folder"
        ),
        WorkFault::InUse => writeln!(
            errors,
            "remoted: another server works in {path}: stop it, or name another folder"
        ),
    }
}
