//! Beginning to work in a directory.

ghost use Rattle.std.specs.Prelude.{◌≡◌, IfOk, IfSome, IsTrue, List, ℕ, codes};
ghost use Rattle.system.specs.Names.{is_name};
ghost use Rattle.system.specs.Places.{AtAndBelow, MayTake, entry};
ghost use Rattle.work_folders.specs.Rights.{IsStartIn, IsStartName, MayStart, MayWork, start_name};

use crate::marking::marked;
use crate::start_folder::StartFolder;
use crate::starts::{StartName, make_start, number_after, starts_in};
use crate::work::{Complaint, FORMER, FORMER_NAME, Held, Work, WorkFault};
use run_folders::{PRIVATE_MODE, entry_name, remove_some, set_aside};
use std::alloc::Global;
use std::io::{self, ErrorKind};
use std::time::{Duration, Instant};
use system::{Directory, OpenFile, Shells, WorkHost};

/// The user whom a system has for itself.
const ROOT: u32 = 0;

/// The bit of a directory in which each user may write.
const WRITTEN_BY_ALL: u32 = 0o002;

/// How many directories of former starts a start moves under names that no other start's have.
const MOVED_OF_START: u64 = 1_000_000;

/// A folder that is made in order to see whether one can be made and removed.
const TRIAL: &[u8] = b"trial";

/// For how long a start removes what former ones left where the disk is full, before it gives up.
const ROOM_SECONDS: u64 = 60;

/// Makes a folder for the runs of this start in a directory, which is made if it is not there, and
/// holds that until the result is let go. Only an empty directory is taken, or one that was taken
/// before.
///
/// The folder has a name that none of those there has had, so that a program of a former start
/// which still runs knows no path into it. Former starts' folders are removed by a shell, for which
/// it is waited for a second. Where none can be had, some is removed now, and some more with each
/// run that begins and ends. What cannot be removed stays, and is in nobody's way.
pub fn begin_work<H: WorkHost<Directory = D>, D: Directory, S: Shells<File = D::File>>(
    host: &H,
    shells: &mut S,
    path: &str,
    complaints: &mut Vec<Complaint>,
) -> Result<Work<D, S>, WorkFault>
    requires may { MayWork D.may_look D.may_change D.is_settled H.top }
    ensures start { IfOk result (λ work. IfSome work.start (IsStartIn H.top)) }
{
    match host.make_directories(path) {
        Ok(()) => {}
        Err(error) => return Err(WorkFault::Unmade(error)),
    }
    let whole = host.whole_path(path)?;
    let path = whole.as_str();
    let directory = host.open_directory(path)?;
    let Some(mark) = marked(host.alloc(), &directory)? else {
        return Err(WorkFault::Foreign);
    };
    match mark.try_lock() {
        Ok(true) => {}
        Ok(false) => return Err(WorkFault::InUse),
        Err(error) => push(complaints, Complaint::Unlocked(error))?,
    }
    Ok(begin_in(host, shells, path, directory, mark, complaints)?)
}

fn push(complaints: &mut Vec<Complaint>, complaint: Complaint) -> io::Result<()> {
    Ok(complaints.push(complaint)?)
}

/// Begins in a directory that is held.
fn begin_in<H: WorkHost<Directory = D>, D: Directory, S: Shells<File = D::File>>(
    host: &H,
    shells: &mut S,
    path: &str,
    directory: D,
    mark: D::File,
    complaints: &mut Vec<Complaint>,
) -> io::Result<Work<D, S>>
    requires may { MayWork D.may_look D.may_change D.is_settled (D.place directory) }
    ensures start { IfOk result (λ work. IfSome work.start (IsStartIn (D.place directory))) }
{
    let alloc = host.alloc();
    let former = starts_in(alloc, &directory)?;
    let number = number_after(host, &former)?;
    let mut moved = number.saturating_mul(MOVED_OF_START);
    let (name, start) = first_start(host, &directory, number, &former, &mut moved)?;
    set_all_aside(alloc, path, &directory, &former, &mut moved, complaints)?;
    let name = name.as_str();
    let whole = format!(in alloc; "{path}/{name}")?;
    if is_shared(host, path, whole.as_str())? {
        push(complaints, Complaint::Shared)?;
    }
    let shown = start.shown_path(alloc, ".")?;
    let is_clear = is_missing(&directory, FORMER_NAME);
    let mut held = Held::new(alloc, directory, mark, shown, is_clear, moved);
    if let Err(error) = held.clear(host, shells, whole.as_str()) {
        complain(alloc, path, FORMER, error, complaints)?;
    }
    Ok(Work {
        path: whole,
        start: Some(StartFolder::new(start)),
        held: Some(held),
    })
}

/// Makes the folder of this start, where the disk is full once some of what former starts left is
/// removed.
fn first_start<H: WorkHost, D: Directory>(
    host: &H,
    directory: &D,
    number: u64,
    former: &[StartName],
    moved: &mut u64,
) -> io::Result<(StartName, D)>
    requires may { MayWork D.may_look D.may_change D.is_settled (D.place directory.now) }
    ensures { IfOk result (λ made. D.place made.1 ≡ entry made.0 (D.place directory.now)) }
{
    match tried_start(host.alloc(), directory, number) {
        Err(error) if is_full(&error) => start_in_full(host, directory, number, former, moved),
        answer => answer,
    }
}

/// Moves the folders of former starts to what is removed.
fn set_all_aside<D: Directory>(
    alloc: Global,
    path: &str,
    directory: &D,
    former: &[StartName],
    moved: &mut u64,
    complaints: &mut Vec<Complaint>,
) -> io::Result<()>
    requires may { MayWork D.may_look D.may_change D.is_settled (D.place directory.now) }
{
    for name in former.iter() {
        match set_former_aside(alloc, directory, name, moved) {
            Err(error) if error.kind() != ErrorKind::NotFound => {
                complain(alloc, path, name.as_str(), error, complaints)?;
            }
            _ => {}
        }
    }
    Ok(())
}

/// Moves the folder of a former start to what is removed.
fn set_former_aside<D: Directory>(
    alloc: Global,
    directory: &D,
    name: &StartName,
    moved: &mut u64,
) -> io::Result<()>
    requires may { MayWork D.may_look D.may_change D.is_settled (D.place directory.now) }
{
    let name = entry_name(name.as_str())?;
    set_aside(alloc, directory, FORMER_NAME, directory, name, moved)
}

/// Whether others may rename what is in the directory at a path: it is neither of the user who made
/// the folder of the start, nor of root, or each user may write there.
fn is_shared<H: WorkHost>(host: &H, path: &str, start: &str) -> io::Result<bool> {
    let (found, made) = (host.look(path)?, host.look(start)?);
    let is_own = found.owner == made.owner || found.owner == ROOT;
    Ok(!is_own || found.mode & WRITTEN_BY_ALL != 0)
}

/// Whether nothing has this name in a directory.
fn is_missing<D: Directory>(directory: &D, name: &[u8]) -> bool
    requires name { IsTrue (is_name name.now) }
    requires may { D.may_look (entry name.now (D.place directory.now)) }
{
    match directory.open_in(name) {
        Ok(_) => false,
        Err(error) => error.kind() == ErrorKind::NotFound,
    }
}

/// Makes the folder of this start, if a folder can be made and removed in it.
fn tried_start<D: Directory>(
    alloc: Global,
    directory: &D,
    number: u64,
) -> io::Result<(StartName, D)>
    requires may { (number : List ℕ) → MayStart D.may_look D.may_change D.is_settled
        (entry (start_name number) (D.place directory.now)) }
    ensures { IfOk result (λ made. D.place made.1 ≡ entry made.0 (D.place directory.now)) }
{
    let (name, start) = make_start(alloc, directory, number)?;
    match start.make_dir(TRIAL, PRIVATE_MODE) {
        Ok(()) => {}
        Err(error) => {
            remove_start(directory, &name)?;
            return Err(error);
        }
    }
    start.remove_dir(TRIAL)?;
    Ok((name, start))
}

/// Removes the folder of this start.
fn remove_start<D: Directory>(directory: &D, name: &StartName) -> io::Result<()>
    requires may { (number : List ℕ) → MayStart D.may_look D.may_change D.is_settled
        (entry (start_name number) (D.place directory.now)) }
{
    directory.remove_dir(entry_name(name.as_str())?)
}

/// Whether the disk has no room.
fn is_full(error: &io::Error) -> bool {
    matches!(
        error.kind(),
        ErrorKind::StorageFull | ErrorKind::QuotaExceeded
    )
}

/// The same on a full disk: what former starts left is removed until there is room.
fn start_in_full<H: WorkHost, D: Directory>(
    host: &H,
    directory: &D,
    number: u64,
    former: &[StartName],
    moved: &mut u64,
) -> io::Result<(StartName, D)>
    requires may { MayWork D.may_look D.may_change D.is_settled (D.place directory.now) }
    ensures { IfOk result (λ made. D.place made.1 ≡ entry made.0 (D.place directory.now)) }
{
    let began = host.now()?;
    if let Some(made) = start_once_cleared(host, directory, number, moved, began)? {
        return Ok(made);
    }
    for name in former {
        if becomes_former(directory, name) {
            if let Some(made) = start_once_cleared(host, directory, number, moved, began)? {
                return Ok(made);
            }
        }
    }
    Err(io::Error::from(ErrorKind::StorageFull))
}

/// Has the folder of a former start be that of what is removed, unless there is one: it could not
/// be made. Whether it is.
fn becomes_former<D: Directory>(directory: &D, name: &StartName) -> bool
    requires may { MayWork D.may_look D.may_change D.is_settled (D.place directory.now) }
{
    let Ok(name) = entry_name(name.as_str()) else {
        return false;
    };
    directory.open_in(name).is_ok() && directory.move_into(name, directory, FORMER_NAME).is_ok()
}

/// Removes what stands in the folder for that until the folder of this start can be made; none
/// where nothing is left there, or the time is over.
fn start_once_cleared<H: WorkHost, D: Directory>(
    host: &H,
    directory: &D,
    number: u64,
    moved: &mut u64,
    began: Instant,
) -> io::Result<Option<(StartName, D)>>
    requires may { MayWork D.may_look D.may_change D.is_settled (D.place directory.now) }
    ensures { IfOk result (λ found. IfSome found
        (λ made. D.place made.1 ≡ entry made.0 (D.place directory.now))) }
{
    let alloc = host.alloc();
    for _ in 0..u64::MAX {
        let answer = remove_some(alloc, directory, FORMER_NAME, moved);
        let is_left = matches!(answer, Ok(false));
        match tried_start(alloc, directory, number) {
            Err(error) if is_full(&error) => {}
            answer => return Ok(Some(answer?)),
        }
        let time = host.now()?.duration_since(began);
        if !is_left || time >= Duration::from_secs(ROOM_SECONDS) {
            return Ok(None);
        }
    }
    Ok(None)
}

/// Adds that what has a name in a directory stays.
fn complain(
    alloc: Global,
    above: &str,
    name: &str,
    error: io::Error,
    complaints: &mut Vec<Complaint>,
) -> io::Result<()> {
    let path = format!(in alloc; "{above}/{name}")?;
    push(complaints, Complaint::Left(path, error))
}
