//! Removing folders, some of them at a time, where no shell can.
//!
//! Beside a folder stands another one, to which nothing below the folder leads: its folder aside.
//! What is to be removed is moved there whole, and each directory below it, but an empty one, is
//! moved up into the folder aside. So nothing is more than two names deep when it is removed,
//! however deep an action made its tree and however it called its files, and nothing has to be
//! remembered between calls. No link is followed but where a directory may not be opened: it is made
//! to allow that by its name. So nobody else may change by then what is removed (`is_settled`).

ghost use Rattle.std.specs.Prelude.{◌≡◌, IfOk, IsTrue};
ghost use Rattle.system.specs.Names.{is_name};
ghost use Rattle.system.specs.Places.{AtAndBelow, MayTake, entry};

use crate::names::Names;
use std::alloc::Global;
use std::io::{self, ErrorKind};
use system::{Directory, is_name};

/// How many entries are removed or moved in one call, at most.
const MOST_REMOVED: u32 = 128;

/// How many are looked at in one call, at most.
const MOST_SEEN: u32 = 1_024;

/// How a directory can be used that is this user's alone.
pub const PRIVATE_MODE: u32 = 0o700;

/// Whether a call failed since nothing is there, or since what is above it is no directory: a link
/// is none.
pub fn is_absence(error: &io::Error) -> bool {
    matches!(
        error.kind(),
        ErrorKind::NotFound | ErrorKind::NotADirectory | ErrorKind::FilesystemLoop
    )
}

/// The folder aside, which is made if no directory is there: whatever else is goes.
fn opened_aside<D: Directory>(start: &D, aside: &[u8]) -> io::Result<D>
    requires name { IsTrue (is_name aside.now) }
    requires aside { MayTake D.may_look D.may_change D.is_settled
        (entry aside.now (D.place start.now)) }
    ensures { IfOk result (λ d. D.place d ≡ entry aside.now (D.place start.now)) }
{
    match made_aside(start, aside) {
        Err(error) if is_absence(&error) => {
            start.remove_file(aside)?;
            made_aside(start, aside)
        }
        answer => answer,
    }
}

fn made_aside<D: Directory>(start: &D, aside: &[u8]) -> io::Result<D>
    requires name { IsTrue (is_name aside.now) }
    requires aside { MayTake D.may_look D.may_change D.is_settled
        (entry aside.now (D.place start.now)) }
    ensures { IfOk result (λ d. D.place d ≡ entry aside.now (D.place start.now)) }
{
    match start.make_dir(aside, PRIVATE_MODE) {
        Err(error) if error.kind() != ErrorKind::AlreadyExists => return Err(error),
        _ => {}
    }
    start.open_in(aside)
}

/// Moves what has a name in a directory into the folder aside, which is made if it is not there.
pub fn set_aside<D: Directory>(
    alloc: Global,
    start: &D,
    aside: &[u8],
    directory: &D,
    name: &[u8],
    moved: &mut u64,
) -> io::Result<()>
    requires aside_name { IsTrue (is_name aside.now) }
    requires name { IsTrue (is_name name.now) }
    requires aside { AtAndBelow (MayTake D.may_look D.may_change D.is_settled)
        (entry aside.now (D.place start.now)) }
    requires what { MayTake D.may_look D.may_change D.is_settled
        (entry name.now (D.place directory.now)) }
{
    let aside = opened_aside(start, aside)?;
    move_aside(alloc, directory, name, &aside, moved)
}

/// Moves what has a name in a directory into a folder aside. Where what was moved there before has
/// its new name, that fails, and the next call takes another one.
fn move_aside<D: Directory>(
    alloc: Global,
    directory: &D,
    name: &[u8],
    aside: &D,
    moved: &mut u64,
) -> io::Result<()>
    requires name { IsTrue (is_name name.now) }
    requires aside { AtAndBelow (MayTake D.may_look D.may_change D.is_settled)
        (D.place aside.now) }
    requires what { MayTake D.may_look D.may_change D.is_settled
        (entry name.now (D.place directory.now)) }
{
    *moved = moved.wrapping_add(1);
    let number = *moved;
    let target = format!(in alloc; "{number}")?.into_bytes();
    if !is_name(&target) {
        return Err(io::Error::from(ErrorKind::InvalidFilename));
    }
    match directory.move_into(name, aside, &target) {
        Err(error) if error.kind() == ErrorKind::PermissionDenied => {
            allow_in(directory, name)?;
            directory.move_into(name, aside, &target)
        }
        answer => answer,
    }
}

/// Makes the directory of this name allow that it is listed, emptied and moved. Where it may not be
/// opened, that goes by its name.
fn allow_in<D: Directory>(directory: &D, name: &[u8]) -> io::Result<()>
    requires name { IsTrue (is_name name.now) }
    requires what { MayTake D.may_look D.may_change D.is_settled
        (entry name.now (D.place directory.now)) }
{
    match directory.open_in(name) {
        Ok(opened) => opened.allow(PRIVATE_MODE),
        Err(error) if error.kind() == ErrorKind::PermissionDenied => {
            directory.allow_in(name, PRIVATE_MODE)
        }
        Err(error) => Err(error),
    }
}

/// Whether something could not be moved since its new name is that of something else.
fn is_taken(error: &io::Error) -> bool {
    matches!(
        error.kind(),
        ErrorKind::AlreadyExists
            | ErrorKind::DirectoryNotEmpty
            | ErrorKind::NotADirectory
            | ErrorKind::IsADirectory
    )
}

/// The same as `set_aside`, and then removes some of what stands there. Where the new name is
/// taken, what has it is removed, in this call or in others.
pub fn remove<D: Directory>(
    alloc: Global,
    start: &D,
    aside: &[u8],
    directory: &D,
    name: &[u8],
    moved: &mut u64,
) -> io::Result<bool>
    requires aside_name { IsTrue (is_name aside.now) }
    requires name { IsTrue (is_name name.now) }
    requires aside { AtAndBelow (MayTake D.may_look D.may_change D.is_settled)
        (entry aside.now (D.place start.now)) }
    requires what { MayTake D.may_look D.may_change D.is_settled
        (entry name.now (D.place directory.now)) }
{
    match set_aside(alloc, start, aside, directory, name, moved) {
        Ok(()) => remove_some(alloc, start, aside, moved),
        Err(error) if is_taken(&error) => {
            remove_some(alloc, start, aside, moved)?;
            Ok(false)
        }
        Err(error) => Err(error),
    }
}

/// Removes some of what stands in the folder aside, and that itself once it is empty. Whether
/// nothing is left: where something is, something was removed.
pub fn remove_some<D: Directory>(
    alloc: Global,
    start: &D,
    aside: &[u8],
    moved: &mut u64,
) -> io::Result<bool>
    requires aside_name { IsTrue (is_name aside.now) }
    requires aside { AtAndBelow (MayTake D.may_look D.may_change D.is_settled)
        (entry aside.now (D.place start.now)) }
{
    let opened = match start.open_in(aside) {
        Ok(opened) => opened,
        Err(error) if error.kind() == ErrorKind::NotFound => return Ok(true),
        Err(error) => return Err(error),
    };
    let mut emptying = Emptying {
        alloc,
        moved,
        removed: 0,
        seen: 0,
        fault: None,
    };
    emptying.empty_aside(&opened)?;
    let Emptying { removed, fault, .. } = emptying;
    match start.remove_dir(aside) {
        Ok(()) => Ok(true),
        Err(error) if error.kind() == ErrorKind::NotFound => Ok(true),
        Err(_) if removed > 0 => Ok(false),
        Err(error) => Err(fault.unwrap_or(error)),
    }
}

/// Removes what has a name in a directory, unless that is a directory itself. Whether it is one.
fn unlink<D: Directory>(directory: &D, name: &[u8]) -> io::Result<bool>
    requires name { IsTrue (is_name name.now) }
    requires change { D.may_change (entry name.now (D.place directory.now)) }
{
    match directory.remove_file(name) {
        Ok(()) => Ok(false),
        Err(error) if error.kind() == ErrorKind::IsADirectory => Ok(true),
        Err(error) => Err(error),
    }
}

/// How far it is with a folder aside of which some is being removed.
#[derive(Drop)]
struct Emptying<'a> {
    alloc: Global,
    moved: &'a mut u64,
    /// How many entries were removed or moved.
    removed: u32,
    /// At how many it was looked.
    seen: u32,
    /// Why the first of those that stay could not be removed.
    fault: Option<io::Error>,
}

/// Opens a directory that stands aside, and makes it allow that it is emptied.
fn opened<D: Directory>(aside: &D, name: &[u8]) -> io::Result<D>
    requires name { IsTrue (is_name name.now) }
    requires what { MayTake D.may_look D.may_change D.is_settled
        (entry name.now (D.place aside.now)) }
    ensures { IfOk result (λ d. D.place d ≡ entry name.now (D.place aside.now)) }
{
    let directory = match aside.open_in(name) {
        Err(error) if error.kind() == ErrorKind::PermissionDenied => {
            allow_in(aside, name)?;
            aside.open_in(name)?
        }
        answer => answer?,
    };
    // Where it is not allowed, what is in the directory may be removed all the same.
    let _allowed: io::Result<()> = directory.allow(PRIVATE_MODE);
    Ok(directory)
}

impl<'a> Emptying<'a> {
    fn is_enough(&self) -> bool {
        self.removed >= MOST_REMOVED || self.seen >= MOST_SEEN
    }

    /// Notes what came of an attempt to remove or move an entry.
    fn note(&mut self, answer: io::Result<()>) {
        match answer {
            Ok(()) => self.removed = self.removed.saturating_add(1),
            Err(error) => {
                if self.fault.is_none() {
                    self.fault = Some(error);
                }
            }
        }
    }

    fn empty_aside<D: Directory>(&mut self, aside: &D) -> io::Result<()>
        requires aside { AtAndBelow (MayTake D.may_look D.may_change D.is_settled)
            (D.place aside.now) }
    {
        let mut names = Names::new(self.alloc)?;
        for _ in 0..MOST_SEEN {
            if self.is_enough() {
                return Ok(());
            }
            let Some(name) = names.next(aside)? else {
                return Ok(());
            };
            self.seen = self.seen.saturating_add(1);
            match unlink(aside, &name) {
                Ok(false) => self.note(Ok(())),
                Ok(true) => self.empty(aside, &name)?,
                Err(error) => self.note(Err(error)),
            }
        }
        Ok(())
    }

    /// Removes a directory that stands aside, or some of it.
    fn empty<D: Directory>(&mut self, aside: &D, name: &[u8]) -> io::Result<()>
        requires name { IsTrue (is_name name.now) }
        requires aside { AtAndBelow (MayTake D.may_look D.may_change D.is_settled)
            (D.place aside.now) }
    {
        match opened(aside, name) {
            Ok(directory) => self.empty_opened(aside, name, &directory)?,
            Err(error) => {
                self.note(Err(error));
                return Ok(());
            }
        }
        let answer = aside.remove_dir(name);
        self.note(answer);
        Ok(())
    }

    /// Removes what stands in a directory that stands aside, under this name, or moves it aside.
    fn empty_opened<D: Directory>(
        &mut self,
        aside: &D,
        above: &[u8],
        directory: &D,
    ) -> io::Result<()>
        requires place { D.place directory.now ≡ entry above.now (D.place aside.now) }
        requires aside { AtAndBelow (MayTake D.may_look D.may_change D.is_settled)
            (D.place aside.now) }
    {
        let mut names = Names::new(self.alloc)?;
        for _ in 0..MOST_SEEN {
            if self.is_enough() {
                return Ok(());
            }
            let Some(name) = names.next(directory)? else {
                return Ok(());
            };
            self.seen = self.seen.saturating_add(1);
            let answer = take_out(self.alloc, aside, directory, &name, self.moved);
            self.note(answer);
        }
        Ok(())
    }
}

/// Removes what stands in a directory, or moves it aside.
fn take_out<D: Directory>(
    alloc: Global,
    aside: &D,
    directory: &D,
    name: &[u8],
    moved: &mut u64,
) -> io::Result<()>
    requires name { IsTrue (is_name name.now) }
    requires aside { AtAndBelow (MayTake D.may_look D.may_change D.is_settled)
        (D.place aside.now) }
    requires what { MayTake D.may_look D.may_change D.is_settled
        (entry name.now (D.place directory.now)) }
{
    if !unlink(directory, name)? {
        return Ok(());
    }
    match directory.remove_dir(name) {
        Ok(()) => Ok(()),
        Err(_) => move_aside(alloc, directory, name, aside, moved),
    }
}
