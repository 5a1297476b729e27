//! The mark of a directory that is remoted's.

ghost use Rattle.std.specs.Prelude.{◌≡◌, IfOk, IfSome, codes};
ghost use Rattle.system.specs.Places.{entry};

use crate::work::WorkFault;
use run_folders::{Names, open_regular};
use std::alloc::Global;
use std::io::{self, ErrorKind};
use system::{Access, Directory, OpenFile};

/// The file that marks a directory as remoted's. The server that works there holds it locked.
const MARK: &[u8] = b"remoted.lock";

const MARK_TEXT: &str =
    "The actions of a remoted server have their folders here. It removes what it \
    finds in them.\n";

/// How it can be used: who could open it could hold it.
const MARK_MODE: u32 = 0o600;

/// What the root of a file system has from the start.
const LOST_AND_FOUND: &str = "lost+found";

/// The file that marks a directory, which gets one if it is empty. None where it is not, and has no
/// mark.
pub(crate) fn marked<D: Directory>(
    alloc: Global,
    directory: &D,
) -> Result<Option<D::File>, WorkFault>
    requires list { D.may_look (D.place directory.now) }
    requires look { D.may_look (entry (codes "remoted.lock") (D.place directory.now)) }
    requires change { D.may_change (entry (codes "remoted.lock") (D.place directory.now)) }
    ensures own { IfOk result (λ mark. IfSome mark D.File.may_write) }
{
    match open_regular(directory, MARK, Access::ReadAndWrite) {
        Ok(mark) => {
            // One of a former version. Where it is another user's, it stays as it is.
            let _ = mark.allow(MARK_MODE);
            return Ok(Some(mark));
        }
        Err(error) if error.kind() == ErrorKind::NotFound => {}
        Err(error) if error.kind() == ErrorKind::InvalidInput => return Err(WorkFault::NoMark),
        Err(error) => return Err(WorkFault::Unopened(error)),
    }
    if !is_empty(alloc, directory)? {
        return Ok(None);
    }
    let mut mark = directory.make_file(MARK, MARK_MODE)?;
    mark.write_all(MARK_TEXT.as_bytes())?;
    Ok(Some(mark))
}

/// Whether nothing is in a directory but what the root of a file system has from the start.
fn is_empty<D: Directory>(alloc: Global, directory: &D) -> io::Result<bool>
    requires list { D.may_look (D.place directory.now) }
{
    let listed = directory.again()?;
    let mut names = Names::new(alloc)?;
    for _ in 0..2 {
        match names.next(&listed)? {
            None => return Ok(true),
            Some(name) if name.as_slice() == LOST_AND_FOUND.as_bytes() => {}
            Some(_) => return Ok(false),
        }
    }
    Ok(false)
}
