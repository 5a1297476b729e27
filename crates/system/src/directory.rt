//! Directories and files that are open.

ghost use Rattle.std.specs.Prelude.{◌≡◌, ◌≤◌, ◌∷◌, ℕ, List, IfOk, IsTrue, length};
ghost use Rattle.std.specs.Io.{ReadsAtMost, WritesAtMost};

use std::alloc::{AllocError, Global};
use std::io;

/// What stands at a place.
#[derive(Clone, Copy, Debug, PartialEq, Eq)]
pub enum Kind {
    Directory,
    File,
    /// A symbolic link.
    Link,
    /// As a FIFO.
    Other,
}

/// What a thing on a disk keeps for as long as it is there, under whatever name. Once it is gone and
/// nobody has it open, something else may get the same.
#[derive(Clone, Copy, Debug, PartialEq, Eq)]
pub struct Identity {
    pub device: u64,
    pub inode: u64,
    pub kind: Kind,
}

/// What is told of a thing on a disk.
#[derive(Clone, Copy, Debug, PartialEq, Eq)]
pub struct Facts {
    pub identity: Identity,
    /// In bytes.
    pub size: u64,
    /// Who may do what with it.
    pub mode: u32,
    /// The number of the user whose it is.
    pub owner: u32,
}

/// For what a file is opened.
#[derive(Clone, Copy, Debug, PartialEq, Eq)]
pub enum Access {
    Read,
    /// It waits for nobody: a FIFO is open at once.
    ReadAndWrite,
    /// The same, and all that is written comes at the end.
    ReadAndAdd,
}

/// A file that is open, or what was there in its place. It is closed where it is let go.
pub trait OpenFile: Drop {
    ghost use Rattle.std.specs.Prelude.{take};
    ghost use Rattle.system.specs.Places.{Place};
    ghost use Rattle.system.specs.declared.directory.Identity.{Identity};

    // That what is open has this identity. Nothing else has it as long as this is open.
    ghost has: { Self → Identity → Type 0 };

    // That what is open stood at a place at some time, itself and no link to it.
    ghost stood_at: { Self → Place → Type 0 };

    // Whether it may be written, locked, and made to allow what a mode says.
    ghost may_write: { Self → Type 0 };

    // That a reading from a place on gave these bytes. It gives none at the end alone.
    ghost gave: { Self → ℕ → List ℕ → Type 0 };

    /// What is told of what is open.
    fn facts(&self) -> io::Result<Facts>
        ensures { IfOk result (λ f. has self.now f.identity) };

    /// Reads bytes from a place on, and says how many; none at the end alone.
    fn read_at(&self, room: &mut [u8], from: u64) -> io::Result<usize>
        ensures bound { ReadsAtMost result room.new }
        ensures gave { IfOk result (λ count. gave self.now from (take count room.new)) };

    /// Writes all of these bytes, or some of them where it fails.
    fn write_all(&mut self, bytes: &[u8]) -> io::Result<()>
        requires may { may_write self.old }
        ensures may { may_write self.new };

    /// Makes it allow what a mode says.
    fn allow(&self, mode: u32) -> io::Result<()>
        requires may { may_write self.now };

    /// Locks it until it is closed, unless another process has it locked. Whether it is locked now.
    fn try_lock(&self) -> io::Result<bool>
        requires may { may_write self.now };
}

/// A directory that is open. It is closed where it is let go.
///
/// What is in it is reached by single names, and no link is followed but where a file is opened, of
/// which it is asked what it is. Programs may change anything between two calls. So what is said of
/// a directory is by which names it was opened; that stays so, wherever it is moved.
pub trait Directory: Drop {
    ghost use Rattle.std.specs.Prelude.{◌⊎◌, codes};
    ghost use Rattle.system.specs.Names.{is_name};
    ghost use Rattle.system.specs.Places.{IsFileThere, Place, entry};
    ghost use Rattle.system.specs.declared.directory.Access.TheVariants.{Read};
    ghost use Rattle.system.specs.declared.directory.Identity.{Identity};

    type File: OpenFile;

    // The names by which it was opened, from the directory that is held on.
    ghost place: { Self → Place };

    // Whether what stands at a place may be opened, listed and looked at.
    ghost may_look: { Place → Type 0 };

    // Whether what stands at a place may be made, removed, moved, and made to allow that.
    ghost may_change: { Place → Type 0 };

    // That nobody else changes meanwhile what has a name at a place.
    ghost is_settled: { Place → Type 0 };

    // That something of this identity stood at a place at some time, itself and no link to it. What
    // has the identity later may be something else.
    ghost stood: { Place → Identity → Type 0 };

    /// The directory of this name in this one. A link is none.
    fn open_in(&self, name: &[u8]) -> io::Result<Self>
    where
        Self: Sized,
        requires name { IsTrue (is_name name.now) }
        requires may { may_look (entry name.now (place self.now)) }
        ensures { IfOk result (λ d. place d ≡ entry name.now (place self.now)) };

    /// The same directory, opened once more.
    fn again(&self) -> io::Result<Self>
    where
        Self: Sized,
        ensures { IfOk result (λ d. place d ≡ place self.now) };

    /// What is told of it.
    fn facts(&self) -> io::Result<Facts>
        requires may { may_look (place self.now) };

    /// A path by which another process of this user finds what has this name in this one, or that
    /// itself, `.`, as long as it is open.
    fn shown_path(&self, alloc: Global, name: &str) -> Result<String, AllocError>
        requires may { (name.now ≡ codes ".") ⊎ may_look (entry name.now (place self.now)) };

    /// Puts names of entries that were not listed yet at the start of the room, each with a 0
    /// behind it, and says how many bytes they take: none at the end alone. They may be any bytes.
    fn list(&self, room: &mut [u8]) -> io::Result<usize>
        requires may { may_look (place self.now) }
        ensures bound { ReadsAtMost result room.new };

    /// What is told of what has this name, a link not followed.
    fn look(&self, name: &[u8]) -> io::Result<Facts>
        requires name { IsTrue (is_name name.now) }
        requires may { may_look (entry name.now (place self.now)) }
        ensures { IfOk result (λ f. stood (entry name.now (place self.now)) f.identity) };

    /// The same while a file is open. What has the name and the identity of that file is the file
    /// itself, since nothing else has its identity meanwhile.
    fn look_while_open(&self, name: &[u8], file: &Self::File) -> io::Result<Facts>
        requires name { IsTrue (is_name name.now) }
        requires may { may_look (entry name.now (place self.now)) }
        ensures { IfOk result (λ f. Self.File.has file.now f.identity
            → Self.File.stood_at file.now (entry name.now (place self.now))) };

    /// Opens what has this name, or what a link of this name leads to. To open a FIFO to read it
    /// alone would wait for whoever writes to it, so that is for what is known to be a file.
    fn open_file(&self, name: &[u8], access: Access) -> io::Result<Self::File>
        requires name { IsTrue (is_name name.now) }
        requires no_wait { access ≡ Read
            → IsFileThere is_settled stood (entry name.now (place self.now)) }
        requires may { may_look (entry name.now (place self.now)) }
        ensures own { IfOk result (λ file. Self.File.stood_at file (entry name.now (place self.now))
            → may_change (entry name.now (place self.now)) → Self.File.may_write file) };

    /// Makes a file that may be used as a mode says, as far as the process's own mask allows, and
    /// opens it to be added to. It is an error where anything has the name.
    fn make_file(&self, name: &[u8], mode: u32) -> io::Result<Self::File>
        requires name { IsTrue (is_name name.now) }
        requires may { may_change (entry name.now (place self.now)) }
        ensures own { IfOk result Self.File.may_write };

    /// Makes a symbolic link to what a text says.
    fn make_link(&self, name: &[u8], target: &str) -> io::Result<()>
        requires name { IsTrue (is_name name.now) }
        requires may { may_change (entry name.now (place self.now)) };

    /// Makes a directory that may be used as a mode says, as far as the process's own mask allows.
    fn make_dir(&self, name: &[u8], mode: u32) -> io::Result<()>
        requires name { IsTrue (is_name name.now) }
        requires may { may_change (entry name.now (place self.now)) };

    /// Removes what has this name and is no directory.
    fn remove_file(&self, name: &[u8]) -> io::Result<()>
        requires name { IsTrue (is_name name.now) }
        requires may { may_change (entry name.now (place self.now)) };

    /// Removes the directory of this name, which is empty.
    fn remove_dir(&self, name: &[u8]) -> io::Result<()>
        requires name { IsTrue (is_name name.now) }
        requires may { may_change (entry name.now (place self.now)) };

    /// Moves what has this name into another directory, under a name that nothing has there but
    /// perhaps an empty directory.
    fn move_into(&self, name: &[u8], other: &Self, new_name: &[u8]) -> io::Result<()>
        requires name { IsTrue (is_name name.now) }
        requires new_name { IsTrue (is_name new_name.now) }
        requires may { may_change (entry name.now (place self.now)) }
        requires may_there { may_change (entry new_name.now (place other.now)) };

    /// Gives what has this name, and no link to it, another one in another directory.
    fn link_into(&self, name: &[u8], other: &Self, new_name: &[u8]) -> io::Result<()>
        requires name { IsTrue (is_name name.now) }
        requires new_name { IsTrue (is_name new_name.now) }
        requires may { may_look (entry name.now (place self.now)) }
        requires may_there { may_change (entry new_name.now (place other.now)) };

    /// Makes this directory allow what a mode says.
    fn allow(&self, mode: u32) -> io::Result<()>
        requires may { may_change (place self.now) };

    /// Makes the directory of this name allow what a mode says, which may not be opened. Where a
    /// link has come in its place, what that leads to is changed.
    fn allow_in(&self, name: &[u8], mode: u32) -> io::Result<()>
        requires name { IsTrue (is_name name.now) }
        requires settled { is_settled (entry name.now (place self.now)) }
        requires may { may_change (entry name.now (place self.now)) };
}

/// Whether two identities are the same.
pub fn is_same(one: Identity, other: Identity) -> bool
    ensures { IsTrue result → one ≡ other }
{
    match (one.kind, other.kind) {
        (Kind::Directory, Kind::Directory)
        | (Kind::File, Kind::File)
        | (Kind::Link, Kind::Link)
        | (Kind::Other, Kind::Other) => { one.device == other.device && one.inode == other.inode }
        _ => false,
    }
}
