//! Files of this host that are open.

ghost use Rattle.std.specs.Prelude.{⊤};
ghost use Rattle.std.specs.Io.{ReadsAtMost};

use std::fs::{File, Metadata, Permissions, TryLockError};
use std::io::{self, Write};
use std::os::unix::fs::{FileExt, MetadataExt, PermissionsExt};
use system::{Facts, Identity, Kind, OpenFile};

/// A file of this host that is open. It is closed where it is let go.
#[derive(Drop)]
pub struct HostFile {
    file: File,
}

impl HostFile {
    /// The file that was opened in another way.
    pub fn new(file: File) -> HostFile {
        HostFile { file }
    }

    /// The same file, for a program that writes into it.
    pub(crate) fn stream(&self) -> io::Result<File> {
        self.file.try_clone()
    }
}

/// What it is that was found.
fn kind_of(found: &Metadata) -> Kind {
    if found.is_dir() {
        Kind::Directory
    } else if found.is_file() {
        Kind::File
    } else if found.is_symlink() {
        Kind::Link
    } else {
        Kind::Other
    }
}

/// What is told of what was found.
pub(crate) fn facts_of(found: &Metadata) -> Facts {
    Facts {
        identity: Identity {
            device: found.dev(),
            inode: found.ino(),
            kind: kind_of(found),
        },
        size: found.len(),
        mode: found.permissions().mode(),
        owner: found.uid(),
    }
}

impl OpenFile for HostFile {
    // The system does not say more of what is open than it is asked.
    ghost has = { λ _ _. ⊤ };

    ghost stood_at = { λ _ _. ⊤ };

    ghost may_write = { λ _. ⊤ };

    ghost gave = { λ _ _ _. ⊤ };

    fn facts(&self) -> io::Result<Facts> {
        let found = self.file.metadata()?;
        Ok(facts_of(&found))
    }

    fn read_at(&self, room: &mut [u8], from: u64) -> io::Result<usize> {
        self.file.read_at(room, from)
    }

    fn write_all(&mut self, bytes: &[u8]) -> io::Result<()> {
        self.file.write_all(bytes)
    }

    fn allow(&self, mode: u32) -> io::Result<()> {
        self.file.set_permissions(Permissions::from_mode(mode))
    }

    fn try_lock(&self) -> io::Result<bool> {
        match self.file.try_lock() {
            Ok(()) => Ok(true),
            Err(TryLockError::WouldBlock) => Ok(false),
            Err(TryLockError::Error(error)) => Err(error),
        }
    }
}
