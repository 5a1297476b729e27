//! Directories of this host that are open.

ghost use Rattle.std.specs.Prelude.{None, ⊤};
ghost use Rattle.std.specs.Io.{ReadsAtMost};

use crate::file::{HostFile, facts_of};
use std::alloc::{AllocError, Global};
use std::fs::{self, File, OpenOptions};
use std::io::{self, ErrorKind};
use std::os::unix::fs::{OpenOptionsExt, symlink};
use system::{Access, Directory, Facts};

/// Where the system shows what this process has open.
const OPEN: &str = "/proc/self/fd";

/// The error of the call that failed last.
fn last_error() -> io::Error {
    io::Error::from_raw_os_error(os::errno())
}

/// Whether a call was done, by its status.
fn done(status: i32) -> io::Result<()> {
    if status < 0 {
        return Err(last_error());
    }
    Ok(())
}

/// A directory of this host that is open. It is closed where it is let go.
pub struct HostDirectory<'a> {
    rt: &'a HostRuntime,
    descriptor: i32,
}

impl<'a> Drop for HostDirectory<'a> {
    fn drop(self) {
        let HostDirectory { rt: _, descriptor } = self;
        libc::close(descriptor);
    }
}

impl<'a> HostDirectory<'a> {
    /// The directory at a path. Where the path ends in a link, it is none.
    pub(crate) fn open(rt: &'a HostRuntime, path: &str) -> io::Result<HostDirectory<'a>> {
        opened(rt, os::open_dir_at(libc::AT_FDCWD, path.as_bytes()))
    }

    /// A path to what has this name in this directory, as long as that is open.
    fn path_of(&self, name: &[u8]) -> io::Result<Vec<u8>> {
        let descriptor = self.descriptor;
        let mut path = format!(in self.rt.alloc(); "{OPEN}/{descriptor}/")?.into_bytes();
        path.extend_from_slice(name)?;
        Ok(path)
    }

    /// The same where the name is a text.
    fn text_of(&self, name: &[u8]) -> io::Result<String> {
        let path = self.path_of(name)?;
        match String::from_utf8(path) {
            Ok(text) => Ok(text),
            Err(_) => Err(io::Error::from(ErrorKind::InvalidFilename)),
        }
    }
}

/// The directory of a descriptor, where that is one.
fn opened<'a>(rt: &'a HostRuntime, descriptor: i32) -> io::Result<HostDirectory<'a>> {
    if descriptor < 0 {
        return Err(last_error());
    }
    Ok(HostDirectory { rt, descriptor })
}

/// Opens what stands at a path for this.
fn open_as(rt: &HostRuntime, path: &str, access: Access) -> io::Result<File> {
    let mut options = OpenOptions::new();
    options.read(true);
    match access {
        Access::Read => {}
        Access::ReadAndWrite => {
            options.write(true);
        }
        Access::ReadAndAdd => {
            options.append(true);
        }
    }
    options.open(rt, path)
}

impl<'a> Directory for HostDirectory<'a> {
    type File = HostFile;

    // No place is known, and all may be done: what is asked is what its callers require.
    ghost place = { λ _. None };

    ghost may_look = { λ _. ⊤ };

    ghost may_change = { λ _. ⊤ };

    ghost is_settled = { λ _. ⊤ };

    ghost stood = { λ _ _. ⊤ };

    fn open_in(&self, name: &[u8]) -> io::Result<HostDirectory<'a>> {
        opened(self.rt, os::open_dir_at(self.descriptor, name))
    }

    fn again(&self) -> io::Result<HostDirectory<'a>> {
        opened(self.rt, os::open_dir_at(self.descriptor, b"."))
    }

    fn facts(&self) -> io::Result<Facts> {
        let path = self.text_of(b".")?;
        let found = fs::metadata(self.rt, path.as_str())?;
        Ok(facts_of(&found))
    }

    fn shown_path(&self, alloc: Global, name: &str) -> Result<String, AllocError> {
        let (process, descriptor) = (libc::getpid(), self.descriptor);
        format!(in alloc; "/proc/{process}/fd/{descriptor}/{name}")
    }

    fn list(&self, room: &mut [u8]) -> io::Result<usize> {
        let count = os::read_dir(self.descriptor, room);
        let error = os::errno();
        // A directory that was removed has no more names.
        if error != 0 && error != libc::ENOENT {
            return Err(io::Error::from_raw_os_error(error));
        }
        Ok(count)
    }

    fn look(&self, name: &[u8]) -> io::Result<Facts> {
        let path = self.text_of(name)?;
        let found = fs::symlink_metadata(self.rt, path.as_str())?;
        Ok(facts_of(&found))
    }

    fn look_while_open(&self, name: &[u8], _file: &HostFile) -> io::Result<Facts> {
        self.look(name)
    }

    fn open_file(&self, name: &[u8], access: Access) -> io::Result<HostFile> {
        let path = self.text_of(name)?;
        let file = open_as(self.rt, path.as_str(), access)?;
        Ok(HostFile::new(file))
    }

    fn make_file(&self, name: &[u8], mode: u32) -> io::Result<HostFile> {
        let path = self.text_of(name)?;
        let file: File = OpenOptions::new()
            .append(true)
            .create_new(true)
            .mode(mode)
            .open(self.rt, path.as_str())?;
        Ok(HostFile::new(file))
    }

    fn make_link(&self, name: &[u8], target: &str) -> io::Result<()> {
        let path = self.text_of(name)?;
        symlink(self.rt, target, path.as_str())
    }

    fn make_dir(&self, name: &[u8], mode: u32) -> io::Result<()> {
        let path = self.path_of(name)?;
        done(os::mkdir_with(&path, mode))
    }

    fn remove_file(&self, name: &[u8]) -> io::Result<()> {
        done(os::unlink_at(self.descriptor, name))
    }

    fn remove_dir(&self, name: &[u8]) -> io::Result<()> {
        done(os::rmdir_at(self.descriptor, name))
    }

    fn move_into(&self, name: &[u8], other: &HostDirectory<'a>, new_name: &[u8]) -> io::Result<()> {
        let from = self.path_of(name)?;
        let to = other.path_of(new_name)?;
        done(os::rename(&from, &to))
    }

    fn link_into(&self, name: &[u8], other: &HostDirectory<'a>, new_name: &[u8]) -> io::Result<()> {
        let from = self.path_of(name)?;
        let to = other.path_of(new_name)?;
        done(os::link(&from, &to))
    }

    fn allow(&self, mode: u32) -> io::Result<()> {
        done(libc::fchmod(self.descriptor, mode))
    }

    fn allow_in(&self, name: &[u8], mode: u32) -> io::Result<()> {
        let path = self.path_of(name)?;
        done(os::chmod(&path, mode))
    }
}
