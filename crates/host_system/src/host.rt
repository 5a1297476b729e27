//! What this host offers to programs of actions, and what stands there.

ghost use Rattle.std.specs.Prelude.{None, ⊤};

use crate::directory::HostDirectory;
use crate::file::{HostFile, facts_of};
use std::alloc::Global;
use std::fs::{self, OpenOptions};
use std::io::{self, ErrorKind};
use std::os::unix::fs::OpenOptionsExt;
use std::process::{Command, Stdio};
use std::thread;
use std::time::{Duration, Instant, SystemTime, UNIX_EPOCH};
use system::{Facts, Host, WorkHost, is_no_child};

/// A program that every host has.
const SHELL: &str = "/bin/sh";

/// Where the system says whether it has leases.
const LEASES: &str = "/proc/sys/fs/leases-enable";

/// This host.
#[derive(Drop)]
pub struct HostSystem<'a> {
    rt: &'a HostRuntime,
}

impl<'a> HostSystem<'a> {
    pub fn new(rt: &'a HostRuntime) -> HostSystem<'a> {
        HostSystem { rt }
    }
}

impl<'a> Host for HostSystem<'a> {
    type File = HostFile;

    fn alloc(&self) -> Global {
        self.rt.alloc()
    }

    fn now(&self) -> io::Result<Instant> {
        Instant::now(self.rt)
    }

    fn look(&self, path: &str) -> io::Result<Facts> {
        let found = fs::symlink_metadata(self.rt, path)?;
        Ok(facts_of(&found))
    }

    fn look_through(&self, path: &str) -> io::Result<Facts> {
        let found = fs::metadata(self.rt, path)?;
        Ok(facts_of(&found))
    }

    fn whole_path(&self, path: &str) -> io::Result<String> {
        let whole = fs::canonicalize(self.rt, path)?;
        let Some(text) = whole.to_str() else {
            let words = "its path is not UTF-8";
            return Err(io::Error::new(ErrorKind::InvalidFilename, words));
        };
        Ok(String::from_str(self.rt.alloc(), text)?)
    }

    fn make_file(&self, path: &str, mode: u32) -> io::Result<HostFile> {
        let file = OpenOptions::new()
            .read(true)
            .append(true)
            .create_new(true)
            .mode(mode)
            .open(self.rt, path)?;
        Ok(HostFile::new(file))
    }
}

impl<'a> WorkHost for HostSystem<'a> {
    type Directory = HostDirectory<'a>;

    ghost top = { None };

    fn since_1970(&self) -> io::Result<Duration> {
        let now = SystemTime::now(self.rt)?;
        Ok(now.duration_since(UNIX_EPOCH).unwrap_or(Duration::ZERO))
    }

    fn pause(&self, time: Duration) {
        thread::sleep(self.rt, time);
    }

    fn make_directories(&self, path: &str) -> io::Result<()> {
        fs::create_dir_all(self.rt, path)
    }

    fn open_directory(&self, path: &str) -> io::Result<HostDirectory<'a>> {
        HostDirectory::open(self.rt, path)
    }
}

/// Whether this process is told how its programs end: it is not where it was started with the
/// signal of their end ignored. An error says that no program can be started.
pub fn sees_ends(rt: &HostRuntime) -> io::Result<bool> {
    let mut command = Command::new(rt.alloc(), SHELL)?;
    command.arg("-c")?.arg(":")?;
    command
        .stdin(Stdio::null())
        .stdout(Stdio::null())
        .stderr(Stdio::null());
    sees_end_of(rt, &mut command)
}

fn sees_end_of(rt: &HostRuntime, command: &mut Command) -> io::Result<bool> {
    let mut child = command.spawn(rt)?;
    match child.wait() {
        Ok(_) => Ok(true),
        Err(error) if is_no_child(&error) => Ok(false),
        Err(error) => Err(error),
    }
}

/// Whether a program can take a lease on a file of its own: whoever opens that then waits until the
/// lease is given back, or for some seconds.
pub fn has_leases(rt: &HostRuntime) -> io::Result<bool> {
    match fs::read(rt, LEASES) {
        Ok(text) => Ok(text.first() != Some(&b'0')),
        Err(error) if error.kind() == ErrorKind::OutOfMemory => Err(error),
        // Where the system does not tell, it has none.
        Err(_) => Ok(false),
    }
}
