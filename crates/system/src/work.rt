//! The directory in which runs work, and time.

ghost use Rattle.std.specs.Prelude.{◌≡◌, IfOk};

use crate::directory::Directory;
use crate::programs::Host;
use std::io;
use std::time::Duration;

/// What is asked of a host for the directory in which runs work.
pub trait WorkHost: Host {
    ghost use Rattle.system.specs.Places.{Place};

    type Directory: Directory;

    // Where the directory stands that is opened at a path. The names of what is in it go on from
    // there.
    ghost top: { Place };

    /// How long it is since 1970 began, as the system's clock says it; none before.
    fn since_1970(&self) -> io::Result<Duration>;

    /// Waits for so long.
    fn pause(&self, time: Duration);

    /// Makes a directory at a path, and those above it, where they are not there.
    fn make_directories(&self, path: &str) -> io::Result<()>;

    /// Opens the directory at a path. Where the path ends in a link, it is none.
    fn open_directory(&self, path: &str) -> io::Result<Self::Directory>
        ensures { IfOk result (λ d. Self.Directory.place d ≡ top) };
}
