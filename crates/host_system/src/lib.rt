//! The system of this host: what is asked of it for the folders and the programs of runs, and of
//! shells, each by one call.
#![tactic(auto)]

mod directory;
mod file;
mod host;
mod programs;
mod shells;
mod signals;

pub use directory::HostDirectory;
pub use file::HostFile;
pub use host::{HostSystem, has_leases, sees_ends};
pub use programs::{HostChild, HostCommand, HostSpawner};
pub use shells::{HostShell, HostShells};
pub use signals::HostSignaller;
