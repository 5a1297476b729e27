//! The programs of runs, on any system: which are known, when each is looked at, how one is looked
//! for and started, by itself or by a launcher, how it is ended, and what its code means.
//!
//! Nothing here starts a program but by the spawner that is given, and nothing ends a session but
//! that of a program that was started.
#![tactic(auto)]

mod children;
mod exec_size;
mod host;
mod launching;
mod looks;
mod programs;
mod search;
mod sought;
mod started;
mod starting;
mod watched;
mod way;

pub use host::has_sessions;
pub use launching::{Launcher, launcher_path};
pub use programs::RunPrograms;
