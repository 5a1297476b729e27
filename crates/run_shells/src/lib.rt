//! Shells that do for the server what it must not wait for, on any system: they end sessions, open
//! files, and remove folders.
//!
//! Nothing here sends a signal but by the shells of `Signals`, and these are told no number but that
//! of a program that was started here, and of what was found in its session.
#![tactic(auto)]

mod alive;
mod asked;
mod opening_shell;
mod processes;
mod questions;
mod removing_shell;
mod sessions;
mod status;
mod waiting;

pub use opening_shell::{Answer, OpeningShell};
pub use removing_shell::{Removing, RemovingShells};
pub use sessions::ShellSessions;
