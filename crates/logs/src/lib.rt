//! Logs of all that happens at sockets and at runs, and of all that is asked of folders and programs;
//! and what follows for whoever serves over them.
#![tactic(auto)]

mod copies;
mod laws;
mod logged_folder;
mod logged_programs;
mod logged_runs;
mod logged_sockets;
mod run_copies;

pub use laws::{what_is_laid, what_ran, what_ran_was_ordered};
pub use logged_folder::{FolderAnswered, FolderAsked, FolderRecord, LoggedFolder};
pub use logged_programs::{LoggedPrograms, ProgramAnswered, ProgramAsked, ProgramRecord};
pub use logged_runs::{LoggedRuns, RunRecord};
pub use logged_sockets::{LoggedSockets, SocketRecord};
pub use run_copies::{TaskCopy, TextCopy};
