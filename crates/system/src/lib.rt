//! What the folders and the programs of runs ask of a system, each by one call.
#![tactic(auto)]

mod directory;
mod names;
mod programs;
mod sessions;
mod shells;
mod signals;
mod work;

pub use directory::{Access, Directory, Facts, Identity, Kind, OpenFile, is_same};
pub use names::is_name;
pub use programs::{Child, Command, Ending, Host, Spawner, is_no_child};
pub use sessions::{Progress, Question, Session, Sessions};
pub use shells::{Shell, Shells, ToldShell};
pub use signals::Signals;
pub use work::WorkHost;
