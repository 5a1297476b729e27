//! The lines that an operator is told, and the lines and words that an operator writes.
#![tactic(auto)]

mod beginning;
mod checking;
mod due;
mod ending;
mod instance_words;
mod launchers;
mod lines;
mod notices;
mod options;
mod starting;
mod telling;
mod usage;

pub use beginning::{
    are_enough_files, can_see_ends, folder_of, is_ignored, slots_of, tell_file_limit, tell_leases,
    tell_no_folder, tell_no_sessions, tell_refused_words, tell_taken,
};
pub use checking::{Outcome, address_of, tell_outcome};
pub use due::Due;
pub use ending::EndingLines;
pub use instance_words::{Instances, InstancesFault, WordFault, instances_of};
pub use launchers::{binds_trees, can_bind, leaves_no_process, tell_lacking, tell_no_launcher};
pub use lines::{is_memory, told};
pub use notices::Notices;
pub use options::{Options, ip_of, options_of};
pub use starting::{tell_begin, tell_choices, tell_end, tell_instance, tell_turns};
pub use telling::{Age, tell_figures};
pub use usage::tell_usage;
