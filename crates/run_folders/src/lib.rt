//! Where what runs have lies, and the directories of runs, on any system: gone down into by no link;
//! what is in them is looked at, made, opened, listed and removed.
//!
//! Each function is proved for every right to look at places and to change them. So what it
//! requires is all that it can look at or change, whatever programs do meanwhile.
#![tactic(auto)]

mod behind;
mod entering;
mod files;
mod laws;
mod listing;
mod names;
mod paths;
mod removing;
mod segments;

pub use behind::{is_below, names_behind};
pub use entering::{Entered, enter, make};
pub use files::{
    Kept, file_in, kept_file, look_in, make_node, open_regular, open_to_add, open_to_read,
    read_part,
};
pub use laws::two_runs_have_two_folders;
pub use listing::{Listed, list_in};
pub use names::{Names, entry_name};
pub use paths::{
    aside_name, beside_path, file_path, left_path, node_path, parted, root_name, root_path,
    working_path,
};
pub use removing::{PRIVATE_MODE, is_absence, remove, remove_some, set_aside};
