//! The folders of runs, and those of starts in which they stand, on any system: how the directory
//! for them is taken, what a run makes, reads and leaves there, and how it is removed.
//!
//! Each function is proved for every right to look at places and to change them. So what it
//! requires is all that it can touch, whatever programs do meanwhile. What is done for a run stays
//! below its folder, and in the one aside.
#![tactic(auto)]

mod beginning;
mod counts;
mod entrance;
mod folder;
mod folders;
mod marking;
mod opener;
mod openers;
mod places;
mod remover;
mod request;
mod sited;
mod start_folder;
mod starts;
mod tallies;
mod work;

pub use beginning::begin_work;
pub use counts::FolderCounts;
pub use folder::WorkFolder;
pub use folders::Links;
pub use work::{Complaint, Work, WorkFault};
