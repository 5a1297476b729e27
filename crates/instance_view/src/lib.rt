//! The texts that an instance has, by their last use.
#![tactic(auto)]

mod dropped;
mod sight;
mod texts;
mod view;
mod work;

pub use dropped::Dropped;
pub use sight::{CountedSight, Sight};
pub use texts::{Finds, Texts};
pub use view::{MOST_LIMIT, Seen, View, copy_of};
pub use work::Work;
