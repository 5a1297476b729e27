//! Directories of inputs that are made once for many runs of an instance: which there are, which
//! runs use them, and which are to be removed.
//!
//! This is the store alone, and what runs have of it: where the nodes of their own trees are made
//! for that, and what is told to whoever starts their programs. What the store says is carried out
//! by whoever has the folders.
#![tactic(auto)]

mod claims;
mod counts;
mod instances;
mod laws;
mod list;
mod sites;
mod store;
mod table;
mod tree;
mod trees;
mod words;

pub use counts::TreeCounts;
pub use instances::InstanceTrees;
pub use laws::a_tree_in_use_stays;
pub use sites::Site;
pub use store::{Claim, Held, MadeTrees, Removal};
pub use tree::TreeKey;
