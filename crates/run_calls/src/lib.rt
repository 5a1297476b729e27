//! What a run asks of folders, of programs and of whoever has the texts of its files, and what it
//! gives: texts, hashed as they came, and what stands at its outputs' paths. A node of a tree that
//! is walked stands here too, in whatever way its text is named.
#![tactic(auto)]

mod content;
mod folder;
mod node;
mod outcome;
mod programs;
mod task;
mod texts;
mod tree_node;

pub use content::Content;
pub use folder::{Entry, FileFacts, Folder, Found, InputTree, Place};
pub use node::{TaskNode, TaskNodeKind};
pub use outcome::{Exited, Outcome, Output, OutputKind, OutputNode, OutputNodeKind, Streams};
pub use programs::{MOST_LOOKS, Programs, Stream};
pub use task::{Command, RunKey, Task, Variable};
pub use texts::Texts;
pub use tree_node::{Node, NodeKind};
