//! Nodes of a plan, and those that what is taken of a directory stands for.

ghost use Rattle.std.specs.Prelude.{◌≡◌, ℕ, IfOk};
ghost use Rattle.actions.specs.Nodes.{PlanNodeValue};
ghost use Rattle.actions.specs.Shown.{node_shown};

use digest::Digest;
use input_tree::{ChildTaken, FileTaken, LinkTaken};
use run_calls::{Node, NodeKind};
use std::alloc::AllocError;

/// A node of a plan, which names texts by their digests.
pub type PlanNode = Node<Digest>;

/// A node of a directory that is taken.
pub trait NodeTaken: Sized {
    /// The node without where it lies in memory.
    ghost Value: { Type 0 };

    ghost shown: { Self → Value };

    /// The plan's node in a directory of this level.
    ghost at: { ℕ → Value → PlanNodeValue };

    /// The plan's node in a directory of this level. It shares the name, and the target of a link,
    /// and takes no memory.
    ///
    /// Err: one of these is shared too often to be counted.
    fn node_at(&self, level: usize) -> Result<PlanNode, AllocError>
        ensures { IfOk result (λ node. node_shown node ≡ at level (shown self.now)) };
}

impl NodeTaken for FileTaken {
    ghost use Rattle.input_tree.specs.Taken.{FileTakenValue, file_taken_shown};
    ghost use Rattle.actions.specs.Nodes.{file_node};

    ghost Value = { FileTakenValue };

    ghost shown = { file_taken_shown };

    ghost at = { file_node };

    fn node_at(&self, level: usize) -> Result<PlanNode, AllocError> {
        let kind = NodeKind::File {
            text: self.digest,
            is_executable: self.is_executable,
        };
        let name = self.name.clone()?;
        Ok(Node { name, level, kind })
    }
}

impl NodeTaken for LinkTaken {
    ghost use Rattle.tree_messages.specs.Directories.{SymlinkNodeValue};
    ghost use Rattle.input_tree.specs.Taken.{link_taken_shown};
    ghost use Rattle.actions.specs.Nodes.{symlink_node};

    ghost Value = { SymlinkNodeValue };

    ghost shown = { link_taken_shown };

    ghost at = { symlink_node };

    fn node_at(&self, level: usize) -> Result<PlanNode, AllocError> {
        let target = self.target.clone()?;
        let name = self.name.clone()?;
        let kind = NodeKind::Symlink { target };
        Ok(Node { name, level, kind })
    }
}

impl NodeTaken for ChildTaken {
    ghost use Rattle.input_tree.specs.Taken.{ChildTakenValue, child_taken_shown};
    ghost use Rattle.actions.specs.Nodes.{child_node};

    ghost Value = { ChildTakenValue };

    ghost shown = { child_taken_shown };

    ghost at = { child_node };

    fn node_at(&self, level: usize) -> Result<PlanNode, AllocError> {
        let kind = NodeKind::Directory { text: self.digest };
        let name = self.name.clone()?;
        Ok(Node { name, level, kind })
    }
}
