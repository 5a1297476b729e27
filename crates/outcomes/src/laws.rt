//! What the definitions of trees and results say.

ghost use Rattle.std.specs.Prelude.{◌≡◌, ◌≢◌, ◌==◌, ◌&&◌, List, true, filter, map, ℕ, Some};
ghost use Rattle.std.specs.List.{AllPairs, Contains, flat_map};
ghost use Rattle.digest.specs.declared.Digest.{Digest};
ghost use Rattle.tree_messages.specs.Directories.{DirectoryValue};
ghost use Rattle.run_calls.specs.Outcomes.{OutputNodeValue};
ghost use Rattle.outcomes.specs.Trees.{are_walked, below_root, children_of, directory_text, file_node, is_directory_node, root_of};
ghost use Rattle.instance_view.specs.Visible.{Blob};
ghost use Rattle.execution_messages.specs.declared.fault.Fault.{Fault};
ghost use Rattle.execution_messages.specs.Progress.{fails};
ghost use Rattle.run_calls.specs.Outcomes.{OutcomeValue};
ghost use Rattle.execution.specs.Job.{JobValue};
ghost use Rattle.outcomes.specs.Ending.{ending};
ghost use Rattle.outcomes.specs.Fates.{IsOfSuccess, LeavesNothing};

/// The root of a Tree has the nodes of level 1, and no others.
pub fn a_root_has_the_nodes_of_level_one()
    ensures files { (like : Digest) (nodes : List OutputNodeValue) → are_walked 1 nodes ≡ true →
        (root_of like nodes).files
        ≡ flat_map (λ n. file_node like n n.kind) (filter (λ n. n.level == 1) nodes) }
    ensures directories { (like : Digest) (nodes : List OutputNodeValue) →
        are_walked 1 nodes ≡ true → map (λ d. d.name) (root_of like nodes).directories
        ≡ map (λ n. n.name) (filter (λ n. n.level == 1 && is_directory_node n.kind) nodes) }
{}

/// Each directory below the root has its text among the children, and no text stands there twice.
pub fn each_directory_is_a_child_once()
    ensures each { (like : Digest) (nodes : List OutputNodeValue) (v : DirectoryValue) →
        Contains (below_root like nodes) v →
        (u : DirectoryValue) × Contains (children_of like nodes) u
        × (directory_text u ≡ directory_text v) }
    ensures once { (like : Digest) (nodes : List OutputNodeValue) →
        AllPairs (λ u v. directory_text u ≢ directory_text v) (children_of like nodes) }
{}

/// A result is stored only where the run came to its end with status 0 and the action does not say
/// otherwise; and it is the one that the job gives.
pub fn a_run_stores_only_success()
    ensures { (quota : ℕ) (visible : List Blob) (job : JobValue) (outcome : OutcomeValue)
        (text : List ℕ) → let e = ending quota visible job outcome in
        e.stored ≡ Some text → IsOfSuccess job outcome e text }
{}

/// Where a job fails, no blob of its run is admitted, and no result is stored.
pub fn what_fails_leaves_nothing()
    ensures { (quota : ℕ) (visible : List Blob) (job : JobValue) (outcome : OutcomeValue)
        (fault : Fault) (missing : List Digest) → let e = ending quota visible job outcome in
        e.end_is ≡ fails fault missing → LeavesNothing e }
{}
