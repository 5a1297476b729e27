//! What a result that names one tree many times comes to.

ghost use Rattle.std.specs.Prelude.{ℕ, List};
ghost use Rattle.input_tree.specs.Listing.{Lookup};
ghost use Rattle.action_cache.specs.Complete.{blobs_of};
ghost use Rattle.action_cache.specs.Answering.{HaveSameUses};
ghost use Rattle.action_cache.specs.LastTrees.{blobs_once};

/// A tree that is named again further on can be left out: whether all is there, and what the uses
/// leave, is the same.
pub fn the_last_of_each_tree_is_enough()
    ensures { (look : Lookup) (text : List ℕ) →
        HaveSameUses (blobs_once look text) (blobs_of look text) }
{}
