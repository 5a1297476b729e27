//! What holds of trees that are in use.

ghost use Rattle.std.specs.Prelude.{◌≡◌, ℕ, false};
ghost use Rattle.run_calls.specs.declared.task.RunKey.{RunKey};
ghost use Rattle.made_trees.specs.Claims.{IsClaimedSo};
ghost use Rattle.made_trees.specs.Trees.{StoreValue, Trees, changed, finished, given_back, held, same_run, uses, without_leaving};
ghost use Rattle.made_trees.specs.declared.store.Claim.{Claim};
ghost use Rattle.made_trees.specs.declared.tree.TreeKey.{TreeKey};

/// A tree that a run uses stays whole, and in its folder, whatever is claimed, made whole, given
/// back by others and removed.
pub fn a_tree_in_use_stays()
    ensures claimed { (run other : RunKey) (mine key : TreeKey) (size : ℕ) (folder : RunKey)
        (claim : Claim) (old new : StoreValue) → IsClaimedSo other key size old new claim
        → held run mine old.trees ≡ uses folder → held run mine new.trees ≡ uses folder }
    ensures finished { (run other : RunKey) (mine key : TreeKey) (folder : RunKey) (trees : Trees)
        → held run mine trees ≡ uses folder
        → held run mine (changed (finished other) key trees) ≡ uses folder }
    ensures given_back { (run other : RunKey) (mine key : TreeKey) (folder : RunKey)
        (trees : Trees) → same_run run other ≡ false → held run mine trees ≡ uses folder
        → held run mine (changed (given_back other) key trees) ≡ uses folder }
    ensures removed { (run : RunKey) (mine key : TreeKey) (folder : RunKey) (trees : Trees)
        → held run mine trees ≡ uses folder
        → held run mine (without_leaving key trees) ≡ uses folder }
{}
