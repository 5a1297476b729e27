//! What uses of texts leave.

ghost use Rattle.std.specs.Prelude.{◌≡◌, List, ◌++◌};
ghost use Rattle.digest.specs.declared.Digest.{Digest};
ghost use Rattle.instance_view.specs.Visible.{Blob};
ghost use Rattle.input_tree.specs.Uses.{AreAmong, last_uses, visible_after_uses};

/// Uses leave the texts, and their order, as those of the last occurrences alone do; and uses of
/// digests that are used further on can be left out.
pub fn only_the_last_use_counts()
    ensures last { (ds : List Digest) (visible : List Blob) →
        visible_after_uses (last_uses ds) visible ≡ visible_after_uses ds visible }
    ensures covered { (before bs cs : List Digest) (visible : List Blob) → AreAmong bs cs →
        visible_after_uses (before ++ bs ++ cs) visible
        ≡ visible_after_uses (before ++ cs) visible }
{}
