//! The texts that going through a tree uses.

ghost use Rattle.std.specs.Prelude.{◌≡◌, ℕ};
ghost use Rattle.blob_pool.specs.Slots.{Slots};
ghost use Rattle.instance_view.specs.Shown.{visible_in, holders};
ghost use Rattle.input_tree.specs.Uses.{visible_after_uses};

use digest::Digest;
use instance_view::View;

/// Uses each digest, in order. It takes no memory.
pub fn use_all(view: &mut View, digests: &[Digest])
    ensures used { (p : Slots) → visible_in p view.new
        ≡ visible_after_uses digests.now (visible_in p view.old) }
    ensures holders { (k : ℕ) → holders view.new k ≡ holders view.old k }
    ensures limit { view.new.limit ≡ view.old.limit }
{
    let mut left = digests;
    'digests: while let [first, rest @ ..] = left {
        view.touch(first);
        left = rest;
    }
}
