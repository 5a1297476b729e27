//! Texts that are found by their digests.

use digest::Digest;
use instance_view::{Seen, Sight};

/// Texts of a pool that are found by their digests.
pub trait Finds {
    ghost use Rattle.std.specs.Prelude.{◌≡◌, is_some, option_map};
    ghost use Rattle.blob_pool.specs.Slots.{Slots};
    ghost use Rattle.instance_view.specs.Shown.{text_seen};
    ghost use Rattle.input_tree.specs.Listing.{Lookup};

    /// What is found in a pool.
    ghost found_in: { Slots → Self → Lookup };

    /// The text of a digest.
    fn get(&self, digest: &Digest) -> Option<Seen>
        ensures { (p : Slots) → option_map (text_seen p) result
            ≡ found_in p self.now digest.now };

    /// Whether there is a text of the digest.
    fn contains(&self, digest: &Digest) -> bool
        ensures { (p : Slots) → result ≡ is_some (found_in p self.now digest.now) };
}

impl<'a> Finds for Sight<'a> {
    ghost use Rattle.input_tree.specs.Texts.{texts_of};

    ghost found_in = { texts_of };

    fn get(&self, digest: &Digest) -> Option<Seen> {
        self.get(digest)
    }

    fn contains(&self, digest: &Digest) -> bool {
        self.contains(digest)
    }
}
