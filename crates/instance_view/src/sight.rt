//! What an instance sees: its own texts, and those that its parent has besides, for reading.

ghost use Rattle.std.specs.Prelude.{◌≡◌, ◌+◌, ◌≤◌, ℕ, is_some, option_map, IfSome};
ghost use Rattle.blob_pool.specs.Slots.{Slots};
ghost use Rattle.instance_view.specs.Visible.{visible_text};
ghost use Rattle.instance_view.specs.Shown.{visible_in, holders, text_seen, holders_seen};
ghost use Rattle.instance_view.specs.Sight.{SightValue, seen_in, sight_holders};
ghost use Rattle.instance_view.specs.Texts.{WorkValue, counted};

use crate::view::{Seen, View};
use crate::work::Work;
use digest::Digest;
use std::marker::Model;

/// The texts of two instances: those of the second are behind those of the first.
#[derive(Drop)]
pub struct Sight<'a> {
    own: &'a View,
    parent: &'a View,
}

impl<'a> Model for Sight<'a> {
    ghost use Rattle.instance_view.specs.Sight.{SightValue};

    ghost Value = { SightValue };

    ghost view = { λ s. record { own = s.own.now; parent = s.parent.now } };
}

impl<'a> Sight<'a> {
    /// What an instance with these texts sees, whose parent has those.
    pub fn new(own: &'a View, parent: &'a View) -> Sight<'a>
        ensures { result ≡ record { own = own.now; parent = parent.now } }
    {
        Sight { own, parent }
    }

    /// The text of the digest: the instance's own, or else its parent's. This is no use of it.
    pub fn get(&self, digest: &Digest) -> Option<Seen>
        ensures text { (p : Slots) → option_map (text_seen p) result
            ≡ visible_text digest.now (seen_in p self.now) }
        ensures held { IfSome result (λ s. (k : ℕ) → holders_seen s k ≤ sight_holders self.now k) }
    {
        find_in_either(self.own, self.parent, digest)
    }

    /// Whether there is a text of the digest. This is no use of it.
    pub fn contains(&self, digest: &Digest) -> bool
        ensures { (p : Slots) → result ≡ is_some (visible_text digest.now (seen_in p self.now)) }
    {
        self.get(digest).is_some()
    }
}

/// What an instance sees, where each look is counted. Its field is this module's own: whoever has
/// one of these, and nothing else to look in, looks by `contains` alone.
#[derive(Drop)]
pub struct CountedSight<'a> {
    sight: Sight<'a>,
}

impl<'a> Model for CountedSight<'a> {
    ghost use Rattle.instance_view.specs.Sight.{SightValue};

    ghost Value = { SightValue };

    ghost view = { λ s. s.sight };
}

impl<'a> CountedSight<'a> {
    /// What an instance with these texts sees, whose parent has those.
    pub fn new(own: &'a View, parent: &'a View) -> CountedSight<'a>
        ensures { result ≡ record { own = own.now; parent = parent.now } }
    {
        CountedSight {
            sight: Sight::new(own, parent),
        }
    }

    /// Whether there is a text of the digest. This is one look, whichever of the two has it.
    pub fn contains(&self, work: &mut Work, digest: &Digest) -> bool
        ensures there { (p : Slots) →
            result ≡ is_some (visible_text digest.now (seen_in p self.now)) }
        ensures counted { work.new.looks ≡ counted work.old.looks 1 }
        ensures looks { work.new.looks ≤ work.old.looks + 1 }
        ensures bytes { work.new.bytes ≡ work.old.bytes }
    {
        work.look();
        self.sight.contains(digest)
    }
}

/// The text of the digest in the one view, or else in the other.
fn find_in_either(own: &View, parent: &View, digest: &Digest) -> Option<Seen>
    ensures text { (p : Slots) → option_map (text_seen p) result
        ≡ visible_text digest.now (seen_in p (record { own = own.now; parent = parent.now })) }
    ensures held { IfSome result (λ s. (k : ℕ) →
        holders_seen s k ≤ holders own.now k + holders parent.now k) }
{
    match own.get(digest) {
        Some(seen) => Some(seen),
        None => parent.get(digest),
    }
}
