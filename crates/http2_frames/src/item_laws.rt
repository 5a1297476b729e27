//! What holds of every format of items, and of every text.

ghost use Rattle.std.specs.Prelude.{◌≡◌, ◌++◌, ℕ, List, Err};
ghost use Rattle.http2_frames.specs.Items.{Format, behind, divide_by, divide, divide_left, IsSteady};

/// What stands at the front of a text is its first item, its rest or its fault, and behind an item
/// the text divides as if it began there.
pub fn a_division_begins_at_the_front<A, E>()
    ensures { (format : Format A E) (text : List ℕ) → IsSteady format →
        divide format text ≡ divide_by format (format.whole_at text) text (divide format) }
{}

/// More bytes continue from the rest: they add items and change none, and after a fault they add
/// nothing.
pub fn more_bytes_add_items<A, E>()
    ensures continues { (format : Format A E) (text more : List ℕ) → IsSteady format →
        divide format (text ++ more)
        ≡ behind (divide format text).items (divide_left format (divide format text).end more) }
    ensures fault { (format : Format A E) (text more : List ℕ) (fault : E) → IsSteady format →
        (divide format text).end ≡ Err fault → divide format (text ++ more) ≡ divide format text }
{}
