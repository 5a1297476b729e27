//! What groups have to do with the numbers that they are written for, for every number.

ghost use Rattle.std.specs.Prelude.{◌≡◌, ◌^◌, ◌<◌, ◌≤◌, ℕ, List, [], ◌∷◌, length};
ghost use Rattle.numerals.specs.Groups.{AreGroups, groups};

/// What is written for a number is in groups, and they are that number's.
pub fn writing_is_in_groups()
    ensures { (n : ℕ) → AreGroups (groups n) n }
{}

/// Bytes are the groups of one number at most.
pub fn groups_have_one_number()
    ensures { (bytes : List ℕ) (m n : ℕ) → AreGroups bytes m → AreGroups bytes n → m ≡ n }
{}

/// A number below 128 is one byte.
pub fn small_number_is_one_byte()
    ensures { (n : ℕ) → n < 128 → groups n ≡ n ∷ [] }
{}

/// A number of seven bits for each of some groups is written with no more groups than those.
pub fn groups_are_few()
    ensures { (count n : ℕ) → 0 < count → n < 128 ^ count → length (groups n) ≤ count }
{}
