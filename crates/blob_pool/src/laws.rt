//! What the definitions say, for every text.

ghost use Rattle.std.specs.Prelude.{◌≡◌, ◌<◌, ◌≤◌, ℕ, List, length, take};
ghost use Rattle.std.specs.List.{AllByRecursion, concat};
ghost use Rattle.blob_pool.specs.Parts.{parts_from};

/// The parts of a text from its beginning on join to a front of it: to the whole text where they
/// have as many bytes, and wherever there are as many parts as it has bytes, each of which may have
/// a byte.
pub fn parts_join_to_the_text()
    ensures front { (size : ℕ) (text mosts : List ℕ) →
        take (length (concat (parts_from size text 0 mosts))) text
        ≡ concat (parts_from size text 0 mosts) }
    ensures whole { (size : ℕ) (text mosts : List ℕ) →
        length (concat (parts_from size text 0 mosts)) ≡ length text →
        concat (parts_from size text 0 mosts) ≡ text }
    ensures enough { (size : ℕ) (text mosts : List ℕ) → 0 < size →
        AllByRecursion (λ (most : ℕ). 0 < most) mosts → length text ≤ length mosts →
        concat (parts_from size text 0 mosts) ≡ text }
{}
