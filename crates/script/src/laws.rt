//! What is written is read back, and lines and words are the only split of a text.
ghost use Rattle.std.specs.Prelude.{◌≡◌, ◌≢◌, ◌^◌, ◌<◌, ℕ, List, ◌∷◌, length, Some};
ghost use Rattle.std.specs.Fmt.{decimal};
ghost use Rattle.std.specs.List.{All, join_with_byte};
ghost use Rattle.script.specs.Hexadecimal.{bytes_of_hex, hex_word};
ghost use Rattle.numerals.specs.Number.{decimal_of};
ghost use Rattle.script.specs.Parts.{parts_of};

/// The parts of a text, with the separator between each two, give the text back, and no part has
/// the separator in it; no other list of parts does that.
pub fn parts_are_the_only_split(text: &[u8], separator: u8)
    ensures joined { join_with_byte separator (parts_of separator text.now) ≡ text.now }
    ensures apart { All (All (λ byte. byte ≢ separator)) (parts_of separator text.now) }
    ensures only { (part : List ℕ) (parts : List (List ℕ)) →
        join_with_byte separator (part ∷ parts) ≡ text.now
        → All (All (λ byte. byte ≢ separator)) (part ∷ parts)
        → part ∷ parts ≡ parts_of separator text.now }
{}

/// Bytes are read back from the word that writes them, and no other word is read as them.
pub fn hexadecimal_is_read_back(bytes: &[u8])
    ensures read { bytes_of_hex (hex_word bytes.now) ≡ Some bytes.now }
    ensures only { (word : List ℕ) → bytes_of_hex word ≡ Some bytes.now →
        word ≡ hex_word bytes.now }
{}

/// A number is read back from its usual decimal digits, with any zeros before them.
pub fn decimal_is_read_back(number: u64)
    ensures { decimal_of (decimal number) ≡ Some number }
{}
