//! What reading has to do with the grammar, for all octets.

ghost use Rattle.std.specs.Prelude.{◌≡◌, ℕ, ◌≤◌, List, ◌++◌, Ok, Err};
ghost use Rattle.hpack_huffman.specs.Code.{eos, code};
ghost use Rattle.hpack_huffman.specs.Grammar.{IsHuffman, HasEos};
ghost use Rattle.hpack_huffman.specs.Reading.{text_of_octets};
ghost use Rattle.hpack_huffman.specs.declared.HuffmanError.TheVariants.{Eos, Padding};

/// The code is a prefix code: no symbol's code begins the code of another.
pub fn no_code_begins_another()
    ensures { (s t : ℕ) → s ≤ eos → t ≤ eos → (rest : List ℕ) → code t ≡ code s ++ rest → s ≡ t }
{}

/// Octets are read as the text whose Huffman coding they are, and refused where they are none's.
pub fn reading_is_the_grammar()
    ensures read { (octets text : List ℕ) → IsHuffman octets text →
        text_of_octets octets ≡ Ok text }
    ensures spelled { (octets text : List ℕ) → text_of_octets octets ≡ Ok text →
        IsHuffman octets text }
    ensures eos_met { (octets : List ℕ) → HasEos octets → text_of_octets octets ≡ Err Eos }
    ensures eos_stands { (octets : List ℕ) → text_of_octets octets ≡ Err Eos → HasEos octets }
    ensures refused { (octets : List ℕ) → ((text : List ℕ) → ¬ IsHuffman octets text) →
        ¬ HasEos octets → text_of_octets octets ≡ Err Padding }
    ensures no_text { (octets : List ℕ) → text_of_octets octets ≡ Err Padding → (text : List ℕ) →
        ¬ IsHuffman octets text }
    ensures no_eos { (octets : List ℕ) → text_of_octets octets ≡ Err Padding → ¬ HasEos octets }
{}
