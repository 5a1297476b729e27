//! What is read of a word has to do with what it writes, for every word.

ghost use Rattle.std.specs.Prelude.{◌≡◌, ◌^◌, ◌<◌, ℕ, List, Some};
ghost use Rattle.command_line.specs.Size.{IsSize, size_of};

/// What is read of a word is a number of bytes that it writes.
pub fn read_is_written()
    ensures { (word : List ℕ) (bytes : ℕ) → size_of word ≡ Some bytes → IsSize word bytes }
{}

/// Each number of bytes below 2^64 that a word writes is read.
pub fn written_is_read()
    ensures { (word : List ℕ) (bytes : ℕ) → bytes < 2 ^ 64 → IsSize word bytes
        → size_of word ≡ Some bytes }
{}
