//! Texts of files, which lie elsewhere and are lent while a run's tree is made.

ghost use Rattle.std.specs.Prelude.{ℕ, List};

/// The texts of a run's files, by their numbers.
pub trait Texts {
    ghost use Rattle.std.specs.Prelude.{◌+◌, ◌<◌, ◌^◌, length};
    ghost use Rattle.run_calls.specs.Texts.{IsPart};

    /// The whole text of a number. One that is no file's has the empty text.
    ghost text_of: { Self → ℕ → List ℕ };

    /// Bytes of a text from a place within it on: at most `most`, and at least one where `most` is
    /// not 0, but for the end of the text. They may end before `most`, as at the end of a page.
    fn part(&self, text: usize, from: u64, most: u32) -> &[u8]
        ensures part { IsPart (text_of self.now text) from most result.now }
        ensures bound { from + length result.now < 2 ^ 64 };
}
