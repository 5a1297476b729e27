//! Texts that are read in parts.

ghost use Rattle.std.specs.Prelude.{◌≡◌, ◌+◌, ◌<◌, ◌≤◌, ◌^◌, ◌++◌, ℕ, List, length, take, drop, vec_len, vec_capacity};
ghost use Rattle.grpc_sending.specs.Parts.{IsPart};

/// Sources of bytes, by their numbers.
pub trait Parts {
    /// The whole text of a source. A number that is no source's has the empty text.
    ghost text_of: { Self → ℕ → List ℕ };

    /// Bytes of the source from a place within it on: at most `most`, and at least one where `most`
    /// is not 0. They may end before `most`, as at the end of a page.
    fn part(&self, source: usize, from: u64, most: u32) -> &[u8]
        requires { from < length (text_of self.now source) }
        ensures { IsPart (text_of self.now source) from most result.now };
}

/// Adds bytes of a source to the end of a vector that has room for them.
pub(crate) fn fill<P: Parts>(parts: &P, source: usize, from: u64, many: u32, out: &mut Vec<u8>)
    requires there { from + many ≤ length (P.text_of parts.now source) }
    requires place { from + many < 2 ^ 64 }
    requires room { vec_len out.old + many ≤ vec_capacity out.old }
    ensures items { out.new.items ≡ out.old.items
        ++ take many (drop from (P.text_of parts.now source)) }
    ensures capacity { vec_capacity out.old ≤ vec_capacity out.new }
{
    let mut place = from;
    let mut left = many;
    'parts: while left > 0 {
        let part = parts.part(source, place, left);
        out.extend_from_slice(part).unwrap();
        place += part.len() as u64;
        left -= part.len() as u32;
    }
}
