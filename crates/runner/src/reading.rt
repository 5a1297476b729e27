//! What was read of a file or a stream so far.

ghost use Rattle.std.specs.Prelude.{◌≡◌, ◌++◌, ◌+◌, ◌≤◌, ◌<◌, [], MatchBool, OnOk, length};
ghost use Rattle.runner.specs.Sizes.{most_bytes};

use blob_pool::Draft;
use digest::HashFunction;
use run_calls::Content;
use std::alloc::{AllocError, Global};
use std::marker::Model;

/// The most bytes of standard output, standard error and output files together.
pub(crate) const MOST_BYTES: u64 = 1_073_741_824;

/// Whether so many bytes more are more than is taken, where so many were taken.
pub(crate) fn is_too_large(taken: u64, more: u64) -> bool
    requires { taken ≤ most_bytes }
    ensures { MatchBool result (most_bytes < taken + more) (taken + more ≤ most_bytes) }
{
    more > MOST_BYTES - taken
}

/// What was read of a file or a stream so far, hashed as it came.
#[derive(Drop)]
pub(crate) struct Reading {
    draft: Draft,
}

impl Model for Reading {
    ghost use Rattle.std.specs.Prelude.{ℕ, List, ◌≡◌, true};

    ghost Value = { List ℕ };

    ghost view = { λ r. r.draft.text };

    ghost invariant = { λ r. r.draft.is_open ≡ true };
}

impl Reading {
    /// Nothing yet of what is to be named by a function. It takes no memory.
    pub(crate) fn new(alloc: Global, function: HashFunction) -> Reading
        ensures { result ≡ [] }
    {
        Reading {
            draft: Draft::new(alloc, function),
        }
    }

    pub(crate) fn length(&self) -> u64
        ensures { result ≡ length self.now }
    {
        self.draft.length()
    }

    /// Adds bytes that follow.
    pub(crate) fn push(&mut self, bytes: &[u8]) -> Result<(), AllocError>
        requires { length self.old + length bytes.now ≤ most_bytes }
        ensures { OnOk result (self.new ≡ self.old ++ bytes.now) }
    {
        self.draft.push(bytes)
    }

    /// The whole of it. It takes no memory.
    pub(crate) fn whole(self) -> Content
        ensures { result ≡ self }
    {
        let Reading { draft } = self;
        Content::new(draft)
    }
}
