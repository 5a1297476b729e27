//! Texts that a run gave, hashed as they came.

ghost use Rattle.std.specs.Prelude.{◌≡◌, ◌≤◌, ◌==◌, length};
ghost use Rattle.blob_pool.specs.declared.text.TheConstants.{MOST_BYTES};
ghost use Rattle.digest.specs.Naming.{hash_by};
ghost use Rattle.run_calls.specs.Naming.{digest_like};

use blob_pool::Draft;
use digest::{Digest, Hash, HashFunction};
use std::marker::Model;

/// A whole text, with its hash.
pub struct Content {
    draft: Draft,
    /// By the function that the draft was made for.
    hash: Hash,
}

// Written out, so that no crate above proves again that each part of it may be dropped.
impl Drop for Content {
    fn drop(self) {
        let Content { draft, hash: _ } = self;
        drop(draft);
    }
}

impl Model for Content {
    ghost use Rattle.std.specs.Prelude.{ℕ, List, ◌≡◌};
    ghost use Rattle.digest.specs.Naming.{function_of, hash_by};

    ghost Value = { List ℕ };

    ghost view = { λ c. c.draft.text };

    ghost invariant = { λ c. c.hash ≡ hash_by (function_of c.hash) c.draft.text };
}

impl Content {
    /// The text of a draft, of which all has come. It takes no memory.
    #[tactic(auto, using(crate::proofs::Hashes::own_hash))]
    pub fn new(draft: Draft) -> Content
        ensures { result ≡ draft.text }
    {
        let mut draft = draft;
        let function = draft.function();
        let digest = draft.digest_by(function);
        Content {
            draft,
            hash: digest.hash,
        }
    }

    /// How many bytes there are. It takes no memory.
    pub fn length(&self) -> u64
        ensures length { result ≡ length self.now }
        ensures most { result ≤ MOST_BYTES }
    {
        self.draft.length()
    }

    /// Whether there are no bytes. It takes no memory.
    pub fn is_empty(&self) -> bool
        ensures { result ≡ (length self.now == 0) }
    {
        self.draft.length() == 0
    }

    /// Its hash, by a function. It is computed where the draft was made for the other one.
    #[tactic(auto, using(crate::proofs::Hashes::short_hash, crate::proofs::Hashes::long_hash))]
    fn hash_by(&self, function: HashFunction) -> Hash
        ensures { result ≡ hash_by function self.now }
    {
        match (&self.hash, function) {
            (Hash::Sha256(_), HashFunction::Sha256) => self.hash,
            (Hash::Sha512(_), HashFunction::Sha512) => self.hash,
            _ => self.draft.digest_again(function).hash,
        }
    }

    /// Its digest, by the function of another digest. It takes no memory.
    pub fn digest_like(&self, like: &Digest) -> Digest
        ensures value { result ≡ digest_like like.now self.now }
        ensures most { result.size ≤ MOST_BYTES }
    {
        Digest {
            hash: self.hash_by(like.function()),
            size: self.draft.length(),
        }
    }

    /// The draft, to which nothing is added.
    pub fn into_draft(self) -> Draft
        ensures { result.text ≡ self }
    {
        let Content { draft, hash: _ } = self;
        draft
    }
}
