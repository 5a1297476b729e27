//! Texts that are hashed as they come, before they stand in a pool.

ghost use Rattle.std.specs.Prelude.{◌≡◌, ◌+◌, ◌≤◌, ◌++◌, ◌↔◌, [], ℕ, List, length, true, false, IsTrue, OnOk, OnErr, IfOk};
ghost use Rattle.digest.specs.Naming.{Names, digest_by, digest_of};
ghost use Rattle.blob_pool.specs.declared.text.TheConstants.{MOST_BYTES};

use crate::hashing::{Digests, Progress, digest_pages, end, update};
use crate::text::PagedText;
use digest::{Digest, HashFunction, is_same};
use std::alloc::{AllocError, Global};
use std::marker::Model;

/// A text that is hashed as it comes, and is not in a pool yet.
pub struct Draft {
    text: PagedText,
    progress: Progress,
}

// Written out, so that no crate above proves again that each part of it may be dropped.
impl Drop for Draft {
    fn drop(self) {
        let Draft { text, progress } = self;
        drop(text);
        drop(progress);
    }
}

impl Model for Draft {
    ghost use Rattle.std.specs.Prelude.{◌≤◌, length};
    ghost use Rattle.blob_pool.specs.Drafts.{DraftValue, Hashes, is_going};
    ghost use Rattle.blob_pool.specs.declared.text.TheConstants.{MOST_BYTES};

    ghost Value = { DraftValue };

    ghost view = { λ d. record { text = d.text; is_open = is_going d.progress } };

    ghost invariant = { λ d. Hashes d.progress d.text × (length d.text ≤ MOST_BYTES) };
}

impl Draft {
    /// No bytes yet of a text that is meant to be named by a function: it is hashed by SHA-256 as
    /// it comes, and by SHA-512 where that is the function. It takes no memory.
    pub fn new(alloc: Global, function: HashFunction) -> Draft
        ensures text { result.text ≡ [] }
        ensures open { result.is_open ≡ true }
    {
        Draft {
            text: PagedText::new(alloc),
            progress: Progress::new(function),
        }
    }

    /// Bytes that a digest is known to name. Under one by SHA-256 they are not hashed again.
    pub fn of(alloc: Global, digest: &Digest, bytes: &[u8]) -> Result<Draft, AllocError>
        requires named { Names digest.now bytes.now }
        requires most { length bytes.now ≤ MOST_BYTES }
        ensures { IfOk result (λ draft. draft.text ≡ bytes.now) }
    {
        let mut text = PagedText::new(alloc);
        text.push(bytes)?;
        Ok(Draft {
            text,
            progress: Progress::Ended(Digests::of(digest, bytes)),
        })
    }

    /// Adds bytes to the end, before the text is named.
    pub fn push(&mut self, bytes: &[u8]) -> Result<(), AllocError>
        requires open { self.old.is_open ≡ true }
        requires most { length self.old.text + length bytes.now ≤ MOST_BYTES }
        ensures ok { OnOk result (self.new
            ≡ record self.old { text = self.old.text ++ bytes.now }) }
        ensures err { OnErr result (self.new ≡ self.old) }
    {
        self.text.push(bytes)?;
        update(&mut self.progress, bytes);
        Ok(())
    }

    /// How many bytes there are. It takes no memory.
    pub fn length(&self) -> u64
        ensures length { result ≡ length self.now.text }
        ensures most { result ≤ MOST_BYTES }
    {
        self.text.len()
    }

    /// Whether the digest names the text, to which nothing is then added. It takes no memory.
    pub fn names(&mut self, digest: &Digest) -> bool
        ensures named { IsTrue result ↔ Names digest.now self.old.text }
        ensures ended { self.new ≡ record self.old { is_open = false } }
    {
        let own = self.digest_by(digest.function());
        is_same(digest, &own)
    }

    /// The digest of the text by a function; nothing is then added to the text. By SHA-512 the text
    /// is hashed anew where it was not meant to be named so. It takes no memory.
    pub fn digest_by(&mut self, function: HashFunction) -> Digest
        ensures digest { result ≡ digest_by function self.old.text }
        ensures ended { self.new ≡ record self.old { is_open = false } }
    {
        let digests = end(&mut self.progress);
        match function {
            HashFunction::Sha256 => digests.sha256,
            HashFunction::Sha512 => match digests.sha512 {
                Some(sha512) => sha512,
                None => digest_pages(&self.text, HashFunction::Sha512),
            },
        }
    }

    /// The function that the text was meant to be named by.
    pub fn function(&self) -> HashFunction {
        self.progress.function()
    }

    /// The digest of the text by a function, hashed anew over its pages. It takes no memory.
    pub fn digest_again(&self, function: HashFunction) -> Digest
        ensures { result ≡ digest_by function self.now.text }
    {
        digest_pages(&self.text, function)
    }

    /// The text and its digest by SHA-256.
    pub(crate) fn open(self) -> (PagedText, Digest)
        ensures text { result.0 ≡ self.text }
        ensures digest { result.1 ≡ digest_of self.text }
        ensures most { length self.text ≤ MOST_BYTES }
    {
        let Draft { text, mut progress } = self;
        let digests = end(&mut progress);
        (text, digests.sha256)
    }

    /// A text with its digest by SHA-256.
    pub(crate) fn close(text: PagedText, digest: Digest) -> Draft
        requires digest { digest ≡ digest_of text }
        requires most { length text ≤ MOST_BYTES }
        ensures { result.text ≡ text }
    {
        let digests = Digests {
            sha256: digest,
            sha512: None,
        };
        Draft {
            text,
            progress: Progress::Ended(digests),
        }
    }
}
