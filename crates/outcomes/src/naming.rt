//! Digests of the texts that a run gave, as messages write them.

ghost use Rattle.std.specs.Prelude.{◌≡◌, IfOk};
ghost use Rattle.execution_messages.specs.Written.{written_shown};
ghost use Rattle.outcomes.specs.Naming.{digest_like, written_like};

use digest::Digest;
use execution_messages::{WrittenDigest, write_digest};
use run_calls::Content;
use std::alloc::{AllocError, Global};

/// The digest of a text, by the function of another digest.
pub(crate) fn digest_like(like: &Digest, text: &[u8]) -> Digest
    ensures { result ≡ digest_like like.now text.now }
{
    Digest::by(like.function(), text)
}

/// The digest of a text.
pub(crate) fn write_text(
    alloc: Global,
    like: &Digest,
    text: &[u8],
) -> Result<WrittenDigest, AllocError>
    ensures { IfOk result (λ written. written_shown written ≡ written_like like.now text.now) }
{
    let digest = digest_like(like, text);
    write_digest(alloc, &digest)
}

/// The digest of a text that was hashed.
pub(crate) fn write_content(
    alloc: Global,
    like: &Digest,
    content: &Content,
) -> Result<WrittenDigest, AllocError>
    ensures { IfOk result (λ written. written_shown written ≡ written_like like.now content.now) }
{
    let digest = content.digest_like(like);
    write_digest(alloc, &digest)
}
