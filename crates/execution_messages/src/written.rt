//! Digests as messages write them.

ghost use Rattle.std.specs.Prelude.{◌≡◌, ◌<◌, ◌^◌, IfOk};
ghost use Rattle.reapi_messages.specs.Digests.{digest_shown};
ghost use Rattle.execution_messages.specs.Written.{digest_value, written_shown};

use digest::Digest;
use reapi_messages as messages;
use std::alloc::{AllocError, Global};

/// A digest as messages write it.
#[derive(Drop, Debug)]
pub struct WrittenDigest {
    hash: String,
    size: i64,
}

impl WrittenDigest {
    /// For a message.
    pub fn message(&self) -> messages::Digest<'_>
        ensures { digest_shown result ≡ written_shown self.now }
    {
        messages::Digest {
            hash: &self.hash,
            size_bytes: self.size,
        }
    }

    /// The hash's digits.
    pub fn hash(&self) -> &str
        ensures { result.now ≡ (written_shown self.now).hash }
    {
        &self.hash
    }

    /// The size in bytes.
    pub fn size(&self) -> i64
        ensures { result ≡ (written_shown self.now).size_bytes }
    {
        self.size
    }
}

/// Writes a digest, whose size is one that messages can say.
pub fn write_digest(alloc: Global, digest: &Digest) -> Result<WrittenDigest, AllocError>
    requires { digest.now.size < 2 ^ 63 }
    ensures { IfOk result (λ written. written_shown written ≡ digest_value digest.now) }
{
    let hash = hex::encode(alloc, digest.hash.as_bytes())?;
    Ok(WrittenDigest {
        hash,
        size: digest.size as i64,
    })
}
