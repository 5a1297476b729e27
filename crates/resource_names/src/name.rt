//! What a resource name says, and why a text is none.

use digest::Digest;

/// Why a text is no resource name.
#[derive(Clone, Copy, PartialEq, Eq, Debug)]
pub enum NameError {
    /// The segments are not those of such a name, or the instance or the uuid is not one.
    Form,
    /// The hash is neither 64 nor 128 lower-case hexadecimal digits.
    Hash,
    /// The size is no decimal number without leading zeros, or is above 2^63 - 1.
    Size,
    /// It names compressed bytes.
    Compressed,
}

/// What a `Read` names: `{instance}/blobs/{hash}/{size}`.
#[derive(Clone, Copy, Debug)]
pub struct ReadName<'a> {
    /// The instance's name, empty where the name has none.
    pub instance: &'a str,
    pub digest: Digest,
}

/// What a `Write` names: `{instance}/uploads/{uuid}/blobs/{hash}/{size}`, and perhaps further
/// segments.
#[derive(Clone, Copy, Debug)]
pub struct WriteName<'a> {
    /// The instance's name, empty where the name has none.
    pub instance: &'a str,
    /// What tells this upload from others of the same blob, in 1 to [`crate::MOST_UUID`] bytes.
    pub uuid: &'a str,
    pub digest: Digest,
}
