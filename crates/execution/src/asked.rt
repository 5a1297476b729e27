//! What calls of Execute ask for.

ghost use Rattle.std.specs.Prelude.{◌<◌, ◌^◌};

use digest::Digest;

/// What a call of Execute asks for.
#[derive(Clone, Copy, Debug, PartialEq, Eq)]
pub struct Asked {
    /// The digest of the action, whose size messages can say.
    pub action: Digest,
    /// Whether a stored result is no answer.
    pub skips_lookup: bool,
    ghost size: { action.size < 2 ^ 63 },
}
