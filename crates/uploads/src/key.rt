//! What names an upload.

ghost use Rattle.std.specs.Prelude.{◌≡◌, ◌≤◌, length};
ghost use Rattle.resource_names.specs.declared.parse.TheConstants.{MOST_UUID};
ghost use Rattle.uploads.specs.Shown.{key_shown};

use arrayvec::ArrayString;
use digest::Digest;
use resource_names::MOST_UUID;

/// What names an upload.
#[derive(Clone, Copy, Debug, PartialEq, Eq, Hash)]
pub struct UploadKey {
    uuid: ArrayString<MOST_UUID>,
    digest: Digest,
}

impl UploadKey {
    /// The upload of a uuid, of at most [`MOST_UUID`] bytes, that is to have this digest.
    pub fn new(uuid: &str, digest: Digest) -> UploadKey
        requires { length uuid.now ≤ MOST_UUID }
        ensures { key_shown result ≡ record { uuid = uuid.now; digest = digest } }
    {
        let uuid = ArrayString::from(uuid).unwrap();
        UploadKey { uuid, digest }
    }

    /// The digest that is to name the text.
    pub fn digest(&self) -> Digest
        ensures { result ≡ (key_shown self.now).digest }
    {
        self.digest
    }
}
