//! Why an upload is refused.

ghost use Rattle.std.specs.Prelude.{◌≡◌};
ghost use Rattle.uploads.specs.Errors.{of_admit};

use quota_evict::AdmitError;

/// Why a piece of an upload, or its end, is refused.
#[derive(Clone, Copy, PartialEq, Eq, Debug)]
pub enum UploadError {
    /// The piece does not begin where the text so far ends, or its upload is gone.
    Offset,
    /// The piece goes past the size that the digest names.
    Size,
    /// The digest does not name the text.
    Hash,
    /// There are [`crate::MOST_UPLOADS`] uploads.
    TooMany,
    /// The upload is larger than the quota, or all uploads would be together.
    OverQuota,
    /// A request for memory was refused.
    NoMemory,
}

impl From<AdmitError> for UploadError {
    ghost from_gives = { λ fault error. error ≡ of_admit fault };

    fn from(fault: AdmitError) -> UploadError {
        match fault {
            AdmitError::TooLarge => UploadError::OverQuota,
            AdmitError::NoMemory => UploadError::NoMemory,
        }
    }
}
