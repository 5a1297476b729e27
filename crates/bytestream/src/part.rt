//! A message's piece of an upload.

ghost use Rattle.std.specs.Prelude.{◌≡◌, ◌≤◌, ◌^◌, IsSome};
ghost use Rattle.blob_pool.specs.Moves.{Moves};
ghost use Rattle.instance_view.specs.Shown.{visible_in, holders};
ghost use Rattle.cas_service.specs.InPool.{IsViewInPool};
ghost use Rattle.cas_service.specs.Answers.{Answers, IfAnswered, IfNoMemory};
ghost use Rattle.uploads.specs.Uploads.{AreUploadsWithin, upload_at};
ghost use Rattle.bytestream.specs.UploadErrors.{upload_error};
ghost use Rattle.bytestream.specs.Writing.{write_state_with, end_answer, part_answer, after_end, after_part, IsOldOrTaken};
ghost use Rattle.bytestream.specs.Shown.{part_shown};
ghost use Rattle.cas_service.specs.Within.{most_stored_bytes};

use blob_pool::Pool;
use cas_service::CallError;
use instance_view::View;
use rpc::Refusal;
use std::alloc::Global;
use uploads::{Piece, UploadError, UploadKey, Uploads};

/// A message's piece of an upload, and whether it is the last (bytestream.proto, `finish_write`).
#[derive(Clone, Copy, Debug)]
pub struct Part<'a> {
    pub key: &'a UploadKey,
    pub piece: Piece<'a>,
    pub is_last: bool,
}

/// The terms on which a message of a `Write` is taken.
#[derive(Clone, Copy, Debug)]
pub struct Terms {
    /// How many bytes the instance stores at most.
    pub quota: u64,
    /// When the message came, in milliseconds.
    pub moment: u64,
}

fn call_error(error: UploadError) -> CallError
    ensures { result ≡ upload_error error }
{
    match error {
        UploadError::Offset => CallError::Refused(Refusal::WrongOffset),
        UploadError::Size | UploadError::Hash => CallError::Refused(Refusal::DigestDoesNotMatch),
        UploadError::TooMany => CallError::Refused(Refusal::TooManyUploads),
        UploadError::OverQuota => CallError::Refused(Refusal::QuotaExceeded),
        UploadError::NoMemory => CallError::NoMemory,
    }
}

/// Ends an upload whose piece was taken, where that was its last, and says whether it was.
fn finish_last(
    alloc: Global,
    quota: u64,
    view: &mut View,
    pool: &mut Pool,
    uploads: &mut Uploads,
    part: &Part<'_>,
) -> Result<bool, CallError>
    requires quota { quota ≤ most_stored_bytes }
    requires kept { IsViewInPool quota pool.old view.old }
    requires within { AreUploadsWithin quota uploads.old }
    requires there { IsSome (upload_at (part_shown part.now).key uploads.old) }
    ensures answer { Answers (λ complete. complete) result
        (end_answer (part_shown part.now) uploads.old) }
    ensures visible { IfAnswered result (visible_in pool.new view.new
        ≡ (after_end view.old.limit quota (part_shown part.now)
        (write_state_with (visible_in pool.old view.old) uploads.old)).visible) }
    ensures uploads { IfAnswered result (uploads.new
        ≡ (after_end view.old.limit quota (part_shown part.now)
        (write_state_with (visible_in pool.old view.old) uploads.old)).uploads) }
    ensures memory { IfNoMemory result ((view.new ≡ view.old) × (pool.new ≡ pool.old)
        × (uploads.new ≡ uploads.old)) }
    ensures within { AreUploadsWithin quota uploads.new }
    ensures moves { Moves pool.old pool.new (holders view.old) (holders view.new) }
    ensures kept { IsViewInPool quota pool.new view.new }
    ensures limit { view.new.limit ≡ view.old.limit }
{
    if !part.is_last {
        return Ok(false);
    }
    match uploads.finish(alloc, quota, view, pool, part.key) {
        Ok(()) => Ok(true),
        Err(error) => Err(call_error(error)),
    }
}

/// Takes the part of a call's first message or of a later one, and says whether it completes the
/// upload.
pub(crate) fn take_part(
    alloc: Global,
    terms: Terms,
    first: bool,
    view: &mut View,
    pool: &mut Pool,
    uploads: &mut Uploads,
    part: &Part<'_>,
) -> Result<bool, CallError>
    requires quota { terms.quota ≤ most_stored_bytes }
    requires kept { IsViewInPool terms.quota pool.old view.old }
    requires within { AreUploadsWithin terms.quota uploads.old }
    ensures answer { Answers (λ complete. complete) result
        (part_answer first terms.quota terms.moment (part_shown part.now) uploads.old) }
    ensures visible { IfAnswered result (visible_in pool.new view.new
        ≡ (after_part first view.old.limit terms.quota terms.moment (part_shown part.now)
        (write_state_with (visible_in pool.old view.old) uploads.old)).visible) }
    ensures uploads { IfAnswered result (uploads.new
        ≡ (after_part first view.old.limit terms.quota terms.moment (part_shown part.now)
        (write_state_with (visible_in pool.old view.old) uploads.old)).uploads) }
    ensures memory { IfNoMemory result ((view.new ≡ view.old) × (pool.new ≡ pool.old)
        × IsOldOrTaken first terms.quota terms.moment (part_shown part.now)
        uploads.old uploads.new) }
    ensures within { AreUploadsWithin terms.quota uploads.new }
    ensures moves { Moves pool.old pool.new (holders view.old) (holders view.new) }
    ensures kept { IsViewInPool terms.quota pool.new view.new }
    ensures limit { view.new.limit ≡ view.old.limit }
{
    match uploads.take_piece(
        alloc,
        terms.quota,
        terms.moment,
        first,
        part.key,
        &part.piece,
    ) {
        Ok(()) => finish_last(alloc, terms.quota, view, pool, uploads, part),
        Err(error) => Err(call_error(error)),
    }
}
