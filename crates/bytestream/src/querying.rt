//! `QueryWriteStatus`: how many bytes of an upload are there.

ghost use Rattle.std.specs.Prelude.{◌≡◌, ◌<◌, IfOk};
ghost use Rattle.reapi_messages.specs.Results.{Gives};
ghost use Rattle.reapi_messages.specs.ByteStream.{query_write_status_response_shown};
ghost use Rattle.blob_pool.specs.Slots.{Slots};
ghost use Rattle.instance_view.specs.Shown.{visible_in};
ghost use Rattle.cas_service.specs.Answers.{Answers};
ghost use Rattle.uploads.specs.Shown.{key_shown};
ghost use Rattle.resource_names.specs.Size.{size_limit};
ghost use Rattle.bytestream.specs.Querying as querying;
ghost use Rattle.bytestream.specs.Querying.{status_of, query_reply};

use crate::names::write_name;
use cas_service::{CallError, check_instance};
use instance_view::View;
use reapi_messages::{Decode, Message, QueryWriteStatusRequest, QueryWriteStatusResponse};
use rpc::Refusal;
use std::alloc::Global;
use uploads::{UploadKey, Uploads};

/// The upload that a request asks for.
#[tactic(auto, unfolding(crate::specs::Querying::query_asked))]
fn query_asked(alloc: Global, own: &str, message: &[u8]) -> Result<UploadKey, CallError>
    ensures key { Answers key_shown result (querying.query_asked own.now message.now) }
    ensures most { IfOk result (λ key. (key_shown key).digest.size < size_limit) }
{
    let request = QueryWriteStatusRequest::decode(alloc, message)?;
    let name = write_name(request.resource_name)?;
    check_instance(own, name.instance)?;
    Ok(UploadKey::new(name.uuid, name.digest))
}

/// How much of an upload is there.
fn status(
    view: &View,
    uploads: &Uploads,
    key: &UploadKey,
) -> Result<QueryWriteStatusResponse, Refusal>
    requires { (key_shown key.now).digest.size < size_limit }
    ensures { (p : Slots) → Gives query_write_status_response_shown result
        (status_of (key_shown key.now) (visible_in p view.now) uploads.now) }
{
    let digest = key.digest();
    if view.contains(&digest) {
        return Ok(QueryWriteStatusResponse {
            committed_size: digest.size as i64,
            complete: true,
        });
    }
    match uploads.committed(key) {
        Some(committed) => Ok(QueryWriteStatusResponse {
            committed_size: committed as i64,
            complete: false,
        }),
        None => Err(Refusal::UploadNotFound),
    }
}

/// Answers `QueryWriteStatus`: how many bytes of an upload are there, and whether its blob is
/// complete, as one that the instance `own` has is. It is no use of the blob, and changes nothing.
pub fn query(
    alloc: Global,
    own: &str,
    view: &View,
    uploads: &Uploads,
    message: &[u8],
) -> Result<Vec<u8>, CallError>
    ensures { (p : Slots) → Answers (λ reply. reply.items) result
        (query_reply own.now (visible_in p view.now) uploads.now message.now) }
{
    let key = query_asked(alloc, own, message)?;
    let status = status(view, uploads, &key)?;
    Ok(status.encode(alloc)?)
}
