//! `BatchReadBlobs`: the texts of the blobs asked for, in one reply.

ghost use Rattle.std.specs.Prelude.{◌≡◌, ◌≤◌, ◌<◌, ◌+◌, ◌++◌, ℕ, List, map, option_map, OnOk, OnErr, IfOk, IfSome};
ghost use Rattle.std.specs.List.{flat_map};
ghost use Rattle.reapi_messages.specs.Batches.{read_blob_response_shown};
ghost use Rattle.reapi_messages.specs.Pieces.{pieces_text};
ghost use Rattle.instance_view.specs.Visible.{visible_text};
ghost use Rattle.blob_pool.specs.Slots.{Slots, text_at};
ghost use Rattle.instance_view.specs.Shown.{visible_in, holders, text_seen};
ghost use Rattle.instance_view.specs.Sight.{seen_in};
ghost use Rattle.quota_evict.specs.InPool.{IsViewInPool};
ghost use Rattle.cas_service.specs.Answers.{Answers};
ghost use Rattle.cas_service.specs.Changes.{visible_after_changes};
ghost use Rattle.cas_service.specs.Requests.{digest_value, batch_size_check};
ghost use Rattle.cas_service.specs.BatchRead.{digests_to_read, stated_size, read_response, read_reply, batch_read_reply, batch_read_changes};
ghost use Rattle.cas_service.specs.Shown.{asked_digest, digest_as_sent, read_response_for};

use crate::error::CallError;
use crate::requests::{Asked, MOST_BATCH_BYTES, read_asked, use_all};
use crate::statuses::{ok_status, refused_status};
use blob_pool::{Kept, PAGE_BYTES, Pool};
use digest::Digest;
use instance_view::{Seen, Sight, View};
use reapi_messages::{BatchReadBlobsResponse, Message, Pieces, ReadBlobResponse};
use rpc::Refusal;
use std::alloc::{AllocError, Global};

/// The sizes that the digests state have to be at most 4,000,000 together.
fn check_stated_size(asked: &[Asked<'_>]) -> Result<(), Refusal>
    ensures { result ≡ batch_size_check (stated_size (map asked_digest asked.now)) }
{
    let mut room = MOST_BATCH_BYTES;
    let mut left = asked;
    'digests: while let [first, rest @ ..] = left {
        if first.digest.size > room {
            return Err(Refusal::BatchTooLarge);
        }
        room -= first.digest.size;
        left = rest;
    }
    Ok(())
}

/// What a request asks for.
#[tactic(auto, using(crate::proofs::Requested::to_read_is))]
fn read_request<'a>(
    alloc: Global,
    own: &str,
    message: &'a [u8],
) -> Result<Vec<Asked<'a>>, CallError>
    ensures named { Answers (λ asked. map asked_digest asked.items) result
        (digests_to_read own.now message.now) }
    ensures written { IfOk result (λ asked. map digest_as_sent asked.items
        ≡ map digest_value (map asked_digest asked.items)) }
{
    let asked = read_asked(alloc, own, message, 4)?;
    check_stated_size(&asked)?;
    Ok(asked)
}

/// Where a text lies, if it is in one page.
fn page_of(pool: &Pool, kept: Kept) -> Option<&[u8]>
    ensures { IfSome result (λ page. page.now ≡ text_at pool.now kept) }
{
    let length = pool.length(kept);
    let page = pool.part(kept, 0, u32::MAX);
    if page.len() as u64 == length {
        Some(page)
    } else {
        None
    }
}

/// The pages of a text, in order.
fn pages_of<'a>(alloc: Global, pool: &'a Pool, kept: Kept) -> Result<Vec<&'a [u8]>, AllocError>
    ensures { IfOk result (λ pages. flat_map (λ p. p.now) pages.items ≡ text_at pool.now kept) }
{
    let length = pool.length(kept);
    let mut pages = Vec::with_capacity(alloc, (length / PAGE_BYTES as u64) as usize + 1)?;
    let mut from = 0;
    'pages: while from < length {
        let page = pool.part(kept, from, u32::MAX);
        pages.push(page)?;
        from += page.len() as u64;
    }
    Ok(pages)
}

/// Where a text lies. No byte of it is copied.
fn pieces_of<'a>(alloc: Global, pool: &'a Pool, seen: Seen) -> Result<Pieces<'a>, AllocError>
    ensures { IfOk result (λ pieces. pieces_text pieces ≡ text_seen pool.now seen) }
{
    let Seen::Text(kept) = seen else {
        return Ok(Pieces::One(&[]));
    };
    if let Some(page) = page_of(pool, kept) {
        return Ok(Pieces::One(page));
    }
    Ok(Pieces::Several(pages_of(alloc, pool, kept)?))
}

/// Where the text of a digest lies, if there is one.
fn find<'a>(
    alloc: Global,
    sight: &Sight<'_>,
    pool: &'a Pool,
    digest: &Digest,
) -> Result<Option<Pieces<'a>>, AllocError>
    ensures { IfOk result (λ found. option_map pieces_text found
        ≡ visible_text digest.now (seen_in pool.now sight.now)) }
{
    match sight.get(digest) {
        Some(seen) => Ok(Some(pieces_of(alloc, pool, seen)?)),
        None => Ok(None),
    }
}

/// The response that gives a text, or says that there is none.
fn response_with<'a>(
    alloc: Global,
    asked: &Asked<'a>,
    found: Option<Pieces<'a>>,
) -> ReadBlobResponse<'a>
    requires { digest_as_sent asked.now ≡ digest_value asked.now.digest }
    ensures { read_blob_response_shown result
        ≡ read_response asked.now.digest (option_map pieces_text found.entry) }
{
    match found {
        Some(content) => ReadBlobResponse {
            digest: Some(asked.sent),
            content,
            status: Some(ok_status(alloc)),
        },
        None => ReadBlobResponse {
            digest: Some(asked.sent),
            content: Pieces::One(&[]),
            status: Some(refused_status(alloc, Refusal::BlobNotFound)),
        },
    }
}

/// The response to a digest.
fn response_to<'a>(
    alloc: Global,
    sight: &Sight<'_>,
    pool: &'a Pool,
    asked: &Asked<'a>,
) -> Result<ReadBlobResponse<'a>, AllocError>
    requires { digest_as_sent asked.now ≡ digest_value asked.now.digest }
    ensures { IfOk result (λ response. read_blob_response_shown response
        ≡ read_response_for (seen_in pool.now sight.now) asked.now.digest) }
{
    let found = find(alloc, sight, pool, &asked.digest)?;
    Ok(response_with(alloc, asked, found))
}

/// A response to each digest, in order.
fn responses_to<'a>(
    alloc: Global,
    sight: &Sight<'_>,
    pool: &'a Pool,
    asked: &[Asked<'a>],
) -> Result<Vec<ReadBlobResponse<'a>>, AllocError>
    requires written { map digest_as_sent asked.now
        ≡ map digest_value (map asked_digest asked.now) }
    ensures { IfOk result (λ responses. map read_blob_response_shown responses.items
        ≡ map (read_response_for (seen_in pool.now sight.now)) (map asked_digest asked.now)) }
{
    let mut responses = Vec::with_capacity(alloc, asked.len())?;
    let mut left = asked;
    'digests: while let [first, rest @ ..] = left {
        let response = response_to(alloc, sight, pool, first)?;
        responses.push(response)?;
        left = rest;
    }
    Ok(responses)
}

/// The message that gives each text.
fn reply_to<'a>(
    alloc: Global,
    sight: &Sight<'_>,
    pool: &'a Pool,
    asked: &[Asked<'a>],
) -> Result<Vec<u8>, AllocError>
    requires written { map digest_as_sent asked.now
        ≡ map digest_value (map asked_digest asked.now) }
    ensures { IfOk result (λ reply. reply.items
        ≡ read_reply (seen_in pool.now sight.now) (map asked_digest asked.now)) }
{
    let responses = responses_to(alloc, sight, pool, asked)?;
    let response = BatchReadBlobsResponse { responses };
    response.encode(alloc)
}

/// Answers `BatchReadBlobs`: the text of each digest of the request, or `NOT_FOUND` for one that
/// the instance `own` has not, in order and with repeats. Each digest is then used, in order. A
/// refused call changes nothing.
pub fn batch_read(
    alloc: Global,
    own: &str,
    view: &mut View,
    parent: &View,
    pool: &Pool,
    message: &[u8],
) -> Result<Vec<u8>, CallError>
    ensures reply { Answers (λ reply. reply.items) result
        (batch_read_reply own.now (visible_in pool.now view.old ++ visible_in pool.now parent.now)
        message.now) }
    ensures used { (p : Slots) (quota : ℕ) →
        OnOk result (visible_in p view.new
        ≡ visible_after_changes view.old.limit quota (batch_read_changes own.now message.now)
        (visible_in p view.old)) }
    ensures err { OnErr result (view.new ≡ view.old) }
    ensures holders { (k : ℕ) → holders view.new k ≡ holders view.old k }
    ensures kept { (p : Slots) (quota : ℕ) → IsViewInPool quota p view.old →
        IsViewInPool quota p view.new }
    ensures limit { view.new.limit ≡ view.old.limit }
{
    let asked = read_request(alloc, own, message)?;
    let reply = reply_to(alloc, &Sight::new(view, parent), pool, &asked)?;
    use_all(view, &asked);
    Ok(reply)
}
