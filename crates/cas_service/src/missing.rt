//! `FindMissingBlobs`: which of the blobs asked for are not there.

ghost use Rattle.std.specs.Prelude.{◌≡◌, ◌+◌, ◌≤◌, ◌++◌, ℕ, List, [], map, length, is_some, OnOk, OnErr, IfOk};
ghost use Rattle.std.specs.List.{filter};
ghost use Rattle.reapi_messages.specs.Digests.{digest_shown};
ghost use Rattle.blob_pool.specs.Slots.{Slots};
ghost use Rattle.instance_view.specs.Visible.{visible_text};
ghost use Rattle.instance_view.specs.Shown.{visible_in, holders};
ghost use Rattle.instance_view.specs.Sight.{seen_in};
ghost use Rattle.quota_evict.specs.InPool.{IsViewInPool};
ghost use Rattle.cas_service.specs.Answers.{Answers};
ghost use Rattle.cas_service.specs.Changes.{visible_after_changes};
ghost use Rattle.cas_service.specs.Requests.{digest_value};
ghost use Rattle.cas_service.specs.FindMissing.{digests_asked, missing_digests, missing_reply, find_missing_reply, find_missing_changes, count_asked};
ghost use Rattle.cas_service.specs.Shown.{asked_digest, digest_as_sent, is_unseen};

use crate::error::CallError;
use crate::requests::{Asked, read_asked, use_all};
use digest::Digest;
use instance_view::{CountedSight, View, Work};
use protobuf_wire::put_embedded;
use reapi_messages::Writer;
use std::alloc::{AllocError, Global};

/// What a request asks for.
#[tactic(auto, using(crate::proofs::Requested::asked_is))]
fn read_request<'a>(
    alloc: Global,
    own: &str,
    message: &'a [u8],
) -> Result<Vec<Asked<'a>>, CallError>
    ensures named { Answers (λ asked. map asked_digest asked.items) result
        (digests_asked own.now message.now) }
    ensures written { IfOk result (λ asked. map digest_as_sent asked.items
        ≡ map digest_value (map asked_digest asked.items)) }
{
    read_asked(alloc, own, message, 3)
}

/// Whether there is a text of the digest. This is one look.
fn is_there(sight: &CountedSight<'_>, work: &mut Work, digest: &Digest) -> bool
    ensures there { result ≡ is_some (visible_text digest.now (seen_in [] sight.now)) }
    ensures looks { work.new.looks ≤ work.old.looks + 1 }
    ensures bytes { work.new.bytes ≡ work.old.bytes }
{
    sight.contains(work, digest)
}

/// The message that lists the digests that are not there, in order. What is there is told by the
/// digests alone, so any pool serves to say so. Each digest is looked for once.
fn reply_to(
    alloc: Global,
    sight: &CountedSight<'_>,
    work: &mut Work,
    asked: &[Asked<'_>],
) -> Result<Vec<u8>, AllocError>
    requires written { map digest_as_sent asked.now
        ≡ map digest_value (map asked_digest asked.now) }
    ensures reply { IfOk result (λ reply. reply.items
        ≡ missing_reply (missing_digests (seen_in [] sight.now) (map asked_digest asked.now))) }
    ensures looks { work.new.looks ≤ work.old.looks + length asked.now }
    ensures bytes { work.new.bytes ≡ work.old.bytes }
{
    let mut reply = Writer::new(alloc);
    let mut left = asked;
    'digests: while let [first, rest @ ..] = left {
        if !is_there(sight, work, &first.digest) {
            put_embedded(&mut reply, 2, &Some(first.sent))?;
        }
        left = rest;
    }
    Ok(reply.into_vec())
}

/// Answers `FindMissingBlobs`: the digests of the request that the instance `own` has not, in order
/// and with repeats. Each digest that is asked for is looked for once, and then used, in order. A
/// refused call changes nothing.
pub fn find_missing(
    alloc: Global,
    own: &str,
    view: &mut View,
    parent: &View,
    message: &[u8],
    work: &mut Work,
) -> Result<Vec<u8>, CallError>
    ensures reply { (p : Slots) → Answers (λ reply. reply.items) result
        (find_missing_reply own.now (visible_in p view.old ++ visible_in p parent.now)
        message.now) }
    ensures used { (p : Slots) (quota : ℕ) →
        OnOk result (visible_in p view.new
        ≡ visible_after_changes view.old.limit quota (find_missing_changes own.now message.now)
        (visible_in p view.old)) }
    ensures err { OnErr result (view.new ≡ view.old) }
    ensures holders { (k : ℕ) → holders view.new k ≡ holders view.old k }
    ensures kept { (p : Slots) (quota : ℕ) → IsViewInPool quota p view.old →
        IsViewInPool quota p view.new }
    ensures limit { view.new.limit ≡ view.old.limit }
    ensures looks { work.new.looks ≤ work.old.looks + count_asked own.now message.now }
    ensures bytes { work.new.bytes ≡ work.old.bytes }
{
    let asked = read_request(alloc, own, message)?;
    let reply = reply_to(alloc, &CountedSight::new(view, parent), work, &asked)?;
    use_all(view, &asked);
    Ok(reply)
}
