//! The tests that requests begin with.

ghost use Rattle.std.specs.Prelude.{◌≡◌, ◌<◌, ◌^◌, ℕ, List, map, option_map, OnOk, OnErr, IfOk};
ghost use Rattle.reapi_messages.specs.Digests.{DigestValue, digest_shown};
ghost use Rattle.blob_pool.specs.Slots.{Slots};
ghost use Rattle.instance_view.specs.Shown.{visible_in, holders};
ghost use Rattle.quota_evict.specs.InPool.{IsViewInPool};
ghost use Rattle.cas_service.specs.Answers.{Answers};
ghost use Rattle.cas_service.specs.Changes.{Use, visible_after_changes};
ghost use Rattle.cas_service.specs.Requests.{instance_check, function_asked, is_hash_asked, digest_sent, digest_or_refusal, digest_value};
ghost use Rattle.cas_service.specs.Entries.{digests_in, asked_in};
ghost use Rattle.cas_service.specs.Shown.{asked_digest, digest_as_sent};

use crate::entries::{admit_head, next_entry, read_head, refused_before};
use crate::error::CallError;
use digest::{Digest, HashFunction};
use instance_view::View;
use protobuf_wire::Reader;
use reapi_messages as messages;
use rpc::Refusal;
use std::alloc::{AllocError, Global};

/// How many bytes the blobs of a batch have at most together.
pub const MOST_BATCH_BYTES: u64 = 4_000_000;

/// A digest that a request asks for, as it was sent and as it was read.
#[derive(Clone, Copy, Debug)]
pub struct Asked<'a> {
    pub sent: messages::Digest<'a>,
    pub digest: Digest,
}

/// An instance name has to be empty or the own one.
pub fn check_instance(own: &str, name: &str) -> Result<(), Refusal>
    ensures { result ≡ instance_check own.now name.now }
{
    if name.is_empty() || name == own {
        Ok(())
    } else {
        Err(Refusal::UnknownInstance)
    }
}

/// The hash function that a call names by a `DigestFunction.Value`: SHA-256 (1), SHA-512 (6), or
/// none (0), so that each of its digests goes by its own length. Others are not supported.
pub fn asked_function(digest_function: i32) -> Result<Option<HashFunction>, Refusal>
    ensures { result ≡ function_asked digest_function }
{
    match digest_function {
        0 => Ok(None),
        1 => Ok(Some(HashFunction::Sha256)),
        6 => Ok(Some(HashFunction::Sha512)),
        _ => Err(Refusal::UnsupportedDigestFunction),
    }
}

/// Whether a digest is by the function that a call names.
fn is_asked(function: Option<HashFunction>, digest: &Digest) -> bool
    ensures { result ≡ is_hash_asked function digest.now.hash }
{
    match function {
        Some(function) => digest.function() == function,
        None => true,
    }
}

/// The digest that a call sends.
fn read_sent(function: Option<HashFunction>, sent: &messages::Digest<'_>) -> Result<Digest, Refusal>
    ensures value { result ≡ digest_sent function (digest_shown sent.now) }
    ensures size { IfOk result (λ digest. digest.size < 2 ^ 63) }
    ensures written { IfOk result (λ digest. digest_shown sent.now ≡ digest_value digest) }
{
    match Digest::parse(sent.hash, sent.size_bytes) {
        Some(digest) if is_asked(function, &digest) => Ok(digest),
        _ => Err(Refusal::BadDigest),
    }
}

/// The digest that a call has to send, by the hash function that it names.
pub fn read_digest(
    function: Option<HashFunction>,
    sent: &Option<messages::Digest<'_>>,
) -> Result<Digest, Refusal>
    ensures value { result ≡ digest_or_refusal function (option_map digest_shown sent.now) }
    ensures size { IfOk result (λ digest. digest.size < 2 ^ 63) }
{
    match sent {
        Some(sent) => read_sent(function, sent),
        None => Err(Refusal::BadDigest),
    }
}

/// The digests that a message asks for, or the refusal of the first that has not the form or is by
/// another hash function than the call names. That is answered where all are well formed.
fn read_digests<'a>(
    alloc: Global,
    function: Option<HashFunction>,
    message: &'a [u8],
) -> Result<Vec<Asked<'a>>, CallError>
    ensures named { Answers (λ asked. map asked_digest asked.items) result
        (digests_in function message.now) }
    ensures written { IfOk result (λ asked. map digest_as_sent asked.items
        ≡ map digest_value (map asked_digest asked.items)) }
{
    let mut asked = Vec::new(alloc);
    let mut reader = Reader::new(message);
    'digests: while let Some(sent) = next_entry(alloc, &mut reader)? {
        match read_sent(function, &sent) {
            Ok(digest) => asked.push(Asked { sent, digest })?,
            Err(refusal) => {
                return Err(refused_before::<messages::Digest<'a>>(alloc, reader, refusal));
            }
        }
    }
    Ok(asked)
}

/// What a request asks for, whose digest function is in this field.
pub fn read_asked<'a>(
    alloc: Global,
    own: &str,
    message: &'a [u8],
    function_field: u32,
) -> Result<Vec<Asked<'a>>, CallError>
    ensures named { Answers (λ asked. map asked_digest asked.items) result
        (asked_in own.now function_field message.now) }
    ensures written { IfOk result (λ asked. map digest_as_sent asked.items
        ≡ map digest_value (map asked_digest asked.items)) }
{
    let head = read_head(message, function_field)?;
    match admit_head(own, &head) {
        Ok(function) => read_digests(alloc, function, message),
        Err(refusal) => {
            let reader = Reader::new(message);
            Err(refused_before::<messages::Digest<'a>>(alloc, reader, refusal))
        }
    }
}

/// Uses each digest, in order.
pub fn use_all(view: &mut View, asked: &[Asked<'_>])
    ensures used { (p : Slots) (quota : ℕ) →
        visible_in p view.new
        ≡ visible_after_changes view.old.limit quota (map Use (map asked_digest asked.now))
        (visible_in p view.old) }
    ensures holders { (k : ℕ) → holders view.new k ≡ holders view.old k }
    ensures kept { (p : Slots) (quota : ℕ) → IsViewInPool quota p view.old →
        IsViewInPool quota p view.new }
    ensures limit { view.new.limit ≡ view.old.limit }
{
    let mut left = asked;
    'digests: while let [first, rest @ ..] = left {
        view.touch(&first.digest);
        left = rest;
    }
}
