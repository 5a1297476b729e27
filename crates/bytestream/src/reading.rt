//! `Read`: the range of a blob that a message asks for.

ghost use Rattle.std.specs.Prelude.{◌≡◌, ◌≤◌, ◌+◌, ℕ, Some, length, IfOk, IfSome, OnErr, option_map};
ghost use Rattle.reapi_messages.specs.Results.{Gives};
ghost use Rattle.blob_pool.specs.Slots.{Slots, count_at};
ghost use Rattle.blob_pool.specs.Moves.{Moves, HasRoom, no_holders};
ghost use Rattle.instance_view.specs.Visible.{visible_text, visible_after_use};
ghost use Rattle.instance_view.specs.Shown.{visible_in, holders, holders_seen, text_seen};
ghost use Rattle.instance_view.specs.Sight.{seen_in, sight_holders, sight_of};
ghost use Rattle.cas_service.specs.Answers.{Answers, IfAnswered, IfNoMemory};
ghost use Rattle.bytestream.specs.Reading as reading;
ghost use Rattle.bytestream.specs.Reading.{limit_of, offset_check, until_of, range_asked, read_answer, after_read};
ghost use Rattle.bytestream.specs.Shown.{source_shown};

use crate::names::read_name;
use blob_pool::Pool;
use cas_service::{CallError, check_instance};
use digest::Digest;
use instance_view::{Seen, Sight, View};
use reapi_messages::{Decode, ReadRequest};
use rpc::Refusal;
use std::alloc::Global;

/// A range of a blob: its bytes from one place until before another. It is another holder of the
/// blob's text.
#[derive(Clone, Copy, Debug)]
pub struct Source {
    pub digest: Digest,
    pub text: Seen,
    pub from: u64,
    pub until: u64,
}

impl Source {
    fn new(digest: &Digest, text: Seen, from: u64, until: u64) -> Source
        ensures { result ≡ record { digest = digest.now; text = text; from = from; until = until } }
    {
        Source {
            digest: *digest,
            text,
            from,
            until,
        }
    }
}

/// What a `Read` asks for; the limit 0 is none.
#[derive(Clone, Copy, Debug)]
pub struct ReadAsked {
    pub digest: Digest,
    pub offset: i64,
    pub limit: u64,
}

fn limit(limit: i64) -> Result<u64, Refusal>
    ensures { result ≡ limit_of limit }
{
    if limit < 0 {
        return Err(Refusal::NegativeLimit);
    }
    Ok(limit as u64)
}

/// What a request asks for.
#[tactic(auto, unfolding(crate::specs::Reading::read_asked))]
fn read_asked(alloc: Global, own: &str, message: &[u8]) -> Result<ReadAsked, CallError>
    ensures { Answers (λ asked. asked) result (reading.read_asked own.now message.now) }
{
    let request = ReadRequest::decode(alloc, message)?;
    let name = read_name(request.resource_name)?;
    check_instance(own, name.instance)?;
    let limit = limit(request.read_limit)?;
    Ok(ReadAsked {
        digest: name.digest,
        offset: request.read_offset,
        limit,
    })
}

/// A place in a text of this size, or at its end.
fn place(offset: i64, size: u64) -> Result<u64, Refusal>
    ensures value { result ≡ offset_check offset size }
    ensures within { IfOk result (λ place. place ≤ size) }
{
    if offset < 0 || offset as u64 > size {
        return Err(Refusal::OffsetOutOfRange);
    }
    Ok(offset as u64)
}

/// Where a range ends that begins at a place of a text of this size.
fn end_of_range(limit: u64, from: u64, size: u64) -> u64
    requires { from ≤ size }
    ensures { result ≡ until_of limit from size }
{
    if limit == 0 || limit > size - from {
        return size;
    }
    from + limit
}

/// How long a text is that an instance has.
fn length_of(pool: &Pool, seen: Seen) -> u64
    ensures { result ≡ length (text_seen pool.now seen) }
{
    match seen {
        Seen::Empty => 0,
        Seen::Text(kept) => pool.length(kept),
    }
}

/// The range that is asked for of a text.
fn range_of(pool: &Pool, asked: &ReadAsked, text: &Seen) -> Result<Source, Refusal>
    ensures source { Gives (source_shown pool.now) result
        (range_asked asked.now (Some (text_seen pool.now text.now))) }
    ensures text { IfOk result (λ source. source.text ≡ text.now) }
{
    let size = length_of(pool, *text);
    let from = place(asked.offset, size)?;
    let until = end_of_range(asked.limit, from, size);
    Ok(Source::new(&asked.digest, *text, from, until))
}

/// The range that is asked for of what was found.
fn range(pool: &Pool, asked: &ReadAsked, found: Option<Seen>) -> Result<Source, Refusal>
    requires { (k : ℕ) → IfSome found (λ seen. holders_seen seen k ≤ count_at pool.now k) }
    ensures source { Gives (source_shown pool.now) result
        (range_asked asked.now (option_map (text_seen pool.now) found)) }
    ensures held { (k : ℕ) → IfOk result
        (λ source. holders_seen source.text k ≤ count_at pool.now k) }
{
    match found {
        Some(text) => range_of(pool, asked, &text),
        None => Err(Refusal::BlobNotFound),
    }
}

/// Makes another holder of a text.
fn hold(pool: &mut Pool, seen: Seen)
    requires held { (k : ℕ) → holders_seen seen k ≤ count_at pool.old k }
    requires room { HasRoom pool.old }
    ensures { Moves pool.old pool.new no_holders (holders_seen seen) }
{
    if let Seen::Text(kept) = seen {
        pool.hold_again(kept);
    }
}

/// What was found of a blob, which is then used.
fn find(view: &mut View, parent: &View, digest: &Digest) -> Option<Seen>
    ensures text { (p : Slots) → option_map (text_seen p) result
        ≡ visible_text digest.now (seen_in p (sight_of view.old parent.now)) }
    ensures used { (p : Slots) → visible_in p view.new
        ≡ visible_after_use digest.now (visible_in p view.old) }
    ensures held { (k : ℕ) → IfSome result
        (λ s. holders_seen s k ≤ sight_holders (sight_of view.old parent.now) k) }
    ensures holders { (k : ℕ) → holders view.new k ≡ holders view.old k }
    ensures limit { view.new.limit ≡ view.old.limit }
{
    let found = Sight::new(view, parent).get(digest);
    view.touch(digest);
    found
}

/// Begins a `Read`: the range of the blob that the message asks for, which is used. The refusals
/// come in this order: the message does not read, its name is none, its instance is not `own`, its
/// limit is negative, there is no such blob, its offset is outside the blob.
pub fn read(
    alloc: Global,
    own: &str,
    view: &mut View,
    parent: &View,
    pool: &mut Pool,
    message: &[u8],
) -> Result<Source, CallError>
    requires held { (k : ℕ) → holders view.old k + holders parent.now k ≤ count_at pool.old k }
    requires room { HasRoom pool.old }
    ensures answer { Answers (source_shown pool.old) result
        (read_answer own.now (seen_in pool.old (sight_of view.old parent.now)) message.now) }
    ensures used { (p : Slots) → IfAnswered result
        (visible_in p view.new ≡ after_read own.now message.now (visible_in p view.old)) }
    ensures memory { IfNoMemory result (view.new ≡ view.old) }
    ensures there { (k : ℕ) → IfOk result
        (λ source. holders_seen source.text k ≤ count_at pool.old k) }
    ensures holds { IfOk result
        (λ source. Moves pool.old pool.new no_holders (holders_seen source.text)) }
    ensures err { OnErr result (pool.new ≡ pool.old) }
    ensures holders { (k : ℕ) → holders view.new k ≡ holders view.old k }
    ensures limit { view.new.limit ≡ view.old.limit }
{
    let asked = read_asked(alloc, own, message)?;
    let found = find(view, parent, &asked.digest);
    let source = range(pool, &asked, found)?;
    hold(pool, source.text);
    Ok(source)
}
