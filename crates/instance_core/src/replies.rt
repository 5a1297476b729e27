//! Replies to calls.

ghost use Rattle.std.specs.Prelude.{◌≡◌, ◌≤◌, ℕ, [], ◌∷◌, length, map, Result, Ok, IfOk, OnOk, OnErr};
ghost use Rattle.rpc.specs.declared.refusal.Refusal.{Refusal};
ghost use Rattle.blob_pool.specs.Slots.{Slots, count_at};
ghost use Rattle.blob_pool.specs.Moves.{Moves, one_at};
ghost use Rattle.instance_view.specs.Shown.{holders_seen, text_seen};
ghost use Rattle.bytestream.specs.Shown.{source_shown};
ghost use Rattle.cas_service.specs.declared.error.CallError.TheVariants.{Refused, NoMemory};
ghost use Rattle.cas_service.specs.Answers.{Answers, IfNoMemory};
ghost use Rattle.instance_core.specs.Replies as Value;
ghost use Rattle.instance_core.specs.Replies.{AnswerValue, begins, says, gives, ends, items_of};
ghost use Rattle.instance_core.specs.Answer.{reply_of_items, reply_with};
ghost use Rattle.instance_core.specs.Shown.{Gives, item_shown, outcome_shown, range_shown};
ghost use Rattle.instance_core.specs.ReplyHolders.{items_holders, result_holders};
ghost use Rattle.instance_core.specs.Carries.{answer_shown, answer_holders, EndsWithin};

use crate::answer::Answer;
use crate::event::{CallId, GivenRange, Reply, ReplyItem};
use blob_pool::{Pool, release_kept};
use bytestream::Source;
use cas_service::CallError;
use instance_view::Seen;
use rpc::Refusal;
use std::alloc::{AllocError, Global};
use std::rc::Rc;

/// What a call is refused for, unless memory ran out.
pub fn refusal_in(error: CallError) -> Result<Refusal, AllocError>
    ensures refused { IfOk result (λ refusal. error ≡ Refused refusal) }
    ensures memory { OnErr result (error ≡ NoMemory) }
{
    match error {
        CallError::Refused(refusal) => Ok(refusal),
        CallError::NoMemory => Err(AllocError),
    }
}

/// What is sent in answer to a call: one message with status OK, or a refusal.
fn items_to_send(
    alloc: Global,
    outcome: Result<Vec<u8>, Refusal>,
) -> Result<Vec<ReplyItem>, AllocError>
    ensures items { (p : Slots) → IfOk result (λ items.
        map (item_shown p) items.items ≡ items_of (outcome_shown outcome)) }
    ensures given { (k : ℕ) → IfOk result (λ items. items_holders items.items k ≡ 0) }
{
    let mut items = Vec::new(alloc);
    match outcome {
        Ok(message) => {
            items.push(ReplyItem::Begins)?;
            items.push(ReplyItem::Says(message))?;
            items.push(ReplyItem::Ends)?;
        }
        Err(refusal) => items.push(ReplyItem::Refuses(refusal))?,
    }
    Ok(items)
}

/// What is sent in answer to a call: messages, in order, with status OK.
fn items_of_messages(alloc: Global, messages: Vec<Vec<u8>>) -> Result<Vec<ReplyItem>, AllocError>
    ensures items { (p : Slots) → IfOk result (λ items. map (item_shown p) items.items
        ≡ items_of (Ok (Value.messages (map (λ message. message.items) messages.items)))) }
    ensures given { (k : ℕ) → IfOk result (λ items. items_holders items.items k ≡ 0) }
{
    let mut items = Vec::new(alloc);
    items.push(ReplyItem::Begins)?;
    'messages: for message in messages {
        items.push(ReplyItem::Says(message))?;
    }
    items.push(ReplyItem::Ends)?;
    Ok(items)
}

/// These items, sent in answer to a call.
fn reply_of(alloc: Global, call: CallId, items: Vec<ReplyItem>) -> Result<Vec<Reply>, AllocError>
    ensures replies { (p : Slots) →
        Gives p result (reply_of_items call (map (item_shown p) items.items)) }
    ensures given { (k : ℕ) → OnOk result (result_holders result k ≡ items_holders items.items k) }
{
    let mut replies = Vec::new(alloc);
    replies.push(Reply { call, items })?;
    Ok(replies)
}

/// The one answer to a call: one message with status OK, or a refusal.
pub fn reply_with(
    alloc: Global,
    call: CallId,
    outcome: Result<Vec<u8>, Refusal>,
) -> Result<Vec<Reply>, AllocError>
    ensures replies { (p : Slots) → Gives p result (reply_with call (outcome_shown outcome)) }
    ensures given { (k : ℕ) → result_holders result k ≡ 0 }
{
    let items = items_to_send(alloc, outcome)?;
    reply_of(alloc, call, items)
}

/// A whole reply of an Operation whose bytes are shared.
fn operation_reply(
    alloc: Global,
    call: CallId,
    operation: Rc<Vec<u8>>,
) -> Result<Vec<Reply>, AllocError>
    ensures replies { (p : Slots) → Gives p result
        (reply_with call (Ok (Value.one_message operation.value.items))) }
    ensures given { (k : ℕ) → result_holders result k ≡ 0 }
{
    let mut items = Vec::new(alloc);
    items.push(ReplyItem::Begins)?;
    items.push(ReplyItem::Tells(operation))?;
    items.push(ReplyItem::Ends)?;
    reply_of(alloc, call, items)
}

/// A whole reply without a message.
fn empty_reply(alloc: Global, call: CallId) -> Result<Vec<Reply>, AllocError>
    ensures replies { (p : Slots) → Gives p result (reply_of_items call (begins ∷ ends ∷ [])) }
    ensures given { (k : ℕ) → result_holders result k ≡ 0 }
{
    let mut items = Vec::new(alloc);
    items.push(ReplyItem::Begins)?;
    items.push(ReplyItem::Ends)?;
    reply_of(alloc, call, items)
}

/// A reply that begins with an Operation, which others follow.
fn first_reply(alloc: Global, call: CallId, operation: Vec<u8>) -> Result<Vec<Reply>, AllocError>
    ensures replies { (p : Slots) →
        Gives p result (reply_of_items call (begins ∷ says operation.items ∷ [])) }
    ensures given { (k : ℕ) → result_holders result k ≡ 0 }
{
    let mut items = Vec::new(alloc);
    items.push(ReplyItem::Begins)?;
    items.push(ReplyItem::Says(operation))?;
    reply_of(alloc, call, items)
}

/// A whole reply of one range.
fn range_reply(alloc: Global, call: CallId, range: GivenRange) -> Result<Vec<Reply>, AllocError>
    ensures replies { (p : Slots) →
        Gives p result (reply_of_items call (begins ∷ gives (range_shown p range) ∷ ends ∷ [])) }
    ensures given { (k : ℕ) → OnOk result (result_holders result k ≡ one_at range.text k) }
{
    let mut items = Vec::new(alloc);
    items.push(ReplyItem::Begins)?;
    items.push(ReplyItem::Gives(range))?;
    items.push(ReplyItem::Ends)?;
    reply_of(alloc, call, items)
}

/// A whole reply of messages, in order.
fn messages_reply(
    alloc: Global,
    call: CallId,
    messages: Vec<Vec<u8>>,
) -> Result<Vec<Reply>, AllocError>
    ensures replies { (p : Slots) → Gives p result
        (reply_with call (Ok (Value.messages (map (λ message. message.items) messages.items)))) }
    ensures given { (k : ℕ) → result_holders result k ≡ 0 }
{
    let items = items_of_messages(alloc, messages)?;
    reply_of(alloc, call, items)
}

/// Gives a range that is held. Where it has no bytes, or the reply is refused for want of memory,
/// its text is released.
fn give(
    alloc: Global,
    pool: &mut Pool,
    call: CallId,
    source: &Source,
) -> Result<Vec<Reply>, AllocError>
    requires held { (k : ℕ) → holders_seen source.now.text k ≤ count_at pool.old k }
    requires within { source.now.until ≤ length (text_seen pool.old source.now.text) }
    ensures replies { Gives pool.new result
        (reply_with call (Ok (Value.range (source_shown pool.old source.now)))) }
    ensures moves { Moves pool.old pool.new (holders_seen source.now.text) (result_holders result) }
{
    let Seen::Text(text) = source.text else {
        return empty_reply(alloc, call);
    };
    if source.from >= source.until {
        release_kept(pool, text);
        return empty_reply(alloc, call);
    }
    let range = GivenRange {
        digest: source.digest,
        text,
        from: source.from,
        until: source.until,
    };
    match range_reply(alloc, call, range) {
        Ok(replies) => Ok(replies),
        Err(error) => {
            release_kept(pool, text);
            Err(error)
        }
    }
}

/// Sends what a request was answered, and passes on that memory had run out. The text of a range
/// that is not sent is released.
pub fn reply_to_request(
    alloc: Global,
    pool: &mut Pool,
    call: CallId,
    outcome: Result<Answer, CallError>,
) -> Result<Vec<Reply>, AllocError>
    requires held { (k : ℕ) → answer_holders outcome k ≤ count_at pool.old k }
    requires within { EndsWithin pool.old outcome }
    ensures replies { (answer : Result AnswerValue Refusal)
        → Answers (answer_shown pool.old) outcome answer
        → Gives pool.new result (reply_with call answer) }
    ensures moves { Moves pool.old pool.new (answer_holders outcome) (result_holders result) }
    ensures memory { IfNoMemory outcome (OnOk result ⊥) }
{
    match outcome {
        Ok(Answer::Message(message)) => reply_with(alloc, call, Ok(message)),
        Ok(Answer::Operation(operation)) => operation_reply(alloc, call, operation),
        Ok(Answer::Messages(messages)) => messages_reply(alloc, call, messages),
        Ok(Answer::Range(source)) => give(alloc, pool, call, &source),
        Ok(Answer::Watching(_, operation)) => first_reply(alloc, call, operation),
        Err(error) => {
            let refusal = refusal_in(error)?;
            reply_with(alloc, call, Err(refusal))
        }
    }
}
