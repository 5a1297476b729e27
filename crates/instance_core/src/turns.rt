//! What happens to jobs at the end of an event, made ready before anything changes: after it
//! nothing can be refused for want of memory any more.

ghost use Rattle.std.specs.Prelude.{◌≡◌, [], ◌∷◌, ◌++◌, ℕ, map, IfOk, OnOk};
ghost use Rattle.blob_pool.specs.Slots.{Slots};
ghost use Rattle.execution.specs.Ordered.{orders_by, told_shown};
ghost use Rattle.execution.specs.Taking.{step_shown, steps_shown};
ghost use Rattle.instance_core.specs.Apart.{hears, replies_to};
ghost use Rattle.instance_core.specs.ReplyHolders.{items_holders, replies_holders};
ghost use Rattle.instance_core.specs.Shown.{reply_shown};
ghost use Rattle.instance_core.specs.Watching.{replies_told, replies_to_watchers, told_reply};

use crate::calls::{Call, Calls};
use crate::event::{CallId, Reply, ReplyItem};
use execution::{Order, Step, Told};
use std::alloc::{AllocError, Global};

/// What happens to jobs at an event.
#[derive(Drop)]
pub struct Turn {
    /// To calls that watch jobs.
    pub replies: Vec<Reply>,
    /// To whoever runs jobs.
    pub orders: Vec<Order>,
    /// To be taken by `Instance::take_turn`.
    pub steps: Vec<Step>,
}

/// What a call is told that watches a job.
fn tell(alloc: Global, call: CallId, told: &Told<'_>) -> Result<Reply, AllocError>
    ensures reply { (p : Slots) →
        IfOk result (λ reply. reply_shown p reply ≡ told_reply (told_shown told.now) call) }
    ensures given { (k : ℕ) → IfOk result (λ reply. items_holders reply.items.items k ≡ 0) }
{
    let mut items = Vec::new(alloc);
    items.push(ReplyItem::Tells(told.operation.clone()?))?;
    if told.is_last {
        items.push(ReplyItem::Ends)?;
    }
    Ok(Reply { call, items })
}

/// Whether a call is on the one connection whose calls are told, if it is one alone.
fn hears(only: Option<u32>, call: &CallId) -> bool
    ensures { result ≡ hears only call.now }
{
    match only {
        None => true,
        Some(connection) => call.connection == connection,
    }
}

/// Tells a call that watches the job, where it is to be told.
fn add_reply(
    alloc: Global,
    replies: &mut Vec<Reply>,
    id: &CallId,
    call: &Call,
    told: &Told<'_>,
    only: Option<u32>,
) -> Result<(), AllocError>
    ensures replies { (p : Slots) → OnOk result (map (reply_shown p) replies.new.items
        ≡ map (reply_shown p) replies.old.items
        ++ replies_to only (replies_told ((id.now, call.now) ∷ []) (told_shown told.now))) }
    ensures given { (k : ℕ) → OnOk result (replies_holders replies.new.items k
        ≡ replies_holders replies.old.items k) }
{
    if !call.watches(told.number) {
        return Ok(());
    }
    if !hears(only, id) {
        return Ok(());
    }
    let reply = tell(alloc, *id, told)?;
    replies.push(reply)?;
    Ok(())
}

/// Tells all calls that watch a job, or those on one connection alone.
fn tell_watchers(
    alloc: Global,
    replies: &mut Vec<Reply>,
    calls: &Calls,
    told: &Told<'_>,
    only: Option<u32>,
) -> Result<(), AllocError>
    ensures replies { (p : Slots) → OnOk result (map (reply_shown p) replies.new.items
        ≡ map (reply_shown p) replies.old.items
        ++ replies_to only (replies_told calls.now (told_shown told.now))) }
    ensures given { (k : ℕ) → OnOk result (replies_holders replies.new.items k
        ≡ replies_holders replies.old.items k) }
{
    let mut place = 0;
    while let Some((id, call)) = calls.at(place) {
        add_reply(alloc, replies, id, call, told, only)?;
        place += 1;
    }
    Ok(())
}

/// Adds the order of a step, where it has one.
fn add_order(orders: &mut Vec<Order>, step: &Step) -> Result<(), AllocError>
    ensures { OnOk result (orders.new.items
        ≡ orders.old.items ++ orders_by (step_shown step.now ∷ [])) }
{
    if let Some(order) = step.order() {
        orders.push(order)?;
    }
    Ok(())
}

/// Makes ready the steps of an event: the replies to all calls that watch the jobs, or to those on
/// one connection alone, and the orders.
pub fn make_ready(
    alloc: Global,
    calls: &Calls,
    steps: Vec<Step>,
    only: Option<u32>,
) -> Result<Turn, AllocError>
    ensures replies { (p : Slots) → IfOk result (λ turn. map (reply_shown p) turn.replies.items
        ≡ replies_to only (replies_to_watchers calls.now (steps_shown steps.items))) }
    ensures given { (k : ℕ) → IfOk result (λ turn. replies_holders turn.replies.items k ≡ 0) }
    ensures orders { IfOk result
        (λ turn. turn.orders.items ≡ orders_by (steps_shown steps.items)) }
    ensures steps { IfOk result (λ turn. turn.steps ≡ steps) }
{
    let mut replies = Vec::new(alloc);
    let mut orders = Vec::new(alloc);
    let mut left = steps.as_slice();
    while let [first, rest @ ..] = left {
        tell_watchers(alloc, &mut replies, calls, &first.told(), only)?;
        add_order(&mut orders, first)?;
        left = rest;
    }
    Ok(Turn {
        replies,
        orders,
        steps,
    })
}
