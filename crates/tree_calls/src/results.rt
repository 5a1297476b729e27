//! GetActionResult and UpdateActionResult.

ghost use Rattle.std.specs.Prelude.{◌≡◌, ℕ, OnErr};
ghost use Rattle.blob_pool.specs.Slots.{Slots};
ghost use Rattle.instance_view.specs.Shown.{visible_in, holders};
ghost use Rattle.instance_limits.specs.Shown.{limits_value};
ghost use Rattle.instance_view.specs.Sight.{seen_in, sight_of};
ghost use Rattle.cas_service.specs.InPool.{IsViewInPool};
ghost use Rattle.cas_service.specs.Answers.{Answers, IfAnswered};
ghost use Rattle.cas_service.specs.Changes.{visible_after_changes};
ghost use Rattle.tree_calls.specs.Results.{get_action_result_reply, get_action_result_changes, after_get, update_action_result_reply, after_update};

use crate::asking::{ResultSent, action_asked, result_sent};
use action_cache::{Results, get_result};
use blob_pool::Pool;
use cas_service::CallError;
use instance_limits::Limits;
use instance_view::{View, Work};
use rpc::Refusal;
use std::alloc::Global;

/// Answers `GetActionResult`: the bytes of the action's result as they were stored, where it is
/// complete (`action_cache::get_result`), else `NOT_FOUND`. A result that is answered becomes the
/// most recently used, and then its blobs are used in order, where they are the instance's own. A
/// refused call changes nothing.
pub fn get_action_result(
    alloc: Global,
    own: &str,
    results: &mut Results,
    view: &mut View,
    parent: &View,
    pool: &Pool,
    message: &[u8],
) -> Result<Vec<u8>, CallError>
    ensures reply { let seen = seen_in pool.now (sight_of view.old parent.now) in
        Answers (λ reply. reply.items) result
        (get_action_result_reply own.now seen results.old message.now) }
    ensures results { let seen = seen_in pool.now (sight_of view.old parent.now) in
        IfAnswered result (results.new ≡ after_get own.now seen results.old message.now) }
    ensures used { (p : Slots) (quota : ℕ) →
        let seen = seen_in pool.now (sight_of view.old parent.now) in
        let changes = get_action_result_changes own.now seen results.old message.now in
        IfAnswered result
        (visible_in p view.new
        ≡ visible_after_changes view.old.limit quota changes (visible_in p view.old)) }
    ensures err { OnErr result ((results.new ≡ results.old) × (view.new ≡ view.old)) }
    ensures holders { (k : ℕ) → holders view.new k ≡ holders view.old k }
    ensures kept { (p : Slots) (quota : ℕ) → IsViewInPool quota p view.old →
        IsViewInPool quota p view.new }
    ensures limit { view.new.limit ≡ view.old.limit }
{
    let action = action_asked(alloc, own, message)?;
    let mut work = Work::new();
    match get_result(alloc, results, view, parent, pool, &action, &mut work)? {
        Some(text) => Ok(text),
        None => Err(CallError::Refused(Refusal::NoResult)),
    }
}

/// Answers `UpdateActionResult`: the bytes that were sent. They are stored as the action's result,
/// in the place of an earlier one, and it is the most recently used; of all results the longest
/// front stays that the limits allow. A refused call changes nothing.
pub fn update_action_result(
    alloc: Global,
    own: &str,
    limits: Limits,
    results: &mut Results,
    message: &[u8],
) -> Result<Vec<u8>, CallError>
    ensures reply { Answers (λ reply. reply.items) result
        (update_action_result_reply own.now message.now) }
    ensures results { IfAnswered result
        (results.new ≡ after_update own.now (limits_value limits) results.old message.now) }
    ensures err { OnErr result (results.new ≡ results.old) }
{
    let ResultSent { action, text } = result_sent(alloc, own, message)?;
    let reply = Vec::from_slice(alloc, &text)?;
    results.update(limits, &action, text)?;
    Ok(reply)
}
