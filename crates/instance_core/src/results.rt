//! What `GetActionResult` and `UpdateActionResult` are answered, from the results of actions.

ghost use Rattle.std.specs.Prelude.{◌+◌, ◌≤◌, ℕ, List};
ghost use Rattle.blob_pool.specs.Slots.{Slots, count_at};
ghost use Rattle.rpc.specs.declared.method.Method.TheVariants.{GetActionResult, UpdateActionResult};
ghost use Rattle.instance_view.specs.Shown.{visible_in, holders};
ghost use Rattle.instance_view.specs.Visible.{Blob};
ghost use Rattle.instance_core.specs.Contents.{AreContentsInPool};
ghost use Rattle.instance_core.specs.Carries.{CarriesTexts};

use crate::answer::{Answer, one_message};
use crate::contents::{Contents, Settings};
use blob_pool::Pool;
use cas_service::CallError;
use instance_view::View;
use std::alloc::Global;
use tree_calls::{get_action_result, update_action_result};

/// Answers a `GetActionResult`. The result is used, and then its blobs.
pub fn get_result(
    alloc: Global,
    settings: &Settings,
    contents: &mut Contents,
    parent: &View,
    pool: &Pool,
    message: &[u8],
) -> Result<Answer, CallError>
    requires kept { AreContentsInPool settings.now pool.now contents.old }
    requires beside { (k : ℕ) → holders contents.old.view k + holders parent.now k
        ≤ count_at pool.now k }
    ensures carried { CarriesTexts GetActionResult settings.now (visible_in pool.now parent.now)
        message.now pool.now contents.old result pool.now contents.new }
{
    let outcome = get_action_result(
        alloc,
        &settings.name,
        &mut contents.results,
        &mut contents.view,
        parent,
        pool,
        message,
    );
    one_message(outcome)
}

/// Answers an `UpdateActionResult`. The result that is sent is stored.
pub fn update_result(
    alloc: Global,
    settings: &Settings,
    contents: &mut Contents,
    message: &[u8],
) -> Result<Answer, CallError>
    ensures carried { (parent : List Blob) (p : Slots) →
        AreContentsInPool settings.now p contents.old → CarriesTexts UpdateActionResult settings.now
        parent message.now p contents.old result p contents.new }
{
    let results = &mut contents.results;
    let outcome = update_action_result(alloc, &settings.name, settings.limits, results, message);
    one_message(outcome)
}
