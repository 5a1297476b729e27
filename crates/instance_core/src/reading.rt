//! What a `Read` is answered: a range of a blob, whose text is held until the range was sent.

ghost use Rattle.std.specs.Prelude.{◌+◌, ◌≤◌, ℕ};
ghost use Rattle.blob_pool.specs.Slots.{count_at};
ghost use Rattle.rpc.specs.declared.method.Method.TheVariants.{Read};
ghost use Rattle.instance_view.specs.Shown.{visible_in, holders};
ghost use Rattle.instance_core.specs.Contents.{AreContentsInPool};
ghost use Rattle.instance_core.specs.Carries.{CarriesTexts};

use crate::answer::{Answer, range};
use crate::contents::{Contents, Settings};
use blob_pool::Pool;
use bytestream::read;
use cas_service::CallError;
use instance_view::View;
use std::alloc::Global;

/// Answers a `Read`: the range that it asks for. The blob is used.
pub fn read_range(
    alloc: Global,
    settings: &Settings,
    contents: &mut Contents,
    parent: &View,
    pool: &mut Pool,
    message: &[u8],
) -> Result<Answer, CallError>
    requires kept { AreContentsInPool settings.now pool.old contents.old }
    requires beside { (k : ℕ) → holders contents.old.view k + holders parent.now k
        ≤ count_at pool.old k }
    ensures carried { CarriesTexts Read settings.now (visible_in pool.old parent.now) message.now
        pool.old contents.old result pool.new contents.new }
{
    let outcome = read(
        alloc,
        &settings.name,
        &mut contents.view,
        parent,
        pool,
        message,
    );
    range(outcome)
}
