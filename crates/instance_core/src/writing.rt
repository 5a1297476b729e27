//! What the messages of a `Write` are answered.

ghost use Rattle.std.specs.Prelude.{◌≡◌, ◌<◌, ℕ, List, [], Option, option_map, Result, OnOk, OnErr};
ghost use Rattle.blob_pool.specs.Slots.{Slots};
ghost use Rattle.blob_pool.specs.Moves.{Moves};
ghost use Rattle.rpc.specs.declared.method.Method.TheVariants.{Write};
ghost use Rattle.rpc.specs.declared.refusal.Refusal.{Refusal};
ghost use Rattle.instance_view.specs.Shown.{holders};
ghost use Rattle.cas_service.specs.Answers.{Answers, IfNoMemory};
ghost use Rattle.bytestream.specs.Size.{size_limit};
ghost use Rattle.bytestream.specs.Writing.{WrittenValue};
ghost use Rattle.bytestream.specs.Shown.{open_write_shown, written_shown, IfGoes};
ghost use Rattle.instance_core.specs.Calls.{without_call, AreInCourse};
ghost use Rattle.instance_core.specs.Contents.{AreContentsInPool, AreContentsWithin};
ghost use Rattle.instance_core.specs.Answer.{final_answer, first_write_answer, next_write_answer, first_message_answer};
ghost use Rattle.job_queue.specs.Jobs.{Jobs};
ghost use Rattle.execution.specs.Job.{JobValue};
ghost use Rattle.instance_core.specs.Shown.{Gives, ChangesCalls, Makes, contents_state, outcome_shown};
ghost use Rattle.instance_core.specs.ReplyHolders.{result_holders};

use crate::calls::{Call, Calls, Progress};
use crate::contents::{Contents, Settings};
use crate::event::{CallId, Reply};
use crate::replies::{refusal_in, reply_with};
use blob_pool::Pool;
use bytestream::{Terms, Written, write_first};
use cas_service::CallError;
use rpc::{Method, Refusal};
use std::alloc::{AllocError, Global};

/// Answers a call that is in course, which ends.
pub fn finish(
    alloc: Global,
    calls: &mut Calls,
    id: CallId,
    outcome: Result<Vec<u8>, Refusal>,
) -> Result<Vec<Reply>, AllocError>
    requires calls { AreInCourse calls.old }
    ensures replies { (p : Slots) → Gives p result
        (final_answer id (outcome_shown outcome)).replies }
    ensures given { (k : ℕ) → result_holders result k ≡ 0 }
    ensures changed { ChangesCalls result
        (final_answer id (outcome_shown outcome)) calls.old calls.new }
    ensures err { OnErr result (calls.new ≡ calls.old) }
    ensures calls { AreInCourse calls.new }
{
    let replies = reply_with(alloc, id, outcome)?;
    calls.finish(id, &replies);
    Ok(replies)
}

/// Does to a call what the first message of a `Write` was answered: the call goes on, or is
/// answered and ends. Memory that had run out is passed on.
fn settle_first(
    alloc: Global,
    calls: &mut Calls,
    id: CallId,
    written: Result<Written, CallError>,
) -> Result<Vec<Reply>, AllocError>
    requires calls { AreInCourse calls.old }
    requires named { IfGoes written
        (λ write. (open_write_shown write).key.digest.size < size_limit) }
    ensures replies { (answer : Result WrittenValue Refusal) → Answers written_shown written answer
        → (p : Slots) → Gives p result (first_write_answer id Write [] answer).replies }
    ensures given { (k : ℕ) → result_holders result k ≡ 0 }
    ensures changed { (answer : Result WrittenValue Refusal) → Answers written_shown written answer
        → ChangesCalls result (first_write_answer id Write [] answer) calls.old calls.new }
    ensures memory { IfNoMemory written (OnOk result ⊥) }
    ensures err { OnErr result (calls.new ≡ calls.old) }
    ensures calls { AreInCourse calls.new }
{
    match written {
        Ok(Written::Goes(write)) => {
            calls.put(id, Call::new(Method::Write, Progress::Writes(write)))?;
            Ok(Vec::new(alloc))
        }
        Ok(Written::Answered(reply)) => finish(alloc, calls, id, Ok(reply)),
        Err(error) => {
            let refusal = refusal_in(error)?;
            finish(alloc, calls, id, Err(refusal))
        }
    }
}

/// Does to a call what a later message of a `Write` was answered: it goes on, or is answered and
/// ends. Memory that had run out is passed on.
pub fn settle_next(
    alloc: Global,
    calls: &mut Calls,
    id: CallId,
    outcome: Result<Option<Vec<u8>>, CallError>,
) -> Result<Vec<Reply>, AllocError>
    requires calls { AreInCourse calls.old }
    ensures replies { (answer : Result (Option (List ℕ)) Refusal)
        → Answers (option_map (λ reply. reply.items)) outcome answer
        → (p : Slots) → Gives p result (next_write_answer id [] answer).replies }
    ensures given { (k : ℕ) → result_holders result k ≡ 0 }
    ensures changed { (answer : Result (Option (List ℕ)) Refusal)
        → Answers (option_map (λ reply. reply.items)) outcome answer
        → ChangesCalls result (next_write_answer id [] answer) calls.old calls.new }
    ensures memory { IfNoMemory outcome (OnOk result ⊥) }
    ensures err { OnErr result (calls.new ≡ calls.old) }
    ensures calls { AreInCourse calls.new }
{
    match outcome {
        Ok(None) => Ok(Vec::new(alloc)),
        Ok(Some(reply)) => finish(alloc, calls, id, Ok(reply)),
        Err(error) => {
            let refusal = refusal_in(error)?;
            finish(alloc, calls, id, Err(refusal))
        }
    }
}

/// Carries out the first message of a `Write`. For want of memory its piece may have been taken.
pub fn on_first_part(
    alloc: Global,
    settings: &Settings,
    contents: &mut Contents,
    pool: &mut Pool,
    calls: &mut Calls,
    id: CallId,
    message: &[u8],
) -> Result<Vec<Reply>, AllocError>
    requires kept { AreContentsInPool settings.now pool.old contents.old }
    requires calls { AreInCourse calls.old }
    ensures replies { (jobs : Jobs JobValue) (p : Slots) →
        let old = contents_state settings.now pool.old contents.old
        (record { jobs = jobs; calls = calls.old }) in
        Gives p result (first_message_answer old id Write message.now).replies }
    ensures given { (k : ℕ) → result_holders result k ≡ 0 }
    ensures changed { (jobs : Jobs JobValue) →
        let old = contents_state settings.now pool.old contents.old
        (record { jobs = jobs; calls = calls.old }) in
        let new = contents_state settings.now pool.new contents.new
        (record { jobs = jobs; calls = calls.new }) in
        Makes result (first_message_answer old id Write message.now).changes old new }
    ensures executions { contents.new.executions ≡ contents.old.executions }
    ensures moves { Moves pool.old pool.new (holders contents.old.view)
        (holders contents.new.view) }
    ensures within { AreContentsWithin settings.now pool.new contents.new }
    ensures results { contents.new.results ≡ contents.old.results }
    ensures calls { AreInCourse calls.new }
{
    let terms = Terms {
        quota: settings.quota,
        moment: settings.moment,
    };
    let written = write_first(
        alloc,
        &settings.name,
        terms,
        &mut contents.view,
        pool,
        &mut contents.uploads,
        message,
    );
    settle_first(alloc, calls, id, written)
}
