//! What follows from the definitions alone.

ghost use Rattle.std.specs.Prelude.{◌≡◌, ◌++◌, ℕ, List, []};
ghost use Rattle.std.specs.List.{AllByRecursion};
ghost use Rattle.job_queue.specs.Changes.{IsRunning};
ghost use Rattle.run_calls.specs.Outcomes.{OutcomeValue};
ghost use Rattle.instance_core.specs.Answer.{answer, orders_at, state_after};
ghost use Rattle.instance_core.specs.Apart.{IsCallOn, replies_on};
ghost use Rattle.instance_core.specs.declared.event.CallId.{CallId};
ghost use Rattle.instance_core.specs.Calls.{CallEventValue, start_jobs, end_late_jobs, end_job};
ghost use Rattle.instance_core.specs.Changes.{MadeInPart};
ghost use Rattle.instance_core.specs.Jobs.{IsWholeOrder};
ghost use Rattle.instance_core.specs.Kept.{CameMessages, HaveKept, IsAnsweredAsCame, message_in};
ghost use Rattle.instance_core.specs.Losses.{IsByRule, HasNoEmptyBlob};
ghost use Rattle.instance_core.specs.Room.{LosesForRoom, all_touched};
ghost use Rattle.instance_core.specs.Named.{StoresNamed};
ghost use Rattle.instance_core.specs.NamedReplies.{ServesNamed};
ghost use Rattle.instance_core.specs.State.{InstanceState, IsInstanceWithin, LimitsValue, new_instance};
ghost use Rattle.instance_core.specs.Watching.{WatchAtRest, WatchDuring};

/// A call stores bytes only under the digest that names them, whatever its request says: a batch,
/// and a Write too, message by message.
pub fn calls_store_named_texts()
    ensures { (s : InstanceState) (event : CallEventValue)
        → AllByRecursion (StoresNamed s.visible) (answer s event).changes }
{}

/// What a call is answered is named by the digest that was asked for. A Read is given a range of
/// the text that the instance sees under the digest in the resource name (bytestream.proto);
/// data with status OK in a reply to BatchReadBlobs, and each directory on a page of GetTree, are
/// what their digests say; and a result that GetActionResult gives, or Execute from the cache, is
/// the instance's own, of which each blob is there (remote_execution.proto).
pub fn calls_serve_named_blobs()
    ensures { (s : InstanceState) (event : CallEventValue) → IsInstanceWithin s
        → ServesNamed (record { state = s; event = event }) }
{}

/// The request that is answered at the end of a call is a message that came for this call: what is
/// kept of a request until then is kept as it came, whatever else happens.
pub fn requests_are_answered_as_they_came()
    ensures opened { (name : List ℕ) (quota slots : ℕ) (limits : LimitsValue)
        → HaveKept [] (new_instance name quota slots limits).calls }
    ensures kept { (came : CameMessages) (s t : InstanceState) (event : CallEventValue)
        → HaveKept came s.calls → MadeInPart (answer s event).changes s t
        → HaveKept (came ++ message_in event) t.calls }
    ensures answered { (came : CameMessages) (s : InstanceState) (id : CallId)
        → HaveKept came s.calls → IsAnsweredAsCame came s id }
{}

/// What is ordered to be run has what it needs: each file of its plan is empty, or has its text
/// there, and each text is what its digest says.
pub fn orders_have_their_texts()
    ensures { (s : InstanceState) (event : CallEventValue) → IsInstanceWithin s
        → AllByRecursion IsWholeOrder (orders_at s event) }
{}

/// Behind every event the jobs that wait have to wait, or nobody watches them. So of the jobs that
/// start at the end of received bytes only calls on the connection are told on which these came.
pub fn starts_are_told_on_one_connection()
    ensures kept { (c : ℕ) (s t : InstanceState) (event : CallEventValue) → IsCallOn c event
        → IsInstanceWithin s → MadeInPart (answer s event).changes s t
        → WatchDuring c s → WatchDuring c t }
    ensures told { (c : ℕ) (s : InstanceState) → IsInstanceWithin s → WatchDuring c s
        → replies_on c (answer s start_jobs).replies ≡ (answer s start_jobs).replies }
    ensures starts { (c : ℕ) (s : InstanceState) → IsInstanceWithin s → WatchDuring c s
        → WatchAtRest (state_after s start_jobs) }
    ensures late { (s : InstanceState) → IsInstanceWithin s → WatchAtRest s
        → WatchAtRest (state_after s end_late_jobs) }
    ensures ended { (s : InstanceState) (n : ℕ) (outcome : OutcomeValue) → IsInstanceWithin s
        → IsRunning n s.jobs → WatchAtRest s
        → WatchAtRest (state_after s (end_job n outcome)) }
{}

/// What an event changes of what is kept, it changes by rule, and so does each front of its
/// changes: a blob is lost to an admission alone, and a result to a store; an upload at its end, to
/// a piece that would bring it past its size, or by its age. No job that waits or runs is lost: it
/// starts, or it ends. The rules are of the event's own changes: of the piece that its message
/// brings, of what it stores, of the steps that it makes.
pub fn calls_lose_by_rules()
    ensures { (s : InstanceState) (event : CallEventValue)
        → AllByRecursion (IsByRule s event) (answer s event).changes }
{}

/// A blob is lost for want of room alone. Where any front of an event's changes was made, and so
/// where all were, a blob that is gone stood behind others, each of which stood before it already
/// or was used or admitted by these changes; and these have more bytes together with it than the
/// quota, or are more than its limits allow.
pub fn calls_lose_blobs_for_room()
    ensures { (s t : InstanceState) (event : CallEventValue) → IsInstanceWithin s
        → (part : MadeInPart (answer s event).changes s t)
        → LosesForRoom s.limits.blobs s.quota (all_touched part.made) s.visible t.visible }
{}

/// The empty blob is always there, and has no entry in an instance: at first there is none, and no
/// event gives it one, nor does any front of an event's changes. So it has no slot in the pool.
pub fn the_empty_blob_has_no_slot()
    ensures opened { (name : List ℕ) (quota slots : ℕ) (limits : LimitsValue)
        → HasNoEmptyBlob (new_instance name quota slots limits).visible }
    ensures kept { (s t : InstanceState) (event : CallEventValue)
        → MadeInPart (answer s event).changes s t → HasNoEmptyBlob s.visible
        → HasNoEmptyBlob t.visible }
{}
