//! Every message by which an execution is told of is so short that four bytes can write its length
//! (gRPC over HTTP2, Length-Prefixed-Message).

ghost use Rattle.std.specs.Prelude.{◌≡◌, ◌<◌, ◌≤◌, ◌+◌, ◌*◌, ◌^◌, ℕ, Bool, true, List, [], length, Option, Some, Ok, Err, IfOk, IfSome, FitsSigned};
ghost use Rattle.std.specs.Int.{w32};
ghost use Rattle.std.specs.List.{AllByRecursion};
ghost use Rattle.protobuf_wire.specs.Fields.{value_of_text};
ghost use Rattle.digest.specs.declared.Digest.{Digest};
ghost use Rattle.digest.specs.declared.HashFunction.{HashFunction};
ghost use Rattle.instance_view.specs.Visible.{Blob};
ghost use Rattle.input_tree.specs.Listing.{Lookup};
ghost use Rattle.quota_evict.specs.Within.{AreBlobsWithin};
ghost use Rattle.cas_service.specs.Requests.{digest_or_refusal};
ghost use Rattle.tree_calls.specs.Complete.{LimitsValue, IsLimits, AreResultsWithin};
ghost use Rattle.job_queue.specs.Jobs.{Jobs, no_jobs, running_job};
ghost use Rattle.job_queue.specs.Order.{AreJobs};
ghost use Rattle.job_queue.specs.declared.queue.TheConstants.{LAST_NUMBER};
ghost use Rattle.execution_messages.specs.Actions.{CommandValue};
ghost use Rattle.execution_messages.specs.Requests.{ExecuteRequestValue, execute_request_of};
ghost use Rattle.actions.specs.Commands.{asked_outputs, command_in};
ghost use Rattle.execution_messages.specs.declared.fault.Fault.{Fault};
ghost use Rattle.execution_messages.specs.Progress.{EndValue, completed_text, executing_text, fails, finds, gives, queued_text};
ghost use Rattle.execution.specs.Changes.{after_changes};
ghost use Rattle.execution.specs.Execute.{ExecutionState, execute};
ghost use Rattle.execution.specs.Job.{JobValue};
ghost use Rattle.execution.specs.Preparing.{FaultValue, prepared};
ghost use Rattle.execution.specs.Steps.{StepValue, end_steps, jobs_after_steps, start_steps, tick_steps};
ghost use Rattle.execution.specs.Waiting.{wait};
ghost use Rattle.outcomes.specs.Asked.{are_asked};
ghost use Rattle.run_calls.specs.Outcomes.{ExitedValue};
ghost use Rattle.outcomes.specs.Results.{blobs_given, fresh_bytes, result_text};
ghost use Rattle.outcomes.specs.Short.{HasForm, HaveSizes, IsShort};
ghost use Rattle.outcomes.specs.Told.{AreTold, AreToldShortly, IsShortExecuteAnswer, IsShortWaitAnswer};

/// An Operation of an execution that has not ended has at most 500 bytes.
pub fn unfinished_operations_are_short()
    ensures queued { (n : ℕ) (d : Digest) → n ≤ LAST_NUMBER + 1 → HasForm d →
        length (queued_text n d) ≤ 500 }
    ensures executing { (n : ℕ) (d : Digest) → n ≤ LAST_NUMBER + 1 → HasForm d →
        length (executing_text n d) ≤ 500 }
{}

/// The Operation of an execution that has ended has at most 1,000 bytes more than its result, and
/// at most 200 more for each blob that is missing.
pub fn completed_operations_are_short()
    ensures found { (n : ℕ) (d : Digest) (text : List ℕ) → n ≤ LAST_NUMBER + 1 → HasForm d →
        length text < 2 ^ 32 →
        length (completed_text n d (finds text)) ≤ 1000 + length text }
    ensures given { (n : ℕ) (d : Digest) (text : List ℕ) → n ≤ LAST_NUMBER + 1 → HasForm d →
        length text < 2 ^ 32 →
        length (completed_text n d (gives text)) ≤ 1000 + length text }
    ensures failed { (n : ℕ) (d : Digest) (fault : Fault) → n ≤ LAST_NUMBER + 1 → HasForm d →
        length (completed_text n d (fails fault [])) ≤ 1000 }
    ensures missing { (n : ℕ) (d : Digest) (fault : Fault) (missing : List Digest) →
        n ≤ LAST_NUMBER + 1 → HasForm d → AllByRecursion HasForm missing →
        length missing < 2 ^ 20 →
        length (completed_text n d (fails fault missing)) ≤ 1000 + 200 * length missing }
{}

/// The result of a run is short: its command has at most 67,108,864 bytes, of which each output
/// that it asks for takes two at least besides its path.
pub fn results_of_runs_are_short()
    ensures { (like : Digest) (x : ExitedValue) (text : List ℕ) (v : CommandValue) →
        command_in text ≡ Some v → are_asked (asked_outputs v) x.outputs ≡ true →
        FitsSigned w32 x.code → HaveSizes (blobs_given like x) →
        length (result_text like x) ≤ 3_500_000_000 }
{}

/// Messages can write the sizes of blobs for which a quota has room.
pub fn blobs_within_a_quota_have_sizes()
    ensures { (limit quota : ℕ) (visible blobs : List Blob) → quota < 2 ^ 63 →
        AreBlobsWithin limit quota visible → fresh_bytes visible blobs ≤ quota →
        HaveSizes blobs }
{}

/// The Operation that tells of a run's result is short, where a quota has room for what it leaves.
pub fn runs_are_told_shortly()
    ensures { (limit quota n : ℕ) (visible : List Blob) (like d : Digest) (x : ExitedValue)
        (text : List ℕ) (v : CommandValue) → n ≤ LAST_NUMBER + 1 → HasForm d → quota < 2 ^ 63 →
        AreBlobsWithin limit quota visible → fresh_bytes visible (blobs_given like x) ≤ quota →
        command_in text ≡ Some v → are_asked (asked_outputs v) x.outputs ≡ true →
        FitsSigned w32 x.code → IsShort (completed_text n d (gives (result_text like x))) }
{}

/// A call of Execute is answered by a short message: an action misses at most 10,002 blobs.
pub fn answers_to_execute_are_short()
    ensures missing { (look : Lookup) (d : Digest) (f : FaultValue) → HasForm d →
        prepared look d ≡ Err f → length f.missing ≤ 10_002 }
    ensures short { (limits : LimitsValue) (slots : ℕ) (s : ExecutionState) (skip : Bool)
        (d : Digest) → s.jobs.next ≤ LAST_NUMBER + 1 → IsLimits limits →
        AreResultsWithin limits s.results → HasForm d →
        IfOk (execute slots s skip d).answer IsShortExecuteAnswer }
{}

/// The digest of an action that a request asks for has its form.
pub fn actions_asked_for_have_their_form()
    ensures { (asked : Option HashFunction) (message : List ℕ) (request : ExecuteRequestValue)
        (d : Digest) →
        value_of_text execute_request_of message ≡ Ok request →
        digest_or_refusal asked request.action_digest ≡ Ok d → HasForm d }
{}

/// A call of WaitExecution is answered by a short message.
pub fn answers_to_wait_are_short()
    ensures { (name : List ℕ) (jobs : Jobs JobValue) → AreJobs jobs → AreTold jobs →
        IfOk (wait name jobs) IsShortWaitAnswer }
{}

/// What those are told who watch, at the steps of an event, are short messages: where a job ends,
/// if the Operation with which it ends is short.
pub fn steps_are_told_shortly()
    ensures tick { (slots moment : ℕ) (jobs : Jobs JobValue) → AreJobs jobs → AreTold jobs →
        AreToldShortly (tick_steps slots moment jobs) }
    ensures end { (slots moment n : ℕ) (e : EndValue) (jobs : Jobs JobValue) → AreJobs jobs →
        AreTold jobs →
        IfSome (running_job n jobs) (λ job. IsShort (completed_text n job.action e)) →
        AreToldShortly (end_steps slots moment n e jobs) }
    ensures start { (slots moment : ℕ) (jobs : Jobs JobValue) → AreJobs jobs → AreTold jobs →
        AreToldShortly (start_steps slots moment jobs) }
{}

/// Jobs stay so that all that is told of them is short.
pub fn jobs_stay_told()
    ensures opening { AreTold no_jobs }
    ensures execute { (limits : LimitsValue) (slots : ℕ) (s : ExecutionState) (skip : Bool)
        (d : Digest) → s.jobs.next ≤ LAST_NUMBER + 1 → IsLimits limits →
        AreResultsWithin limits s.results → HasForm d →
        AreTold s.jobs → AreTold (after_changes (execute slots s skip d).changes s).jobs }
    ensures steps { (steps : List StepValue) (jobs : Jobs JobValue) → AreToldShortly steps →
        AreTold jobs → AreTold (jobs_after_steps steps jobs) }
{}
