//! What reading and writing messages have to do with each other: a message that is written means
//! what it was written for.

ghost use Rattle.protobuf_wire.specs.Again.{AreReadAgain};
ghost use Rattle.execution_messages.specs.Actions.{FitsDuration, FitsAction, FitsCommand, duration_of, duration_records, action_of, action_records, command_of, command_records};
ghost use Rattle.execution_messages.specs.Operations.{FitsExecuteOperationMetadata, FitsExecuteResponse, FitsOperation, FitsPreconditionFailure, execute_operation_metadata_of, execute_operation_metadata_records, execute_response_of, execute_response_records, operation_of, operation_records, precondition_failure_of, precondition_failure_records};
ghost use Rattle.execution_messages.specs.Requests.{FitsExecuteRequest, FitsWaitExecutionRequest, execute_request_of, execute_request_records, wait_execution_request_of, wait_execution_request_records};
ghost use Rattle.std.specs.Prelude.{◌≡◌, ◌++◌, List};
ghost use Rattle.std.specs.List.{list_any};
ghost use Rattle.digest.specs.declared.Digest.{Digest};
ghost use Rattle.digest.specs.Naming.{same_digest};
ghost use Rattle.execution_messages.specs.Once.{IsEachOnce};
ghost use Rattle.execution_messages.specs.Statuses.{distinct};

/// A command and an action that are written are read again, and so is a length of time.
pub fn actions_are_read_again()
    ensures duration { AreReadAgain duration_of duration_records FitsDuration }
    ensures action { AreReadAgain action_of action_records FitsAction }
    ensures command { AreReadAgain command_of command_records FitsCommand }
{}

/// Execute and WaitExecution: requests that are written are read again.
pub fn execution_requests_are_read_again()
    ensures execute { AreReadAgain execute_request_of execute_request_records FitsExecuteRequest }
    ensures wait { AreReadAgain wait_execution_request_of wait_execution_request_records
        FitsWaitExecutionRequest }
{}

/// An Operation that is written is read again, and so are what it says of an execution, a
/// response and what is missing.
pub fn operations_are_read_again()
    ensures metadata { AreReadAgain execute_operation_metadata_of execute_operation_metadata_records
        FitsExecuteOperationMetadata }
    ensures response { AreReadAgain execute_response_of execute_response_records
        FitsExecuteResponse }
    ensures operation { AreReadAgain operation_of operation_records FitsOperation }
    ensures failure { AreReadAgain precondition_failure_of precondition_failure_records
        FitsPreconditionFailure }
{}

/// Each missing blob is named once, and no other is; those that were met first come first.
pub fn missing_blobs_are_named_once()
    ensures once { (met : List Digest) → IsEachOnce (distinct met) }
    ensures same { (d : Digest) (met : List Digest) →
        list_any (same_digest d) (distinct met) ≡ list_any (same_digest d) met }
    ensures order { (met later : List Digest) →
        (more : List Digest) × (distinct (met ++ later) ≡ distinct met ++ more) }
{}
