//! Operations, by which a client is told how far an execution has come.

ghost use Rattle.std.specs.Prelude.{◌≡◌};

use protobuf_wire::{
    Message, Writer, put_embedded, put_flag, put_int32, put_repeated, put_sent, put_string,
};
use reapi_messages::{Any, Digest, Status};
use std::alloc::{AllocError, Global};

/// `build.bazel.remote.execution.v2.ExecuteOperationMetadata`.
#[derive(Clone, Copy, Debug)]
pub struct ExecuteOperationMetadata<'a> {
    /// A number of the enum `ExecutionStage.Value`: 2 for queued, 3 for executing, 4 for completed.
    pub stage: i32,
    /// Of the text of an `Action`.
    pub action_digest: Option<Digest<'a>>,
}

impl Message for ExecuteOperationMetadata<'_> {
    ghost use Rattle.execution_messages.specs.Operations.{ExecuteOperationMetadataValue, execute_operation_metadata_shown, execute_operation_metadata_of, execute_operation_metadata_records};

    ghost Value = { ExecuteOperationMetadataValue };

    ghost shown = { execute_operation_metadata_shown };

    ghost value_of = { execute_operation_metadata_of };

    ghost records_for = { execute_operation_metadata_records };

    #[tactic(auto, using(crate::proofs::Texts::written_more))]
    fn write(&self, writer: &mut Writer) -> Result<(), AllocError> {
        put_int32(writer, 1, self.stage)?;
        put_embedded(writer, 2, &self.action_digest)
    }
}

/// `build.bazel.remote.execution.v2.ExecuteResponse`.
#[derive(Drop, Debug)]
pub struct ExecuteResponse<'a> {
    /// The text of an `ActionResult`, which can be read as one.
    pub result: Option<Vec<u8>>,
    /// Whether the result was stored before, and nothing was run.
    pub cached_result: bool,
    /// Why there is no result.
    pub status: Option<Status<'a>>,
}

impl Message for ExecuteResponse<'_> {
    ghost use Rattle.execution_messages.specs.Operations.{ExecuteResponseValue, execute_response_shown, execute_response_of, execute_response_records};

    ghost Value = { ExecuteResponseValue };

    ghost shown = { execute_response_shown };

    ghost value_of = { execute_response_of };

    ghost records_for = { execute_response_records };

    #[tactic(auto, using(crate::proofs::Texts::written_more))]
    fn write(&self, writer: &mut Writer) -> Result<(), AllocError> {
        put_sent(writer, 1, &self.result)?;
        put_flag(writer, 2, self.cached_result)?;
        put_embedded(writer, 3, &self.status)
    }
}

/// `google.longrunning.Operation`.
#[derive(Clone, Copy, Debug)]
pub struct Operation<'a> {
    pub name: &'a str,
    /// An `ExecuteOperationMetadata`.
    pub metadata: Option<Any<'a>>,
    pub done: bool,
    /// An `ExecuteResponse`, once it is done.
    pub response: Option<Any<'a>>,
}

impl Message for Operation<'_> {
    ghost use Rattle.execution_messages.specs.Operations.{OperationValue, operation_shown, operation_of, operation_records};

    ghost Value = { OperationValue };

    ghost shown = { operation_shown };

    ghost value_of = { operation_of };

    ghost records_for = { operation_records };

    #[tactic(auto, using(crate::proofs::Texts::written_more))]
    fn write(&self, writer: &mut Writer) -> Result<(), AllocError> {
        put_string(writer, 1, self.name)?;
        put_embedded(writer, 2, &self.metadata)?;
        put_flag(writer, 3, self.done)?;
        put_embedded(writer, 5, &self.response)
    }
}

/// `google.rpc.PreconditionFailure.Violation`.
#[derive(Clone, Copy, Debug)]
pub struct Violation<'a> {
    /// The field `type`: which kind of condition does not hold.
    pub kind: &'a str,
    /// What it does not hold of.
    pub subject: &'a str,
}

impl Message for Violation<'_> {
    ghost use Rattle.execution_messages.specs.Operations.{ViolationValue, violation_shown, violation_of, violation_records};

    ghost Value = { ViolationValue };

    ghost shown = { violation_shown };

    ghost value_of = { violation_of };

    ghost records_for = { violation_records };

    #[tactic(auto, using(crate::proofs::Texts::written_more))]
    fn write(&self, writer: &mut Writer) -> Result<(), AllocError> {
        put_string(writer, 1, self.kind)?;
        put_string(writer, 2, self.subject)
    }
}

/// `google.rpc.PreconditionFailure`.
#[derive(Drop, Debug)]
pub struct PreconditionFailure<'a> {
    pub violations: Vec<Violation<'a>>,
}

impl Message for PreconditionFailure<'_> {
    ghost use Rattle.execution_messages.specs.Operations.{PreconditionFailureValue, precondition_failure_shown, precondition_failure_of, precondition_failure_records};

    ghost Value = { PreconditionFailureValue };

    ghost shown = { precondition_failure_shown };

    ghost value_of = { precondition_failure_of };

    ghost records_for = { precondition_failure_records };

    #[tactic(auto, using(crate::proofs::Texts::written_more))]
    fn write(&self, writer: &mut Writer) -> Result<(), AllocError> {
        put_repeated(writer, 1, &self.violations)
    }
}
