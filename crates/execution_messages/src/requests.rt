//! Execute and WaitExecution of the Execution service: their requests.

ghost use Rattle.std.specs.Prelude.{◌≡◌};

use protobuf_wire::{
    Decode, Field, Message, MessageError, Writer, embedded, flag, int32, put_embedded, put_flag,
    put_int32, put_string, string,
};
use reapi_messages::Digest;
use std::alloc::{AllocError, Global};

/// `build.bazel.remote.execution.v2.ExecuteRequest`.
#[derive(Clone, Copy, Debug)]
pub struct ExecuteRequest<'a> {
    pub instance_name: &'a str,
    /// Whether a stored result is no answer.
    pub skip_cache_lookup: bool,
    /// Of the text of an `Action`.
    pub action_digest: Option<Digest<'a>>,
    /// A number of the enum `DigestFunction.Value`; 0 where it is not set.
    pub digest_function: i32,
}

impl Message for ExecuteRequest<'_> {
    ghost use Rattle.execution_messages.specs.Requests.{ExecuteRequestValue, execute_request_shown, execute_request_of, execute_request_records};

    ghost Value = { ExecuteRequestValue };

    ghost shown = { execute_request_shown };

    ghost value_of = { execute_request_of };

    ghost records_for = { execute_request_records };

    #[tactic(auto, using(crate::proofs::Texts::written_more))]
    fn write(&self, writer: &mut Writer) -> Result<(), AllocError> {
        put_string(writer, 1, self.instance_name)?;
        put_flag(writer, 3, self.skip_cache_lookup)?;
        put_embedded(writer, 6, &self.action_digest)?;
        put_int32(writer, 9, self.digest_function)
    }
}

impl<'a> Decode<'a> for ExecuteRequest<'a> {
    #[tactic(auto, unfolding(crate::specs::Requests::execute_request_of))]
    fn of_fields(alloc: Global, fields: &[Field<'a>]) -> Result<Self, MessageError> {
        Ok(ExecuteRequest {
            instance_name: string(fields, 1)?,
            skip_cache_lookup: flag(fields, 3),
            action_digest: embedded(alloc, fields, 6)?,
            digest_function: int32(fields, 9),
        })
    }
}

/// `build.bazel.remote.execution.v2.WaitExecutionRequest`.
#[derive(Clone, Copy, Debug)]
pub struct WaitExecutionRequest<'a> {
    /// The name of an `Operation`.
    pub name: &'a str,
}

impl Message for WaitExecutionRequest<'_> {
    ghost use Rattle.execution_messages.specs.Requests.{WaitExecutionRequestValue, wait_execution_request_shown, wait_execution_request_of, wait_execution_request_records};

    ghost Value = { WaitExecutionRequestValue };

    ghost shown = { wait_execution_request_shown };

    ghost value_of = { wait_execution_request_of };

    ghost records_for = { wait_execution_request_records };

    #[tactic(auto, using(crate::proofs::Texts::written_more))]
    fn write(&self, writer: &mut Writer) -> Result<(), AllocError> {
        put_string(writer, 1, self.name)
    }
}

impl<'a> Decode<'a> for WaitExecutionRequest<'a> {
    #[tactic(auto, unfolding(crate::specs::Requests::wait_execution_request_of))]
    fn of_fields(_alloc: Global, fields: &[Field<'a>]) -> Result<Self, MessageError> {
        Ok(WaitExecutionRequest {
            name: string(fields, 1)?,
        })
    }
}
