//! Messages of the Remote Execution API, v2, that are about the execution of actions: read and
//! written as those of `reapi_messages` are. And those by which executions are told of
//! (google.longrunning.Operation, and what remote_execution.proto puts into it). Actions and
//! commands are values alone: `actions` reads them, and nothing writes them.
#![tactic(auto)]

mod actions;
mod fault;
mod laws;
mod operations;
mod progress;
mod requests;
mod status;
mod written;

pub use actions::{Action, Command, Duration, EnvironmentVariable};
pub use fault::Fault;
pub use laws::{
    actions_are_read_again, execution_requests_are_read_again, missing_blobs_are_named_once,
    operations_are_read_again,
};
pub use operations::{
    ExecuteOperationMetadata, ExecuteResponse, Operation, PreconditionFailure, Violation,
};
pub use progress::{End, ExecutionStage, completed, unfinished};
pub use requests::{ExecuteRequest, WaitExecutionRequest};
pub use status::distinct;
pub use written::{WrittenDigest, write_digest};
