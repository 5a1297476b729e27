//! Operations.

ghost use Rattle.std.specs.Prelude.{◌≡◌, ◌<◌, ◌^◌, IfOk, option_map, string_bytes};
ghost use Rattle.execution_messages.specs.Progress.{completed_text, metadata_text, operation_name, operation_of, operation_text, response_any, response_text};
ghost use Rattle.execution_messages.specs.Shown.{end_shown, unfinished_text};
ghost use Rattle.execution_messages.specs.Written.{written_shown};
ghost use Rattle.reapi_messages.specs.Statuses.{any_shown};

use crate::fault::Fault;
use crate::status::fault_response;
use crate::written::{WrittenDigest, write_digest};
use crate::{ExecuteOperationMetadata, ExecuteResponse, Operation};
use digest::Digest;
use keyed_maps::MapKey;
use protobuf_wire::Message;
use reapi_messages::Any;
use std::alloc::{AllocError, Global};

const METADATA_URL: &str =
    "type.googleapis.com/build.bazel.remote.execution.v2.ExecuteOperationMetadata";

const RESPONSE_URL: &str = "type.googleapis.com/build.bazel.remote.execution.v2.ExecuteResponse";

/// How far an execution has come that has not ended.
#[derive(Clone, Copy, PartialEq, Eq, Debug)]
pub enum ExecutionStage {
    Queued,
    Executing,
}

/// How an execution ends.
#[derive(Drop, Debug)]
pub enum End {
    /// The stored result of the action is found, which is this text.
    Finds(Vec<u8>),
    /// It was run, with this result.
    Gives(Vec<u8>),
    /// There is none, for this fault; and these blobs are missing.
    Fails(Fault, Vec<Digest>),
}

/// `operations/{number}`.
fn name(alloc: Global, number: u64) -> Result<String, AllocError>
    ensures { IfOk result (λ text. string_bytes text ≡ operation_name number) }
{
    format!(in alloc; "operations/{number}")
}

/// The stage of the execution of an action.
fn metadata(alloc: Global, stage: i32, action: &WrittenDigest) -> Result<Vec<u8>, AllocError>
    ensures { IfOk result (λ text. text.items
        ≡ metadata_text stage (written_shown action.now)) }
{
    let metadata = ExecuteOperationMetadata {
        stage,
        action_digest: Some(action.message()),
    };
    metadata.encode(alloc)
}

/// A message of a type.
fn any<'a>(type_url: &'a str, value: &'a [u8]) -> Any<'a>
    ensures { any_shown result ≡ record { type_url = type_url.now; value = value.now } }
{
    Any { type_url, value }
}

/// A response as an Operation has it.
fn response_any(response: Option<&[u8]>) -> Option<Any<'_>>
    ensures { option_map any_shown result ≡ response_any (option_map (λ r. r.now) response.entry) }
{
    match response {
        Some(response) => Some(any(RESPONSE_URL, response)),
        None => None,
    }
}

/// An Operation, from the messages in it.
fn operation_of(
    alloc: Global,
    name: &str,
    metadata: &[u8],
    done: bool,
    response: Option<&[u8]>,
) -> Result<Vec<u8>, AllocError>
    ensures { IfOk result (λ text. text.items
        ≡ operation_of name.now metadata.now done (option_map (λ r. r.now) response.entry)) }
{
    let operation = Operation {
        name,
        metadata: Some(any(METADATA_URL, metadata)),
        done,
        response: response_any(response),
    };
    operation.encode(alloc)
}

/// An Operation.
fn operation(
    alloc: Global,
    number: u64,
    stage: i32,
    action: &WrittenDigest,
    done: bool,
    response: Option<&[u8]>,
) -> Result<Vec<u8>, AllocError>
    ensures { IfOk result (λ text. text.items ≡ operation_text number stage
        (written_shown action.now) done (option_map (λ r. r.now) response.entry)) }
{
    let name = name(alloc, number)?;
    let metadata = metadata(alloc, stage, action)?;
    operation_of(alloc, &name, &metadata, done, response)
}

/// The Operation of an execution that has not ended.
pub fn unfinished(
    alloc: Global,
    number: u64,
    stage: ExecutionStage,
    action: &Digest,
) -> Result<Vec<u8>, AllocError>
    requires { action.now.size < 2 ^ 63 }
    ensures { IfOk result (λ text. text.items ≡ unfinished_text stage number action.now) }
{
    let action = write_digest(alloc, action)?;
    match stage {
        ExecutionStage::Queued => operation(alloc, number, 2, &action, false, None),
        ExecutionStage::Executing => operation(alloc, number, 3, &action, false, None),
    }
}

/// The response of an execution.
fn response(alloc: Global, key: MapKey, end: End) -> Result<Vec<u8>, AllocError>
    ensures { IfOk result (λ text. text.items ≡ response_text (end_shown end)) }
{
    match end {
        End::Finds(text) => {
            let response = ExecuteResponse {
                result: Some(text),
                cached_result: true,
                status: None,
            };
            response.encode(alloc)
        }
        End::Gives(text) => {
            let response = ExecuteResponse {
                result: Some(text),
                cached_result: false,
                status: None,
            };
            response.encode(alloc)
        }
        End::Fails(fault, missing) => fault_response(alloc, key, fault, &missing),
    }
}

/// The Operation of an execution that has ended.
pub fn completed(
    alloc: Global,
    key: MapKey,
    number: u64,
    action: &Digest,
    end: End,
) -> Result<Vec<u8>, AllocError>
    requires { action.now.size < 2 ^ 63 }
    ensures { IfOk result (λ text. text.items
        ≡ completed_text number action.now (end_shown end)) }
{
    let response = response(alloc, key, end)?;
    let action = write_digest(alloc, action)?;
    operation(alloc, number, 4, &action, true, Some(&response))
}
