//! What requests ask for, once they passed the tests that each begins with.

ghost use Rattle.cas_service.specs.Answers.{Answers};
ghost use Rattle.execution.specs.Asking.{execute_asked, execute_asked_shown, name_asked};

use crate::asked::Asked;
use cas_service::{CallError, asked_function, check_instance, read_digest};
use execution_messages::{ExecuteRequest, WaitExecutionRequest};
use protobuf_wire::Decode;
use std::alloc::Global;

/// What an `ExecuteRequest` asks for.
#[tactic(auto, unfolding(crate::specs::Asking::execute_asked))]
pub fn execute_asked(alloc: Global, own: &str, message: &[u8]) -> Result<Asked, CallError>
    ensures { Answers execute_asked_shown result (execute_asked own.now message.now) }
{
    let request = ExecuteRequest::decode(alloc, message)?;
    check_instance(own, request.instance_name)?;
    let function = asked_function(request.digest_function)?;
    let action = read_digest(function, &request.action_digest)?;
    Ok(Asked {
        action,
        skips_lookup: request.skip_cache_lookup,
    })
}

/// The name that a `WaitExecutionRequest` asks for.
#[tactic(auto, unfolding(crate::specs::Asking::name_asked))]
pub fn name_asked<'a>(alloc: Global, message: &'a [u8]) -> Result<&'a [u8], CallError>
    ensures { Answers (λ name. name.now) result (name_asked message.now) }
{
    let request = WaitExecutionRequest::decode(alloc, message)?;
    Ok(request.name.as_bytes())
}
