//! GetActionResult and UpdateActionResult of the ActionCache service.

ghost use Rattle.std.specs.Prelude.{◌≡◌};

use crate::results::ActionResult;
use protobuf_wire::{
    Decode, Field, Message, MessageError, Writer, embedded, int32, put_embedded, put_int32,
    put_sent, put_string, sent, string,
};
use reapi_messages::Digest;
use std::alloc::{AllocError, Global};

/// `build.bazel.remote.execution.v2.GetActionResultRequest`. The fields that ask for inlined
/// outputs are skipped.
#[derive(Clone, Copy, Debug)]
pub struct GetActionResultRequest<'a> {
    pub instance_name: &'a str,
    pub action_digest: Option<Digest<'a>>,
    /// A number of the enum `DigestFunction.Value`; 0 where it is not set.
    pub digest_function: i32,
}

impl Message for GetActionResultRequest<'_> {
    ghost use Rattle.tree_messages.specs.ActionCache.{GetActionResultRequestValue, get_action_result_request_shown, get_action_result_request_of, get_action_result_request_records};

    ghost Value = { GetActionResultRequestValue };

    ghost shown = { get_action_result_request_shown };

    ghost value_of = { get_action_result_request_of };

    ghost records_for = { get_action_result_request_records };

    #[tactic(auto, using(crate::proofs::Texts::written_more))]
    fn write(&self, writer: &mut Writer) -> Result<(), AllocError> {
        put_string(writer, 1, self.instance_name)?;
        put_embedded(writer, 2, &self.action_digest)?;
        put_int32(writer, 6, self.digest_function)
    }
}

impl<'a> Decode<'a> for GetActionResultRequest<'a> {
    #[tactic(auto, unfolding(crate::specs::ActionCache::get_action_result_request_of))]
    fn of_fields(alloc: Global, fields: &[Field<'a>]) -> Result<Self, MessageError> {
        Ok(GetActionResultRequest {
            instance_name: string(fields, 1)?,
            action_digest: embedded(alloc, fields, 2)?,
            digest_function: int32(fields, 6),
        })
    }
}

/// `build.bazel.remote.execution.v2.UpdateActionResultRequest`.
#[derive(Drop, Debug)]
pub struct UpdateActionResultRequest<'a> {
    pub instance_name: &'a str,
    pub action_digest: Option<Digest<'a>>,
    /// The bytes of the `ActionResult` as they were sent, which can be read as one.
    pub action_result: Option<Vec<u8>>,
    /// A number of the enum `DigestFunction.Value`; 0 where it is not set.
    pub digest_function: i32,
}

impl Message for UpdateActionResultRequest<'_> {
    ghost use Rattle.tree_messages.specs.ActionCache.{UpdateActionResultRequestValue, update_action_result_request_shown, update_action_result_request_of, update_action_result_request_records};

    ghost Value = { UpdateActionResultRequestValue };

    ghost shown = { update_action_result_request_shown };

    ghost value_of = { update_action_result_request_of };

    ghost records_for = { update_action_result_request_records };

    #[tactic(auto, using(crate::proofs::Texts::written_more))]
    fn write(&self, writer: &mut Writer) -> Result<(), AllocError> {
        put_string(writer, 1, self.instance_name)?;
        put_embedded(writer, 2, &self.action_digest)?;
        put_sent(writer, 3, &self.action_result)?;
        put_int32(writer, 5, self.digest_function)
    }
}

impl<'a> Decode<'a> for UpdateActionResultRequest<'a> {
    #[tactic(auto, unfolding(crate::specs::ActionCache::update_action_result_request_of))]
    fn of_fields(alloc: Global, fields: &[Field<'a>]) -> Result<Self, MessageError> {
        Ok(UpdateActionResultRequest {
            instance_name: string(fields, 1)?,
            action_digest: embedded(alloc, fields, 2)?,
            action_result: sent::<ActionResult<'a>>(alloc, fields, 3)?,
            digest_function: int32(fields, 5),
        })
    }
}
