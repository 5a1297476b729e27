//! GetTree of the ContentAddressableStorage service.

ghost use Rattle.std.specs.Prelude.{◌≡◌};

use protobuf_wire::{
    Decode, Field, Message, MessageError, Writer, embedded, int32, put_embedded, put_int32,
    put_repeated_octets, put_string, string,
};
use reapi_messages::Digest;
use std::alloc::{AllocError, Global};

/// `build.bazel.remote.execution.v2.GetTreeRequest`.
#[derive(Clone, Copy, Debug)]
pub struct GetTreeRequest<'a> {
    pub instance_name: &'a str,
    pub root_digest: Option<Digest<'a>>,
    /// The most directories of a page; 0 where it is not set.
    pub page_size: i32,
    /// Empty, or the token of a page that was sent before.
    pub page_token: &'a str,
    /// A number of the enum `DigestFunction.Value`; 0 where it is not set.
    pub digest_function: i32,
}

impl Message for GetTreeRequest<'_> {
    ghost use Rattle.tree_messages.specs.GetTree.{GetTreeRequestValue, get_tree_request_shown, get_tree_request_of, get_tree_request_records};

    ghost Value = { GetTreeRequestValue };

    ghost shown = { get_tree_request_shown };

    ghost value_of = { get_tree_request_of };

    ghost records_for = { get_tree_request_records };

    #[tactic(auto, using(crate::proofs::Texts::written_more))]
    fn write(&self, writer: &mut Writer) -> Result<(), AllocError> {
        put_string(writer, 1, self.instance_name)?;
        put_embedded(writer, 2, &self.root_digest)?;
        put_int32(writer, 3, self.page_size)?;
        put_string(writer, 4, self.page_token)?;
        put_int32(writer, 5, self.digest_function)
    }
}

impl<'a> Decode<'a> for GetTreeRequest<'a> {
    #[tactic(auto, unfolding(crate::specs::GetTree::get_tree_request_of))]
    fn of_fields(alloc: Global, fields: &[Field<'a>]) -> Result<Self, MessageError> {
        Ok(GetTreeRequest {
            instance_name: string(fields, 1)?,
            root_digest: embedded(alloc, fields, 2)?,
            page_size: int32(fields, 3),
            page_token: string(fields, 4)?,
            digest_function: int32(fields, 5),
        })
    }
}

/// `build.bazel.remote.execution.v2.GetTreeResponse`.
#[derive(Drop, Debug)]
pub struct GetTreeResponse<'a> {
    /// The texts of `Directory` messages, which are neither read nor changed.
    pub directories: Vec<&'a [u8]>,
    /// Empty on the last page.
    pub next_page_token: &'a str,
}

impl Message for GetTreeResponse<'_> {
    ghost use Rattle.tree_messages.specs.GetTree.{GetTreeResponseValue, get_tree_response_shown, get_tree_response_of, get_tree_response_records};

    ghost Value = { GetTreeResponseValue };

    ghost shown = { get_tree_response_shown };

    ghost value_of = { get_tree_response_of };

    ghost records_for = { get_tree_response_records };

    #[tactic(auto, using(crate::proofs::Texts::written_more))]
    fn write(&self, writer: &mut Writer) -> Result<(), AllocError> {
        put_repeated_octets(writer, 1, &self.directories)?;
        put_string(writer, 2, self.next_page_token)
    }
}
