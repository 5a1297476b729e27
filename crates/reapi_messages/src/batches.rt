//! BatchUpdateBlobs and BatchReadBlobs of the ContentAddressableStorage service: the messages that
//! are read or written as one value.

ghost use Rattle.std.specs.Prelude.{◌≡◌};

use crate::digest::Digest;
use crate::status::Status;
use protobuf_wire::{
    Decode, Field, Message, MessageError, Pieces, Writer, embedded, int32, octets, put_embedded,
    put_int32, put_octets, put_pieces, put_repeated, put_string,
};
use std::alloc::{AllocError, Global};

/// `build.bazel.remote.execution.v2.BatchUpdateBlobsRequest.Request`.
#[derive(Clone, Copy, Debug)]
pub struct UpdateBlobRequest<'a> {
    pub digest: Option<Digest<'a>>,
    /// The field `data`.
    pub content: &'a [u8],
    /// A number of the enum `Compressor.Value`; 0 is IDENTITY.
    pub compressor: i32,
}

impl Message for UpdateBlobRequest<'_> {
    ghost use Rattle.reapi_messages.specs.Batches.{UpdateBlobRequestValue, update_blob_request_shown, update_blob_request_of, update_blob_request_records};

    ghost Value = { UpdateBlobRequestValue };

    ghost shown = { update_blob_request_shown };

    ghost value_of = { update_blob_request_of };

    ghost records_for = { update_blob_request_records };

    #[tactic(auto, using(crate::proofs::Texts::written_more))]
    fn write(&self, writer: &mut Writer) -> Result<(), AllocError> {
        put_embedded(writer, 1, &self.digest)?;
        put_octets(writer, 2, self.content)?;
        put_int32(writer, 3, self.compressor)
    }
}

impl<'a> Decode<'a> for UpdateBlobRequest<'a> {
    #[tactic(auto, unfolding(crate::specs::Batches::update_blob_request_of))]
    fn of_fields(alloc: Global, fields: &[Field<'a>]) -> Result<Self, MessageError> {
        Ok(UpdateBlobRequest {
            digest: embedded(alloc, fields, 1)?,
            content: octets(fields, 2),
            compressor: int32(fields, 3),
        })
    }
}

/// `build.bazel.remote.execution.v2.BatchUpdateBlobsRequest`.
#[derive(Drop, Debug)]
pub struct BatchUpdateBlobsRequest<'a> {
    pub instance_name: &'a str,
    pub requests: Vec<UpdateBlobRequest<'a>>,
    /// A number of the enum `DigestFunction.Value`; 0 where it is not set.
    pub digest_function: i32,
}

impl Message for BatchUpdateBlobsRequest<'_> {
    ghost use Rattle.reapi_messages.specs.Batches.{BatchUpdateBlobsRequestValue, batch_update_blobs_request_shown, batch_update_blobs_request_of, batch_update_blobs_request_records};

    ghost Value = { BatchUpdateBlobsRequestValue };

    ghost shown = { batch_update_blobs_request_shown };

    ghost value_of = { batch_update_blobs_request_of };

    ghost records_for = { batch_update_blobs_request_records };

    #[tactic(auto, using(crate::proofs::Texts::written_more))]
    fn write(&self, writer: &mut Writer) -> Result<(), AllocError> {
        put_string(writer, 1, self.instance_name)?;
        put_repeated(writer, 2, &self.requests)?;
        put_int32(writer, 5, self.digest_function)
    }
}

/// `build.bazel.remote.execution.v2.BatchReadBlobsResponse.Response`.
#[derive(Drop, Debug)]
pub struct ReadBlobResponse<'a> {
    pub digest: Option<Digest<'a>>,
    /// The field `data`.
    pub content: Pieces<'a>,
    pub status: Option<Status<'a>>,
}

impl Message for ReadBlobResponse<'_> {
    ghost use Rattle.reapi_messages.specs.Batches.{ReadBlobResponseValue, read_blob_response_shown, read_blob_response_of, read_blob_response_records};

    ghost Value = { ReadBlobResponseValue };

    ghost shown = { read_blob_response_shown };

    ghost value_of = { read_blob_response_of };

    ghost records_for = { read_blob_response_records };

    #[tactic(auto, using(crate::proofs::Texts::written_more))]
    fn write(&self, writer: &mut Writer) -> Result<(), AllocError> {
        put_embedded(writer, 1, &self.digest)?;
        put_pieces(writer, 2, &self.content)?;
        put_embedded(writer, 3, &self.status)
    }
}

/// `build.bazel.remote.execution.v2.BatchReadBlobsResponse`.
#[derive(Drop, Debug)]
pub struct BatchReadBlobsResponse<'a> {
    pub responses: Vec<ReadBlobResponse<'a>>,
}

impl Message for BatchReadBlobsResponse<'_> {
    ghost use Rattle.reapi_messages.specs.Batches.{BatchReadBlobsResponseValue, batch_read_blobs_response_shown, batch_read_blobs_response_of, batch_read_blobs_response_records};

    ghost Value = { BatchReadBlobsResponseValue };

    ghost shown = { batch_read_blobs_response_shown };

    ghost value_of = { batch_read_blobs_response_of };

    ghost records_for = { batch_read_blobs_response_records };

    #[tactic(auto, using(crate::proofs::Texts::written_more))]
    fn write(&self, writer: &mut Writer) -> Result<(), AllocError> {
        put_repeated(writer, 1, &self.responses)
    }
}
