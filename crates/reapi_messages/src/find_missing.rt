//! FindMissingBlobs of the ContentAddressableStorage service.

ghost use Rattle.std.specs.Prelude.{◌≡◌};

use crate::digest::Digest;
use protobuf_wire::{Message, Writer, put_int32, put_repeated, put_string};
use std::alloc::{AllocError, Global};

/// `build.bazel.remote.execution.v2.FindMissingBlobsRequest`.
#[derive(Drop, Debug)]
pub struct FindMissingBlobsRequest<'a> {
    pub instance_name: &'a str,
    pub blob_digests: Vec<Digest<'a>>,
    /// A number of the enum `DigestFunction.Value`; 0 where it is not set.
    pub digest_function: i32,
}

impl Message for FindMissingBlobsRequest<'_> {
    ghost use Rattle.reapi_messages.specs.FindMissing.{FindMissingBlobsRequestValue, find_missing_blobs_request_shown, find_missing_blobs_request_of, find_missing_blobs_request_records};

    ghost Value = { FindMissingBlobsRequestValue };

    ghost shown = { find_missing_blobs_request_shown };

    ghost value_of = { find_missing_blobs_request_of };

    ghost records_for = { find_missing_blobs_request_records };

    #[tactic(auto, using(crate::proofs::Texts::written_more))]
    fn write(&self, writer: &mut Writer) -> Result<(), AllocError> {
        put_string(writer, 1, self.instance_name)?;
        put_repeated(writer, 2, &self.blob_digests)?;
        put_int32(writer, 3, self.digest_function)
    }
}
