//! Messages of the Remote Execution API, v2, and of google.rpc and google.bytestream that it uses:
//! read and written.
//!
//! A message is a type with a `Message` impl, whose `encode` gives the canonical text. Where it has
//! a `Decode` impl too, `decode` gives the meaning of a text. Strings and bytes borrow from the text
//! that was read. Other messages are never read, or crates above read them record by record: what
//! they mean is in `specs/` all the same.
//! Fields have the names of the proto files, but for `data`, which is `content` here. Fields that a
//! type does not name are skipped.
#![tactic(auto)]

mod batches;
mod byte_stream;
mod capabilities;
mod digest;
mod find_missing;
mod laws;
mod status;

pub use batches::{
    BatchReadBlobsResponse, BatchUpdateBlobsRequest, ReadBlobResponse, UpdateBlobRequest,
};
pub use byte_stream::{
    QueryWriteStatusRequest, QueryWriteStatusResponse, ReadRequest, WriteRequest, WriteResponse,
};
pub use capabilities::{
    ActionCacheUpdateCapabilities, CacheCapabilities, ExecutionCapabilities,
    GetCapabilitiesRequest, SemVer, ServerCapabilities,
};
pub use digest::Digest;
pub use find_missing::FindMissingBlobsRequest;
pub use laws::{
    batch_read_blobs_is_read_again, batch_update_blobs_is_read_again, byte_stream_is_read_again,
    capabilities_are_read_again, digests_are_read_again, find_missing_blobs_is_read_again,
    statuses_are_read_again,
};
pub use protobuf_wire::{Decode, Field, Message, MessageError, Pieces, WireError, Writer};
pub use status::{Any, Status};
