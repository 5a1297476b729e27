//! Read, Write and QueryWriteStatus of google.bytestream.ByteStream.

ghost use Rattle.std.specs.Prelude.{◌≡◌};

use protobuf_wire::{
    Decode, Field, Message, MessageError, Writer, flag, int64, octets, put_flag, put_int64,
    put_octets, put_string, string,
};
use std::alloc::{AllocError, Global};

/// `google.bytestream.ReadRequest`.
#[derive(Clone, Copy, Debug)]
pub struct ReadRequest<'a> {
    pub resource_name: &'a str,
    /// The first byte to be sent.
    pub read_offset: i64,
    /// The most bytes to be sent; 0 is no limit.
    pub read_limit: i64,
}

impl Message for ReadRequest<'_> {
    ghost use Rattle.reapi_messages.specs.ByteStream.{ReadRequestValue, read_request_shown, read_request_of, read_request_records};

    ghost Value = { ReadRequestValue };

    ghost shown = { read_request_shown };

    ghost value_of = { read_request_of };

    ghost records_for = { read_request_records };

    #[tactic(auto, using(crate::proofs::Texts::written_more))]
    fn write(&self, writer: &mut Writer) -> Result<(), AllocError> {
        put_string(writer, 1, self.resource_name)?;
        put_int64(writer, 2, self.read_offset)?;
        put_int64(writer, 3, self.read_limit)
    }
}

impl<'a> Decode<'a> for ReadRequest<'a> {
    #[tactic(auto, unfolding(crate::specs::ByteStream::read_request_of))]
    fn of_fields(_alloc: Global, fields: &[Field<'a>]) -> Result<Self, MessageError> {
        Ok(ReadRequest {
            resource_name: string(fields, 1)?,
            read_offset: int64(fields, 2),
            read_limit: int64(fields, 3),
        })
    }
}

/// `google.bytestream.WriteRequest`.
#[derive(Clone, Copy, Debug)]
pub struct WriteRequest<'a> {
    /// Empty, or the same as before, in a request that is not the first of its stream.
    pub resource_name: &'a str,
    /// Where the content goes in the whole upload.
    pub write_offset: i64,
    /// Whether the content is the upload's last.
    pub finish_write: bool,
    /// The field `data`.
    pub content: &'a [u8],
}

impl Message for WriteRequest<'_> {
    ghost use Rattle.reapi_messages.specs.ByteStream.{WriteRequestValue, write_request_shown, write_request_of, write_request_records};

    ghost Value = { WriteRequestValue };

    ghost shown = { write_request_shown };

    ghost value_of = { write_request_of };

    ghost records_for = { write_request_records };

    #[tactic(auto, using(crate::proofs::Texts::written_more))]
    fn write(&self, writer: &mut Writer) -> Result<(), AllocError> {
        put_string(writer, 1, self.resource_name)?;
        put_int64(writer, 2, self.write_offset)?;
        put_flag(writer, 3, self.finish_write)?;
        put_octets(writer, 10, self.content)
    }
}

impl<'a> Decode<'a> for WriteRequest<'a> {
    #[tactic(auto, unfolding(crate::specs::ByteStream::write_request_of))]
    fn of_fields(_alloc: Global, fields: &[Field<'a>]) -> Result<Self, MessageError> {
        Ok(WriteRequest {
            resource_name: string(fields, 1)?,
            write_offset: int64(fields, 2),
            finish_write: flag(fields, 3),
            content: octets(fields, 10),
        })
    }
}

/// `google.bytestream.WriteResponse`.
#[derive(Clone, Copy, Debug)]
pub struct WriteResponse {
    /// In bytes.
    pub committed_size: i64,
}

impl Message for WriteResponse {
    ghost use Rattle.reapi_messages.specs.ByteStream.{WriteResponseValue, write_response_shown, write_response_of, write_response_records};

    ghost Value = { WriteResponseValue };

    ghost shown = { write_response_shown };

    ghost value_of = { write_response_of };

    ghost records_for = { write_response_records };

    #[tactic(auto, using(crate::proofs::Texts::written_more))]
    fn write(&self, writer: &mut Writer) -> Result<(), AllocError> {
        put_int64(writer, 1, self.committed_size)
    }
}

/// `google.bytestream.QueryWriteStatusRequest`.
#[derive(Clone, Copy, Debug)]
pub struct QueryWriteStatusRequest<'a> {
    pub resource_name: &'a str,
}

impl Message for QueryWriteStatusRequest<'_> {
    ghost use Rattle.reapi_messages.specs.ByteStream.{QueryWriteStatusRequestValue, query_write_status_request_shown, query_write_status_request_of, query_write_status_request_records};

    ghost Value = { QueryWriteStatusRequestValue };

    ghost shown = { query_write_status_request_shown };

    ghost value_of = { query_write_status_request_of };

    ghost records_for = { query_write_status_request_records };

    #[tactic(auto, using(crate::proofs::Texts::written_more))]
    fn write(&self, writer: &mut Writer) -> Result<(), AllocError> {
        put_string(writer, 1, self.resource_name)
    }
}

impl<'a> Decode<'a> for QueryWriteStatusRequest<'a> {
    #[tactic(auto, unfolding(crate::specs::ByteStream::query_write_status_request_of))]
    fn of_fields(_alloc: Global, fields: &[Field<'a>]) -> Result<Self, MessageError> {
        Ok(QueryWriteStatusRequest {
            resource_name: string(fields, 1)?,
        })
    }
}

/// `google.bytestream.QueryWriteStatusResponse`.
#[derive(Clone, Copy, Debug)]
pub struct QueryWriteStatusResponse {
    /// In bytes.
    pub committed_size: i64,
    pub complete: bool,
}

impl Message for QueryWriteStatusResponse {
    ghost use Rattle.reapi_messages.specs.ByteStream.{QueryWriteStatusResponseValue, query_write_status_response_shown, query_write_status_response_of, query_write_status_response_records};

    ghost Value = { QueryWriteStatusResponseValue };

    ghost shown = { query_write_status_response_shown };

    ghost value_of = { query_write_status_response_of };

    ghost records_for = { query_write_status_response_records };

    #[tactic(auto, using(crate::proofs::Texts::written_more))]
    fn write(&self, writer: &mut Writer) -> Result<(), AllocError> {
        put_int64(writer, 1, self.committed_size)?;
        put_flag(writer, 2, self.complete)
    }
}
