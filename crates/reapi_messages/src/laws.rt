//! What reading and writing messages have to do with each other: a message that is written means
//! what it was written for.

ghost use Rattle.protobuf_wire.specs.Again.{AreReadAgain};
ghost use Rattle.reapi_messages.specs.Capabilities.{FitsGetCapabilitiesRequest, FitsServerCapabilities, get_capabilities_request_of, get_capabilities_request_records, server_capabilities_of, server_capabilities_records};
ghost use Rattle.reapi_messages.specs.Digests.{FitsDigest, digest_of, digest_records};
ghost use Rattle.reapi_messages.specs.FindMissing.{FitsFindMissingBlobsRequest, FitsFindMissingBlobsResponse, find_missing_blobs_request_of, find_missing_blobs_request_records, find_missing_blobs_response_of, find_missing_blobs_response_records};
ghost use Rattle.reapi_messages.specs.Statuses.{FitsAny, FitsStatus, any_of, any_records, status_of, status_records};
ghost use Rattle.reapi_messages.specs.Batches.{FitsBatchUpdateBlobsRequest, FitsBatchUpdateBlobsResponse, FitsBatchReadBlobsRequest, FitsBatchReadBlobsResponse, batch_update_blobs_request_of, batch_update_blobs_request_records, batch_update_blobs_response_of, batch_update_blobs_response_records, batch_read_blobs_request_of, batch_read_blobs_request_records, batch_read_blobs_response_of, batch_read_blobs_response_records};
ghost use Rattle.reapi_messages.specs.ByteStream.{FitsReadRequest, FitsReadResponse, FitsWriteRequest, FitsWriteResponse, FitsQueryWriteStatusRequest, FitsQueryWriteStatusResponse, read_request_of, read_request_records, read_response_of, read_response_records, write_request_of, write_request_records, write_response_of, write_response_records, query_write_status_request_of, query_write_status_request_records, query_write_status_response_of, query_write_status_response_records};

/// A digest that is written is read again.
pub fn digests_are_read_again()
    ensures { AreReadAgain digest_of digest_records FitsDigest }
{}

/// FindMissingBlobs: a request and a response that are written are read again.
pub fn find_missing_blobs_is_read_again()
    ensures request { AreReadAgain find_missing_blobs_request_of find_missing_blobs_request_records
        FitsFindMissingBlobsRequest }
    ensures response { AreReadAgain find_missing_blobs_response_of
        find_missing_blobs_response_records FitsFindMissingBlobsResponse }
{}

/// A status and its details that are written are read again.
pub fn statuses_are_read_again()
    ensures any { AreReadAgain any_of any_records FitsAny }
    ensures status { AreReadAgain status_of status_records FitsStatus }
{}

/// BatchUpdateBlobs: a request and a response that are written are read again.
pub fn batch_update_blobs_is_read_again()
    ensures request { AreReadAgain batch_update_blobs_request_of batch_update_blobs_request_records
        FitsBatchUpdateBlobsRequest }
    ensures response { AreReadAgain batch_update_blobs_response_of
        batch_update_blobs_response_records FitsBatchUpdateBlobsResponse }
{}

/// BatchReadBlobs: a request and a response that are written are read again.
pub fn batch_read_blobs_is_read_again()
    ensures request { AreReadAgain batch_read_blobs_request_of batch_read_blobs_request_records
        FitsBatchReadBlobsRequest }
    ensures response { AreReadAgain batch_read_blobs_response_of batch_read_blobs_response_records
        FitsBatchReadBlobsResponse }
{}

/// GetCapabilities: a request and a response that are written are read again.
pub fn capabilities_are_read_again()
    ensures request { AreReadAgain get_capabilities_request_of get_capabilities_request_records
        FitsGetCapabilitiesRequest }
    ensures response { AreReadAgain server_capabilities_of server_capabilities_records
        FitsServerCapabilities }
{}

/// google.bytestream: requests and responses that are written are read again.
pub fn byte_stream_is_read_again()
    ensures read_request { AreReadAgain read_request_of read_request_records FitsReadRequest }
    ensures read_response { AreReadAgain read_response_of read_response_records FitsReadResponse }
    ensures write_request { AreReadAgain write_request_of write_request_records FitsWriteRequest }
    ensures write_response { AreReadAgain write_response_of write_response_records
        FitsWriteResponse }
    ensures query_write_status_request { AreReadAgain query_write_status_request_of
        query_write_status_request_records FitsQueryWriteStatusRequest }
    ensures query_write_status_response { AreReadAgain query_write_status_response_of
        query_write_status_response_records FitsQueryWriteStatusResponse }
{}
