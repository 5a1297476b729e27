//! The bytes of requests.

use crate::limits::directories::Blob;
use protobuf_wire::Message;
use reapi_messages::{BatchUpdateBlobsRequest, UpdateBlobRequest};
use tool_programs::Output;
use tree_messages::{
    ActionResult, GetActionResultRequest, GetTreeRequest, UpdateActionResultRequest,
};

pub fn batch_update(blobs: &[Blob], output: &mut Output) -> Vec<u8> {
    let mut requests = Vec::new(output.alloc);
    for blob in blobs {
        let added = requests.push(UpdateBlobRequest {
            digest: blob.digest(),
            content: &blob.text,
            compressor: 0,
        });
        output.expect(added);
    }
    let request = BatchUpdateBlobsRequest {
        instance_name: "",
        requests,
        digest_function: 0,
    };
    output.bytes(request.encode(output.alloc))
}

pub fn get_tree(root: &Blob, page_size: u64, page_token: &str, output: &mut Output) -> Vec<u8> {
    let request = GetTreeRequest {
        instance_name: "",
        root_digest: root.digest(),
        page_size: i32::try_from(page_size).unwrap_or(0),
        page_token,
        digest_function: 0,
    };
    output.bytes(request.encode(output.alloc))
}

/// A result whose `stdout_raw` are so many zeros.
fn result_of(size: u64, output: &mut Output) -> Vec<u8> {
    let alloc = output.alloc;
    let zeros = output.bytes([0].repeat(alloc, usize::try_from(size).unwrap_or(0)));
    let result = ActionResult {
        output_files: Vec::new(alloc),
        output_directories: Vec::new(alloc),
        exit_code: 0,
        stdout_raw: &zeros,
        stdout_digest: None,
        stderr_raw: b"",
        stderr_digest: None,
    };
    output.bytes(result.encode(alloc))
}

pub fn update_result(action: &Blob, size: u64, output: &mut Output) -> Vec<u8> {
    let request = UpdateActionResultRequest {
        instance_name: "",
        action_digest: action.digest(),
        action_result: Some(result_of(size, output)),
        digest_function: 0,
    };
    output.bytes(request.encode(output.alloc))
}

pub fn get_result(action: &Blob, output: &mut Output) -> Vec<u8> {
    let request = GetActionResultRequest {
        instance_name: "",
        action_digest: action.digest(),
        digest_function: 0,
    };
    output.bytes(request.encode(output.alloc))
}
