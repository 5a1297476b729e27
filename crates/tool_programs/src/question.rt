//! The question, which is the whole that a client sends on a connection of its own.

use hpack::{Field, Position, encode_into};
use http2_frames::{CLIENT_PREFACE, Frame, MAX_FRAME_SIZE, Octets, SettingsList, write_frame};
use protobuf_wire::Message;
use reapi_messages::GetCapabilitiesRequest;
use rpc::Method;
use std::alloc::{AllocError, Global};
use std::io::{self, ErrorKind};

/// The stream of the one call.
pub(crate) const STREAM: u32 = 1;

/// What stands before a gRPC message: no compression, and the length in four bytes.
const PREFIX_LENGTH: usize = 5;

fn field<'a>(name: &'a [u8], value: &'a [u8]) -> Field<'a> {
    Field { name, value }
}

/// The head of the call.
fn head(alloc: Global, authority: &str) -> Result<Vec<u8>, AllocError> {
    let fields = [
        field(b":method", b"POST"),
        field(b":scheme", b"http"),
        field(b":path", Method::GetCapabilities.path()),
        field(b":authority", authority.as_bytes()),
        field(b"content-type", b"application/grpc"),
        field(b"te", b"trailers"),
    ];
    let mut block = Vec::new(alloc);
    encode_into(Position::Later, &fields, &mut block)?;
    Ok(block)
}

/// The message of the call, with its prefix.
fn message(alloc: Global, instance: &str) -> io::Result<Vec<u8>> {
    let request = GetCapabilitiesRequest {
        instance_name: instance,
    };
    let text = request.encode(alloc)?;
    let Ok(length) = u32::try_from(text.len()) else {
        return Err(io::Error::from(ErrorKind::InvalidInput));
    };
    let mut message = Vec::with_capacity(alloc, PREFIX_LENGTH)?;
    message.push(0)?;
    message.extend_from_slice(&length.to_be_bytes())?;
    message.extend_from_slice(&text)?;
    Ok(message)
}

/// The bytes that ask a server what an instance of it can do; none is named by an empty text. Where
/// the name has more than some 16,000 bytes, that is an `InvalidInput`.
pub fn question_bytes(alloc: Global, authority: &str, instance: &str) -> io::Result<Vec<u8>> {
    let head = head(alloc, authority)?;
    let message = message(alloc, instance)?;
    if head.len() > MAX_FRAME_SIZE || message.len() > MAX_FRAME_SIZE {
        return Err(io::Error::from(ErrorKind::InvalidInput));
    }
    let mut bytes = Vec::from_slice(alloc, CLIENT_PREFACE)?;
    let settings = Frame::Settings {
        ack: false,
        settings: SettingsList::new(&[]),
    };
    write_frame(&mut bytes, &settings)?;
    let headers = Frame::Headers {
        stream: STREAM,
        end_stream: false,
        end_headers: true,
        fragment: Octets::new(&head),
    };
    write_frame(&mut bytes, &headers)?;
    let data = Frame::Data {
        stream: STREAM,
        end_stream: true,
        data: Octets::new(&message),
    };
    write_frame(&mut bytes, &data)?;
    Ok(bytes)
}
