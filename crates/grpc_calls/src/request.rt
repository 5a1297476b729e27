//! The head of a request.

ghost use Rattle.std.specs.Prelude.{◌≡◌, codes};
ghost use Rattle.std.specs.Str.{bytes_eq};
ghost use Rattle.std.specs.List.{list_any};
ghost use Rattle.grpc_calls.specs.Requests.{head_of, is_grpc_type};
ghost use Rattle.grpc_calls.specs.Responses.{response_to};

use crate::response::ResponseBlock;
use hpack::{HeaderField, Headers};
use rpc::{Method, Refusal};

/// Why a request is no call.
#[derive(Clone, Copy, Debug, PartialEq, Eq)]
pub enum HeadFault {
    /// Its method is not POST.
    Method,
    /// No content type of it begins `application/grpc`.
    ContentType,
    /// Its path names no known method.
    Path,
}

impl HeadFault {
    /// The whole response to such a request.
    pub fn response(self) -> ResponseBlock
        ensures { result ≡ response_to self }
    {
        match self {
            HeadFault::Method => ResponseBlock::MethodNotAllowed,
            HeadFault::ContentType => ResponseBlock::UnsupportedMediaType,
            HeadFault::Path => ResponseBlock::TrailersOnly(Refusal::UnknownMethod),
        }
    }
}

/// The method that a request calls, or the first reason why it calls none. Other fields are not
/// looked at.
pub fn head(headers: &Headers) -> Result<Method, HeadFault>
    ensures { result ≡ head_of headers.now }
{
    match headers.find(b":method") {
        Some(method) if method == b"POST".as_slice() => {}
        _ => return Err(HeadFault::Method),
    }
    if !has_grpc_type(headers) {
        return Err(HeadFault::ContentType);
    }
    match headers.find(b":path") {
        Some(path) => Method::from_path(path).ok_or(HeadFault::Path),
        None => Err(HeadFault::Path),
    }
}

fn is_content_type(field: &HeaderField<'_>) -> bool
    ensures { result ≡ bytes_eq field.now.name (codes "content-type") }
{
    field.name() == b"content-type".as_slice()
}

fn is_grpc_type(field: &HeaderField<'_>) -> bool
    ensures { result ≡ is_grpc_type field.now }
{
    is_content_type(field) && field.value().starts_with(b"application/grpc")
}

fn has_grpc_type(headers: &Headers) -> bool
    ensures { result ≡ list_any is_grpc_type headers.now }
{
    let mut left = headers.iter();
    'fields: while let Some(field) = left.next() {
        if is_grpc_type(&field) {
            return true;
        }
    }
    false
}
