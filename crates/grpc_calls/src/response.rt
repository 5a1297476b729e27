//! The header blocks of a response.

ghost use Rattle.std.specs.Prelude.{◌≡◌, ◌<◌, ◌++◌, Option, OnOk, OnErr, codes, option_map};
ghost use Rattle.std.specs.Fmt.{decimal};
ghost use Rattle.rpc.specs.Status.{code_count, code_of, text_of};
ghost use Rattle.hpack.specs.Encoding.{block_text};
ghost use Rattle.hpack.specs.Shown.{field_shown};
ghost use Rattle.grpc_calls.specs.Responses.{fields_of, is_last, header, percent_encoding, constant_text};

use hpack::{Field, Position, encode_into};
use rpc::Refusal;
use std::alloc::AllocError;

/// The block `:status: 200`, `content-type: application/grpc`.
const HEAD_TEXT: &[u8] = b"\x88\x0f\x10\x10application/grpc";

/// The block `grpc-status: 0`.
const SUCCESS_TEXT: &[u8] = b"\x00\x0bgrpc-status\x010";

/// How a call ends.
#[derive(Clone, Copy, Debug, PartialEq, Eq)]
pub enum Status {
    /// The code OK.
    Success,
    Refused(Refusal),
}

/// What a header block of a response says (gRPC over HTTP2, Responses).
#[derive(Clone, Copy, Debug, PartialEq, Eq)]
pub enum ResponseBlock {
    /// Response-Headers: messages may follow, and then trailers.
    Head,
    /// The end of a response that has a head.
    Trailers(Status),
    /// The whole response, which has no message.
    TrailersOnly(Refusal),
    /// The whole response: the HTTP status 405 (RFC 9110, section 15.5.6).
    MethodNotAllowed,
    /// The whole response: the HTTP status 415 (RFC 9110, section 15.5.16).
    UnsupportedMediaType,
}

impl ResponseBlock {
    /// Whether the block ends its stream.
    pub fn is_last(self) -> bool
        ensures { result ≡ is_last self }
    {
        match self {
            ResponseBlock::Head => false,
            _ => true,
        }
    }

    /// The block as HPACK writes it, where it is not the first of its connection, if it is one of
    /// the two that each call has that succeeds. They are constants, and take no memory.
    pub fn constant_text(self) -> Option<&'static [u8]>
        ensures { option_map (λ text. text.now) result ≡ constant_text self }
    {
        match self {
            ResponseBlock::Head => Some(HEAD_TEXT),
            ResponseBlock::Trailers(status) => match status {
                Status::Success => Some(SUCCESS_TEXT),
                Status::Refused(_) => None,
            },
            _ => None,
        }
    }

    /// Appends the block as HPACK writes it. Where memory is refused the bytes are as before.
    pub fn encode_into(self, position: Position, out: &mut Vec<u8>) -> Result<(), AllocError>
        ensures ok { OnOk result (out.new.items ≡ out.old.items
            ++ block_text position (fields_of self)) }
        ensures err { OnErr result (out.new.items ≡ out.old.items) }
    {
        match self {
            ResponseBlock::Head => {
                encode_into(position, &[http_status(b"200"), content_type()], out)
            }
            ResponseBlock::Trailers(Status::Success) => encode_into(position, &[success()], out),
            ResponseBlock::Trailers(Status::Refused(refusal)) => {
                encode_into(position, &[code(refusal), message(refusal)], out)
            }
            ResponseBlock::TrailersOnly(refusal) => {
                let fields = [
                    http_status(b"200"),
                    content_type(),
                    code(refusal),
                    message(refusal),
                ];
                encode_into(position, &fields, out)
            }
            ResponseBlock::MethodNotAllowed => encode_into(position, &[http_status(b"405")], out),
            ResponseBlock::UnsupportedMediaType => {
                encode_into(position, &[http_status(b"415")], out)
            }
        }
    }
}

fn http_status(value: &[u8]) -> Field<'_>
    ensures { field_shown result ≡ header (codes ":status") value.now }
{
    Field {
        name: b":status",
        value,
    }
}

fn content_type() -> Field<'static>
    ensures { field_shown result ≡ header (codes "content-type") (codes "application/grpc") }
{
    Field {
        name: b"content-type",
        value: b"application/grpc",
    }
}

fn success() -> Field<'static>
    ensures { field_shown result ≡ header (codes "grpc-status") (decimal 0) }
{
    Field {
        name: b"grpc-status",
        value: b"0",
    }
}

#[tactic(auto, using(crate::proofs::Blocks::code_is_known, std::proofs::lemmas::Int::ints))]
fn code(refusal: Refusal) -> Field<'static>
    ensures { field_shown result ≡ header (codes "grpc-status") (decimal (code_of refusal)) }
{
    Field {
        name: b"grpc-status",
        value: code_text(refusal.code() as u8),
    }
}

/// No text of a refusal has a byte that is written otherwise.
fn message(refusal: Refusal) -> Field<'static>
    ensures { field_shown result
        ≡ header (codes "grpc-message") (percent_encoding (text_of refusal)) }
{
    Field {
        name: b"grpc-message",
        value: refusal.text().as_bytes(),
    }
}

/// A code of gRPC in decimal digits.
fn code_text(code: u8) -> &'static [u8]
    requires { code < code_count }
    ensures { result.now ≡ decimal code }
{
    match code {
        0 => b"0",
        1 => b"1",
        2 => b"2",
        3 => b"3",
        4 => b"4",
        5 => b"5",
        6 => b"6",
        7 => b"7",
        8 => b"8",
        9 => b"9",
        10 => b"10",
        11 => b"11",
        12 => b"12",
        13 => b"13",
        14 => b"14",
        15 => b"15",
        // There is no code above 16.
        _ => b"16",
    }
}
