//! The header blocks of responses.

use grpc_calls::{ResponseBlock, Status};
use hpack::Position;
use rpc::Refusal;
use tool_programs::Output;

static REFUSALS: [Refusal; 21] = [
    Refusal::UnknownMethod,
    Refusal::CompressedMessage,
    Refusal::MessageTooLarge,
    Refusal::MessageCutOff,
    Refusal::NoMessage,
    Refusal::MoreThanOneMessage,
    Refusal::MalformedMessage,
    Refusal::UnknownInstance,
    Refusal::UnsupportedDigestFunction,
    Refusal::UnsupportedCompressor,
    Refusal::BadDigest,
    Refusal::BatchTooLarge,
    Refusal::DigestDoesNotMatch,
    Refusal::QuotaExceeded,
    Refusal::BlobNotFound,
    Refusal::BadResourceName,
    Refusal::NegativeLimit,
    Refusal::OffsetOutOfRange,
    Refusal::WrongOffset,
    Refusal::TooManyUploads,
    Refusal::UploadNotFound,
];

static OTHERS: [(&[u8], ResponseBlock); 4] = [
    (b"head", ResponseBlock::Head),
    (b"trailers ok", ResponseBlock::Trailers(Status::Success)),
    (b"405", ResponseBlock::MethodNotAllowed),
    (b"415", ResponseBlock::UnsupportedMediaType),
];

/// Writes a block as it is encoded at a position, behind these bytes.
fn show_encoded(before: &[u8], block: ResponseBlock, position: Position, out: &mut Output) {
    let mut bytes = Vec::new(out.alloc);
    out.expect(block.encode_into(position, &mut bytes));
    out.print(before);
    out.print_hex(&bytes);
}

/// Writes a block, as the first of a connection and as a later one.
fn show_response(block: ResponseBlock, out: &mut Output) {
    show_encoded(b" first ", block, Position::First, out);
    show_encoded(b" later ", block, Position::Later, out);
    out.print(b"\n");
}

/// Writes the two blocks that tell of a refusal.
fn show_refusal(refusal: Refusal, out: &mut Output) {
    let code = refusal.code();
    out.print_text(format!(in out.alloc; "trailers {code}"));
    show_response(ResponseBlock::Trailers(Status::Refused(refusal)), out);
    out.print_text(format!(in out.alloc; "trailers-only {code}"));
    show_response(ResponseBlock::TrailersOnly(refusal), out);
}

/// Writes all blocks of responses.
pub fn responses(out: &mut Output) {
    for (what, block) in &OTHERS {
        out.print(what);
        show_response(*block, out);
    }
    for refusal in &REFUSALS {
        show_refusal(*refusal, out);
    }
}
