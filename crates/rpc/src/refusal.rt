//! Why a call is refused, and the status that says so.

ghost use Rattle.std.specs.Prelude.{◌≡◌, pos};
ghost use Rattle.rpc.specs.Status.{code_of, text_of};

/// Why a call, or one blob of a batch, is refused.
#[derive(Clone, Copy, Debug, PartialEq, Eq)]
pub enum Refusal {
    /// The path names no known method, or one that is not served.
    UnknownMethod,
    /// A message's flag says that it is compressed.
    CompressedMessage,
    /// A message is longer than 4,194,304 bytes.
    MessageTooLarge,
    /// The request ends inside a message.
    MessageCutOff,
    /// The request ends without a message.
    NoMessage,
    /// A method that takes one message was sent another.
    MoreThanOneMessage,
    /// The message does not read as the method's request.
    MalformedMessage,
    /// The instance name is neither empty nor the connection's own.
    UnknownInstance,
    /// The digest function is neither unset nor SHA-256 or SHA-512.
    UnsupportedDigestFunction,
    /// The compressor is not the identity.
    UnsupportedCompressor,
    /// The hash is neither 64 nor 128 lower-case hexadecimal digits, it is by another function than
    /// the call names, or the size is negative.
    BadDigest,
    /// The blobs of a batch have more than 4,000,000 bytes together.
    BatchTooLarge,
    /// The bytes are not those that the digest names.
    DigestDoesNotMatch,
    /// A blob is longer than the instance's quota.
    QuotaExceeded,
    /// There is no blob of the digest.
    BlobNotFound,
    /// The resource name has not the form, or is another than the one that the `Write` began with.
    BadResourceName,
    /// The limit of a `Read` is negative.
    NegativeLimit,
    /// The offset of a `Read` is negative or past the blob's size.
    OffsetOutOfRange,
    /// The bytes of a `Write` do not begin where the upload so far ends, or the upload is gone.
    WrongOffset,
    /// The instance has 64 unfinished uploads.
    TooManyUploads,
    /// There is no such upload.
    UploadNotFound,
    /// The size of a page is negative, or its token is no place of the list.
    BadPage,
    /// The root of a tree is no directory that a file system can have.
    BadDirectory,
    /// A tree has more than 10,000 directories.
    TreeTooLarge,
    /// There is no complete result of the action.
    NoResult,
    /// The instance runs no actions.
    ExecutionIsOff,
    /// As many actions wait as may, or no number is left for another.
    QueueFull,
    /// No execution of the instance has the name, or it ended too long ago.
    UnknownOperation,
}

impl Refusal {
    /// The gRPC status code.
    pub fn code(self) -> i32
        ensures { result ≡ pos (code_of self) }
    {
        match self {
            Refusal::MessageTooLarge
            | Refusal::QuotaExceeded
            | Refusal::TooManyUploads
            | Refusal::TreeTooLarge
            | Refusal::QueueFull => 8,
            Refusal::UnknownInstance
            | Refusal::BlobNotFound
            | Refusal::UploadNotFound
            | Refusal::NoResult
            | Refusal::UnknownOperation => 5,
            Refusal::OffsetOutOfRange => 11,
            Refusal::UnknownMethod | Refusal::CompressedMessage | Refusal::ExecutionIsOff => 12,
            Refusal::MessageCutOff => 13,
            Refusal::NoMessage
            | Refusal::MoreThanOneMessage
            | Refusal::MalformedMessage
            | Refusal::UnsupportedDigestFunction
            | Refusal::UnsupportedCompressor
            | Refusal::BadDigest
            | Refusal::BatchTooLarge
            | Refusal::DigestDoesNotMatch
            | Refusal::BadResourceName
            | Refusal::NegativeLimit
            | Refusal::WrongOffset
            | Refusal::BadPage
            | Refusal::BadDirectory => 3,
        }
    }

    /// The text that goes with the code, as `grpc-message`.
    pub fn text(self) -> &'static str
        ensures { result.now ≡ text_of self }
    {
        match self {
            Refusal::UnknownMethod => "unknown method",
            Refusal::CompressedMessage => "compressed message",
            Refusal::MessageTooLarge => "message too large",
            Refusal::MessageCutOff => "message cut off",
            Refusal::NoMessage => "no message",
            Refusal::MoreThanOneMessage => "more than one message",
            Refusal::MalformedMessage => "malformed message",
            Refusal::UnknownInstance => "unknown instance",
            Refusal::UnsupportedDigestFunction => "unsupported digest function",
            Refusal::UnsupportedCompressor => "unsupported compressor",
            Refusal::BadDigest => "bad digest",
            Refusal::BatchTooLarge => "batch too large",
            Refusal::DigestDoesNotMatch => "digest does not match",
            Refusal::QuotaExceeded => "quota exceeded",
            Refusal::BlobNotFound => "blob not found",
            Refusal::BadResourceName => "bad resource name",
            Refusal::NegativeLimit => "negative limit",
            Refusal::OffsetOutOfRange => "offset out of range",
            Refusal::WrongOffset => "wrong offset",
            Refusal::TooManyUploads => "too many uploads",
            Refusal::UploadNotFound => "upload not found",
            Refusal::BadPage => "bad page",
            Refusal::BadDirectory => "bad directory",
            Refusal::TreeTooLarge => "tree too large",
            Refusal::NoResult => "no result",
            Refusal::ExecutionIsOff => "execution is off",
            Refusal::QueueFull => "queue full",
            Refusal::UnknownOperation => "unknown operation",
        }
    }
}
