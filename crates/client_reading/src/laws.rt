//! What holds of every past of a connection.

ghost use Rattle.std.specs.Prelude.{◌<◌, ◌^◌, ℕ, List};
ghost use Rattle.std.specs.List.{AllByRecursion};
ghost use Rattle.http2_frames.specs.Reading.{split};
ghost use Rattle.http2_frames.specs.declared.frame.RawFrame.{RawFrame};
ghost use Rattle.grpc_sending.specs.Pieces.{most_read};
ghost use Rattle.conn_core.specs.Past.{Past, new_past, with_frame};
ghost use Rattle.client_reading.specs.Answerable.{CanGoOn, AreAnswerableCalls, AnswersOnStreams};
ghost use Rattle.client_reading.specs.Changes.{PastChange, past_after_change, IsReceivable, IsChange, IsPast};
ghost use Rattle.client_reading.specs.Responses.{read_messages};
ghost use Rattle.client_reading.specs.Ranges.{BringBytes};
ghost use Rattle.client_reading.specs.Reads.{IsReadByClient};

/// Whatever bytes come, the frames that they divide into are frames (RFC 9113 sections 4.1 and
/// 4.2).
pub fn received_frames_are_frames()
    ensures { (preface text : List ℕ) → AllByRecursion IsReceivable (split preface text).items }
{}

/// A connection begins with a past, and each change of one makes another.
pub fn changes_make_pasts()
    ensures opening { (window : ℕ) → IsPast window (new_past window) }
    ensures change { (window : ℕ) (p : Past) (c : PastChange) → IsChange c → IsPast window p →
        IsPast window (past_after_change p c) }
{}

/// All that a client reads of the bytes that were put, whatever the server's windows are, up to
/// 2^31 - 1 bytes: frames as they were meant (RFC 9113),
/// HEADERS and DATA on live streams and within the windows, control frames that were caused, in
/// order, and on each stream a beginning of what was owed to it (RFC 7541 for its header blocks,
/// gRPC over HTTP2 for its messages).
pub fn what_a_client_reads()
    ensures { (window : ℕ) (p : Past) → window < 2 ^ 31 → IsPast window p →
        IsReadByClient window p }
{}

/// The messages that are read of a range bring all its bytes, in order: each is a ReadResponse
/// whose data are 1 to 65,536 of them (bytestream.proto).
pub fn ranges_bring_their_bytes()
    ensures { (bytes : List ℕ) → BringBytes most_read bytes (read_messages bytes) }
{}

/// What a frame brings to calls is on streams that are live after it, and so is a request that is
/// answered at once, unless the call is given up: an answer to it is owed to its stream, and never
/// dropped.
pub fn answers_are_owed()
    ensures calls { (window : ℕ) (p : Past) (f : RawFrame) → IsPast window p → CanGoOn p →
        AreAnswerableCalls (with_frame p f) }
    ensures requests { (window : ℕ) (p : Past) (f : RawFrame) → IsPast window p → CanGoOn p →
        AnswersOnStreams p f }
{}
