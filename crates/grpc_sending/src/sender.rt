//! Sending on one connection.

ghost use Rattle.std.specs.Prelude.{◌≡◌, ◌≤◌, ◌<◌, ◌+◌, ◌-◌, ◌++◌, ◌∷◌, ◌↔◌, [], ℕ, List, true, false, IsTrue, IfOk, OnOk, OnErr, MatchOption, length, take, drop, Some, None};
ghost use Rattle.http2_frames.specs.Writing.{raw_of, text_of};
ghost use Rattle.http2_frames.specs.declared.frame.Frame.TheVariants.{Data, RstStream};
ghost use Rattle.http2_streams.specs.History.{Entry, Out, Took, is_not_closed, has_failed};
ghost use Rattle.digest.specs.declared.Digest.{Digest};
ghost use Rattle.http2_streams.specs.Sending.{LeavesOthers};
ghost use Rattle.http2_streams.specs.StandsFor.{AreStreams};
ghost use Rattle.grpc_messages.specs.Wire.{message_length_limit};
ghost use Rattle.grpc_sending.specs.Bytes.{most_untaken};
ghost use Rattle.grpc_sending.specs.Contents.{content_bytes};
ghost use Rattle.grpc_sending.specs.Owed.{OwedItem, Headed, Message, Range, owed_with_item};
ghost use Rattle.grpc_sending.specs.Pump.{history_after_pump, next_frames};
ghost use Rattle.grpc_sending.specs.StoredSending.{Tells, PumpsEnded, AddsNothing, AddsToLive, Enters, DropsClosed, DropsAll, Owes, OwesRange, IsAtRest, PumpsStreams, PumpsSending, KeepsFit, KeepsFitWith, SourceTexts, StoredSending, IsStoredSending, QueuesEndWithin, EndsWithinText, KeepsSources, HoldsMore, HasFewSources, new_stored_sending, sending_in, sources_of, stored_on};
ghost use Rattle.grpc_sending.specs.SendingSteps.{EndsBy, IsDoneBelow, KeepsOthers, PutsBy, ResetsBy, FinishesBy, front_bytes, front_frame};
ghost use Rattle.grpc_sending.specs.SortedQueues.{AreSorted};
ghost use Rattle.grpc_sending.specs.Step.{Puts, Rests, IsControl, Finishes, Resets};
ghost use Rattle.http2_frames.specs.declared.reader.TheConstants.{MAX_FRAME_SIZE};

use crate::backlog::Backlog;
use crate::buffer::{CAPACITY, OutBuffer};
use crate::content::Content;
use crate::parts::Parts;
use crate::piece::{EncodedBlock, FramedMessage, StoredPiece};
use crate::queue::{self, StoredQueue};
use crate::range::Cursor;
use crate::turn::{Due, next_due};
use grpc_calls::ResponseBlock;
use hpack::Position;
use http2_frames::{ErrorCode, Frame, HEADER_LENGTH, payload_length};
use http2_streams::Streams;
use std::alloc::{AllocError, Global};
use std::marker::Model;
use std::rc::Rc;

/// The pump puts more while fewer bytes than these are untaken.
pub const PUMP_LIMIT: usize = 65_536;

/// The most untaken bytes with a control frame other than GOAWAY, for which there is always room
/// then.
pub const CONTROL_LIMIT: usize = 131_055;

/// What is sent on one connection: the bytes that were put and not taken, and what is owed to each
/// stream.
pub struct Sender {
    buffer: OutBuffer,
    position: Position,
    backlog: Backlog,
}

// Written out, so that no crate above proves again that each part of it may be dropped.
impl Drop for Sender {
    fn drop(self) {
        let Sender {
            buffer,
            backlog,
            position: _,
        } = self;
        drop(buffer);
        drop(backlog);
    }
}

impl Model for Sender {
    ghost use Rattle.grpc_sending.specs.StoredSending.{StoredSending};

    ghost Value = { StoredSending };

    ghost view = { λ s. record {
      pending = s.buffer;
      position = s.position;
      queues = s.backlog.queues;
      spent = s.backlog.spent;
    } };
}

impl Sender {
    /// Takes the room for all bytes that can wait.
    pub fn new(alloc: Global) -> Result<Sender, AllocError>
        ensures stands { IfOk result (λ s. (texts : SourceTexts) → IsStoredSending texts s [] []) }
        ensures kept { IfOk result (λ s. s ≡ new_stored_sending) }
    {
        Ok(Sender {
            buffer: OutBuffer::new(alloc)?,
            position: Position::First,
            backlog: Backlog::new(alloc),
        })
    }

    /// The bytes that were put and not taken.
    pub fn pending(&self) -> &[u8]
        ensures bytes { result.now ≡ self.now.pending }
        ensures room { length result.now ≤ most_untaken }
    {
        self.buffer.as_slice()
    }

    /// The sources that it holds, each as often as it is held: until `spent` tells it.
    pub fn sources(&self) -> Result<Vec<usize>, AllocError>
        ensures { IfOk result (λ sources. sources.items ≡ sources_of self.now) }
    {
        self.backlog.sources()
    }

    /// The peer took so many of them.
    pub fn took(&mut self, count: usize)
        requires { count ≤ length self.old.pending }
        ensures stands { Enters self.old (Took count) self.new }
        ensures rest { self.new ≡ record self.old { pending = drop count self.old.pending } }
    {
        self.buffer.take_off(count);
    }

    /// Whether a control frame other than GOAWAY may be put.
    pub fn has_room(&self, frame: &Frame<'_>) -> bool
        requires { length (raw_of frame.now).payload ≤ MAX_FRAME_SIZE }
        ensures { IsTrue result ↔ ((length self.now.pending +
            (HEADER_LENGTH + length (raw_of frame.now).payload)) ≤ CONTROL_LIMIT) }
    {
        // Behind a GOAWAY more than CONTROL_LIMIT may be pending: then nothing has room.
        HEADER_LENGTH + payload_length(frame)
            <= CONTROL_LIMIT - self.buffer.len().min(CONTROL_LIMIT)
    }

    /// Puts a control frame.
    pub fn put_control(&mut self, frame: &Frame<'_>)
        requires control { IsControl frame.now }
        requires short { length (raw_of frame.now).payload ≤ MAX_FRAME_SIZE }
        requires room { length self.old.pending
            + (HEADER_LENGTH + length (raw_of frame.now).payload) ≤ CAPACITY }
        ensures stands { Enters self.old (Out frame.now) self.new }
        ensures pending { self.new.pending ≡ self.old.pending ++ text_of frame.now }
        ensures size { length self.new.pending
            ≡ length self.old.pending + (HEADER_LENGTH + length (raw_of frame.now).payload) }
        ensures rest { self.new ≡ record self.old { pending = self.new.pending } }
    {
        self.buffer.put(frame);
    }

    /// A stream was reset by one of the two sides: what it is owed is dropped, and the sources of
    /// its ranges are spent.
    pub fn forget(&mut self, stream: u32)
        ensures stands { DropsClosed stream self.old self.new }
        ensures dropped { stored_on stream self.new.queues ≡ [] }
        ensures none { AddsNothing self.old self.new }
        ensures fit { KeepsFit self.old self.new }
        ensures sources { KeepsSources self.old self.new }
        ensures pending { self.new.pending ≡ self.old.pending }
    {
        self.backlog.forget(stream);
    }

    /// The connection met an error, or is closed: all that is owed is dropped, and the sources of
    /// all ranges are spent.
    pub fn forget_all(&mut self)
        ensures stands { DropsAll self.old self.new }
        ensures dropped { self.new.queues ≡ [] }
        ensures sources { KeepsSources self.old self.new }
        ensures pending { self.new.pending ≡ self.old.pending }
    {
        self.backlog.forget_all();
    }

    /// Tells a source whose range is over: it was wholly put, or its stream ended before that. Each
    /// is told once for each range that was owed of it. What is still to be put stands in rising
    /// order of streams.
    pub fn spent(&mut self) -> Option<usize>
        ensures source { Tells result self.old.spent self.new.spent }
        ensures none { result ≡ None → self.new ≡ self.old }
        ensures sorted { AreSorted self.new.queues }
        ensures rest { self.new ≡ record self.old { spent = self.new.spent } }
    {
        self.backlog.pop_spent()
    }

    /// Owes a header block to the stream, where it is live. An error changes nothing.
    pub fn owe_block(
        &mut self,
        streams: &Streams,
        stream: u32,
        block: ResponseBlock,
    ) -> Result<(), AllocError>
        ensures ok { OnOk result (Owes streams.now stream (Headed block) self.old self.new) }
        ensures fit { KeepsFit self.old self.new }
        ensures none { AddsToLive streams.now self.old self.new }
        ensures sources { KeepsSources self.old self.new }
        ensures pending { self.new.pending ≡ self.old.pending }
        ensures err { OnErr result (self.new ≡ self.old) }
    {
        if streams.has_failed() || !streams.is_live(stream) {
            return Ok(());
        }
        let block = EncodedBlock::new(self.backlog.allocator(), block)?;
        self.backlog.push(stream, StoredPiece::Encoded(block))
    }

    /// Owes a message to the stream, where it is live. An error changes nothing.
    pub fn owe_message(
        &mut self,
        streams: &Streams,
        stream: u32,
        message: Vec<u8>,
    ) -> Result<(), AllocError>
        requires { length message.items < message_length_limit }
        ensures ok { OnOk result (Owes streams.now stream (Message message.items) self.old
            self.new) }
        ensures fit { KeepsFit self.old self.new }
        ensures none { AddsToLive streams.now self.old self.new }
        ensures sources { KeepsSources self.old self.new }
        ensures pending { self.new.pending ≡ self.old.pending }
        ensures err { OnErr result (self.new ≡ self.old) }
    {
        self.owe_content(streams, stream, Content::Own(message))
    }

    /// Owes a message that may be owed to other streams, too, as `owe_message` does. All that are
    /// owed it share its bytes, on whatever connection they are.
    pub fn owe_shared(
        &mut self,
        streams: &Streams,
        stream: u32,
        message: Rc<Vec<u8>>,
    ) -> Result<(), AllocError>
        requires { length message.value.items < message_length_limit }
        ensures ok { OnOk result (Owes streams.now stream (Message message.value.items) self.old
            self.new) }
        ensures fit { KeepsFit self.old self.new }
        ensures none { AddsToLive streams.now self.old self.new }
        ensures sources { KeepsSources self.old self.new }
        ensures pending { self.new.pending ≡ self.old.pending }
        ensures err { OnErr result (self.new ≡ self.old) }
    {
        self.owe_content(streams, stream, Content::Shared(message))
    }

    fn owe_content(
        &mut self,
        streams: &Streams,
        stream: u32,
        message: Content,
    ) -> Result<(), AllocError>
        requires { length (content_bytes message) < message_length_limit }
        ensures ok { OnOk result (Owes streams.now stream (Message (content_bytes message)) self.old
            self.new) }
        ensures fit { KeepsFit self.old self.new }
        ensures none { AddsToLive streams.now self.old self.new }
        ensures sources { KeepsSources self.old self.new }
        ensures pending { self.new.pending ≡ self.old.pending }
        ensures err { OnErr result (self.new ≡ self.old) }
    {
        if streams.has_failed() || !streams.is_live(stream) {
            return Ok(());
        }
        let message = FramedMessage::new(message);
        self.backlog.push(stream, StoredPiece::Framed(message))
    }

    /// Owes the bytes from a place until another of a source's text to the stream, where it is
    /// live: as messages ReadResponse, each with 65,536 of them and the last with the rest. The
    /// source is held from then on until `spent` tells it, once; where nothing is to be put that is
    /// at once. An error changes nothing.
    pub fn owe_range(
        &mut self,
        streams: &Streams,
        stream: u32,
        source: usize,
        from: u64,
        until: u64,
    ) -> Result<(), AllocError>
        requires { from ≤ until }
        ensures ok { OnOk result (OwesRange streams.now stream source from until self.old
            self.new) }
        ensures fit { KeepsFitWith source until self.old self.new }
        ensures none { AddsToLive streams.now self.old self.new }
        ensures sources { OnOk result (HoldsMore source self.old self.new) }
        ensures few { OnOk result (HasFewSources self.new) }
        ensures pending { self.new.pending ≡ self.old.pending }
        ensures err { OnErr result (self.new ≡ self.old) }
    {
        if from == until || streams.has_failed() || !streams.is_live(stream) {
            return self.backlog.spend(source);
        }
        let range = Cursor {
            source,
            from,
            until,
            put: 0,
        };
        self.backlog.push_range(stream, range)
    }

    /// Puts all that can be put.
    #[tactic(auto, using(crate::proofs::Done::done_at_start))]
    pub fn pump<P: Parts>(&mut self, streams: &mut Streams, parts: &P)
        requires fit { QueuesEndWithin (P.text_of parts.now) self.old.queues }
        ensures streams { PumpsStreams (P.text_of parts.now) streams.old self.old streams.new }
        ensures sending { PumpsSending (P.text_of parts.now) streams.old self.old self.new }
        ensures rests { IsAtRest streams.new self.new }
        ensures ended { PumpsEnded (P.text_of parts.now) streams.old self.old self.new }
        ensures none { AddsNothing self.old self.new }
        ensures fit { KeepsFit self.old self.new }
        ensures sources { KeepsSources self.old self.new }

        // A GOAWAY has room after it.
        ensures room { length self.old.pending ≤ CONTROL_LIMIT →
            length self.new.pending ≤ CONTROL_LIMIT }
    {
        // Where the last turn was. It changed nothing for the streams below, which had no turn.
        let mut from = 0;
        'turns: while self.put_next(streams, parts, &mut from) {}
    }

    /// Puts what comes next, if anything can be put. On the streams below `from` nothing can, and
    /// neither on those below the stream of this turn, where `from` is then.
    fn put_next<P: Parts>(&mut self, streams: &mut Streams, parts: &P, from: &mut u32) -> bool
        requires fit { QueuesEndWithin (P.text_of parts.now) self.old.queues }
        requires done { IsDoneBelow from.old streams.old self.old }
        ensures puts { IsTrue result → PutsBy
            (P.text_of parts.now) streams.old self.old streams.new self.new }
        ensures grows { IsTrue result → ((length self.old.pending < length self.new.pending)
            × (length self.old.pending < PUMP_LIMIT)) }
        ensures room { IsTrue result → length self.new.pending ≤ CONTROL_LIMIT }
        ensures rests { result ≡ false → IsAtRest streams.old self.old }
        ensures streams { result ≡ false → streams.new ≡ streams.old }
        ensures same { result ≡ false → self.new ≡ self.old }
        ensures ended { IsTrue result → EndsBy (P.text_of parts.now) streams.old self.old
            self.new }
        ensures none { AddsNothing self.old self.new }
        ensures fit { KeepsFit self.old self.new }
        ensures sources { KeepsSources self.old self.new }
        ensures done { IsTrue result → IsDoneBelow from.new streams.new self.new }
    {
        if streams.has_failed() || self.buffer.len() >= PUMP_LIMIT {
            return false;
        }
        match next_due(self.backlog.queues(), streams, *from) {
            None => false,
            Some(
                Due::Opens {
                    stream,
                    block,
                    ended_by_client,
                },
            ) => {
                *from = stream;
                let is_last = block.is_last();
                self.buffer
                    .put_block(stream, is_last, self.position, block.as_slice());
                self.position = Position::Later;
                streams.on_headers_put(stream, is_last);
                self.backlog.remove_first(stream);
                if is_last {
                    self.finish(streams, stream, ended_by_client);
                }
                true
            }
            Some(Due::Gives { stream, count }) => {
                *from = stream;
                put_content(
                    &mut self.buffer,
                    self.backlog.queues(),
                    stream,
                    count,
                    parts,
                );
                streams.on_data_put(stream, count as u32, false);
                self.backlog.take_off(stream, count);
                true
            }
        }
    }

    /// The last block of a response was put on the stream: nothing follows but, where the client
    /// has not ended the stream, RST_STREAM (RFC 9113 section 8.1).
    fn finish(&mut self, streams: &mut Streams, stream: u32, ended_by_client: bool)
        requires { length self.old.pending + (HEADER_LENGTH + 4) ≤ CAPACITY }
        ensures finishes { FinishesBy streams.old self.old stream ended_by_client streams.new
            self.new }
        ensures dropped { stored_on stream self.new.queues ≡ [] }
        ensures none { AddsNothing self.old self.new }
        ensures fit { KeepsFit self.old self.new }
        ensures sources { KeepsSources self.old self.new }
        ensures grows { length self.old.pending ≤ length self.new.pending }
        ensures size { length self.new.pending ≤ length self.old.pending + (HEADER_LENGTH + 4) }
        ensures streams { LeavesOthers stream streams.old streams.new }
        ensures queues { KeepsOthers stream self.old.queues self.new.queues }
    {
        if ended_by_client {
            self.backlog.forget(stream);
            return;
        }
        self.put_reset(streams, stream);
        self.backlog.forget(stream);
    }

    fn put_reset(&mut self, streams: &mut Streams, stream: u32)
        requires { length self.old.pending + (HEADER_LENGTH + 4) ≤ CAPACITY }
        ensures stands { ResetsBy streams.old self.old stream streams.new self.new }
        ensures none { AddsNothing self.old self.new }
        ensures fit { KeepsFit self.old self.new }
        ensures sources { KeepsSources self.old self.new }
        ensures grows { length self.old.pending ≤ length self.new.pending }
        ensures size { length self.new.pending ≤ length self.old.pending + (HEADER_LENGTH + 4) }
        ensures streams { LeavesOthers stream streams.old streams.new }
        ensures queues { self.new.queues ≡ self.old.queues }
    {
        self.put_control(&no_error(stream));
        streams.on_reset_put(stream);
    }
}

fn no_error(stream: u32) -> Frame<'static>
    ensures { result ≡ RstStream stream 0 }
{
    Frame::RstStream {
        stream,
        error_code: ErrorCode::NoError.number(),
    }
}

/// Puts bytes of what comes first on the stream, of which there are so many.
fn put_content<P: Parts>(
    buffer: &mut OutBuffer,
    queues: &[StoredQueue],
    stream: u32,
    count: usize,
    parts: &P,
)
    requires sorted { AreSorted queues.now }
    requires some { 0 < count }
    requires fit { QueuesEndWithin (P.text_of parts.now) queues.now }
    requires there { count ≤ length (front_bytes (P.text_of parts.now)
        (stored_on stream queues.now)) }
    requires short { count ≤ MAX_FRAME_SIZE }
    requires room { length buffer.old + (HEADER_LENGTH + count) ≤ CAPACITY }
    ensures bytes { buffer.new ≡ buffer.old
        ++ front_frame (P.text_of parts.now) stream count (stored_on stream queues.now) }
    ensures size { length buffer.new ≡ length buffer.old + (HEADER_LENGTH + count) }
{
    let first = queue::first_on(queues, stream);
    match first {
        None => unreachable!(),
        Some(piece) => put_piece(buffer, stream, count, piece, parts),
    }
}

fn put_piece<P: Parts>(
    buffer: &mut OutBuffer,
    stream: u32,
    count: usize,
    piece: &StoredPiece,
    parts: &P,
)
    requires some { 0 < count }
    requires fit { EndsWithinText (P.text_of parts.now) piece.now }
    requires there { count ≤ length (front_bytes (P.text_of parts.now) (piece.now ∷ [])) }
    requires short { count ≤ MAX_FRAME_SIZE }
    requires room { length buffer.old + (HEADER_LENGTH + count) ≤ CAPACITY }
    ensures bytes { buffer.new ≡ buffer.old
        ++ front_frame (P.text_of parts.now) stream count (piece.now ∷ []) }
    ensures size { length buffer.new ≡ length buffer.old + (HEADER_LENGTH + count) }
{
    match piece {
        StoredPiece::Encoded(_) => unreachable!(),
        StoredPiece::Framed(message) => buffer.put_message(stream, count, message),
        StoredPiece::Ranged(range) => buffer.put_range(stream, count, range, parts),
    }
}
