//! Header lists: HEADERS and CONTINUATION (RFC 9113 sections 6.2 and 6.10).

ghost use Rattle.std.specs.Prelude.{◌≡◌, ◌<◌, ◌++◌, ◌∷◌, [], length, true, IfOk, OnErr};
ghost use Rattle.std.specs.List.{AllByRecursion};
ghost use Rattle.http2_streams.specs.Decoding.{Gives, list_of_block, list_of_continuation};
ghost use Rattle.http2_streams.specs.HeaderBlock.{new_block};
ghost use Rattle.http2_streams.specs.declared.stream.Stream.{Stream};
ghost use Rattle.http2_streams.specs.Rules.{is_receiving, on_header_list, on_block, on_request, on_trailers};
ghost use Rattle.http2_streams.specs.Step.{after_answer, after_block, after_new_block, after_continuation, after_client_end, with_live, new_stream};

use crate::event::{Event, StreamEvent};
use crate::fault::ConnectionFault;
use crate::header_blocks::HeaderList;
use crate::live;
use crate::stream::{Side, Stream};
use crate::streams::answers::{PROTOCOL_ERROR, brings, nothing};
use crate::streams::{MAX_STREAMS, Streams};
use http2_flow::Window;
use http2_frames::ErrorCode;

impl Streams {
    pub(super) fn on_headers<'a>(
        &mut self,
        stream: u32,
        end_stream: bool,
        end_headers: bool,
        fragment: &[u8],
    ) -> Result<StreamEvent<'a>, ConnectionFault>
        ensures answer { Gives result (on_header_list self.old
            (list_of_block self.old.table end_headers (new_block stream end_stream fragment.now))) }
        ensures state { IfOk result (λ a. self.new
            ≡ after_answer a (after_new_block self.old end_headers
            (new_block stream end_stream fragment.now))) }
        ensures live { OnErr result (self.new.live ≡ self.old.live) }
        ensures highest { OnErr result (self.new.highest ≡ self.old.highest) }
    {
        match self
            .headers
            .begin(stream, end_stream, end_headers, fragment)?
        {
            Some(block) => self.on_block(block),
            None => Ok(nothing()),
        }
    }

    pub(super) fn on_continuation<'a>(
        &mut self,
        end_headers: bool,
        fragment: &[u8],
    ) -> Result<StreamEvent<'a>, ConnectionFault>
        ensures answer { Gives result (on_header_list self.old
            (list_of_continuation self.old.table self.old.unfinished end_headers fragment.now)) }
        ensures state { IfOk result (λ a. self.new
            ≡ after_answer a (after_continuation self.old end_headers fragment.now)) }
        ensures live { OnErr result (self.new.live ≡ self.old.live) }
        ensures highest { OnErr result (self.new.highest ≡ self.old.highest) }
    {
        match self.headers.go_on(end_headers, fragment)? {
            Some(block) => self.on_block(block),
            None => Ok(nothing()),
        }
    }

    /// Takes a whole header block, which was decoded whatever becomes of its stream.
    fn on_block<'a>(&mut self, block: HeaderList) -> Result<StreamEvent<'a>, ConnectionFault>
        ensures answer { Gives result (on_block self.old block) }
        ensures state { IfOk result (λ a. self.new
            ≡ after_answer a (after_block self.old block.stream block.end_stream)) }
        ensures live { OnErr result (self.new.live ≡ self.old.live) }
        ensures highest { OnErr result (self.new.highest ≡ self.old.highest) }
    {
        if block.stream % 2 == 0 {
            return Err(PROTOCOL_ERROR);
        }
        if block.stream > self.highest {
            return Ok(self.on_request(block));
        }
        if live::is_receiving(&self.live, block.stream) {
            return Ok(self.on_trailers(block.stream, block.end_stream));
        }
        if self.is_remembered(block.stream) {
            return Ok(nothing());
        }
        Err(ConnectionFault::Connection(ErrorCode::StreamClosed))
    }

    #[tactic(auto, using(crate::proofs::StreamLists::without_fresh, crate::proofs::Rising::rise_raised))]
    fn on_request<'a>(&mut self, block: HeaderList) -> StreamEvent<'a>
        requires { self.old.highest < block.stream }
        ensures answer { result ≡ on_request self.old block }
        ensures state { self.new ≡ after_answer result
            (after_block self.old block.stream block.end_stream) }
    {
        let HeaderList {
            stream,
            end_stream,
            fields,
        } = block;
        self.highest = stream;
        if self.live.len() >= MAX_STREAMS {
            return self.stream_error(stream, ErrorCode::RefusedStream);
        }
        if !crate::request::is_well_formed_request(&fields) {
            return self.stream_error(stream, ErrorCode::ProtocolError);
        }
        self.open(stream, end_stream);
        brings(Event::Request {
            stream,
            fields,
            end_stream,
        })
    }

    /// Adds a live stream.
    fn open(&mut self, stream: u32, end_stream: bool)
        requires few { length self.old.live < MAX_STREAMS }
        requires above { AllByRecursion (λ (x : Stream). x.number < stream) self.old.live }
        requires highest { self.old.highest ≡ stream }
        ensures { self.new ≡ with_live self.old
            (self.old.live ++ new_stream self.old.initial_window_size stream end_stream ∷ []) }
    {
        let window = Window::new(self.initial_window_size);
        self.live
            .push(Stream {
                number: stream,
                ended_by_client: end_stream,
                ended_by_server: false,
                window,
            })
            .unwrap();
    }

    #[tactic(auto, using(crate::proofs::Rising::ended_rises))]
    fn on_trailers<'a>(&mut self, stream: u32, end_stream: bool) -> StreamEvent<'a>
        requires { is_receiving self.old stream ≡ true }
        ensures answer { result ≡ on_trailers self.old stream end_stream }
        ensures state { self.new ≡ after_answer result
            (after_client_end self.old stream end_stream) }
    {
        if !end_stream {
            return self.stream_error(stream, ErrorCode::ProtocolError);
        }
        live::end_by(&mut self.live, Side::Client, stream);
        brings(Event::Trailers { stream })
    }
}
