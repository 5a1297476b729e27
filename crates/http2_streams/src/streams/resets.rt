//! Streams that end before their time: RST_STREAM (RFC 9113 sections 5.4.2 and 6.4).

ghost use Rattle.std.specs.Prelude.{◌≡◌, ◌≤◌, ◌++◌, ◌∷◌, [], length, IfOk, OnErr};
ghost use Rattle.std.specs.VecDeque.{deque_len, deque_capacity};
ghost use Rattle.http2_streams.specs.Decoding.{Gives};
ghost use Rattle.http2_streams.specs.History.{last_items};
ghost use Rattle.http2_streams.specs.Rules.{cancel_event, stream_error, is_remembered, on_reset};
ghost use Rattle.http2_streams.specs.Step.{after_answer, after_reset, without_stream, with_live};

use crate::event::{Event, StreamEvent};
use crate::fault::ConnectionFault;
use crate::live;
use crate::streams::answers::{PROTOCOL_ERROR, brings, reset_frame};
use crate::streams::{MAX_REMEMBERED, Streams};
use http2_frames::ErrorCode;
use std::collections::VecDeque;

impl Streams {
    pub(super) fn is_remembered(&self, stream: u32) -> bool
        ensures { result ≡ is_remembered self.now stream }
    {
        self.remembered.contains(&stream)
    }

    /// The event that the stream ends before its time, where it is live.
    pub(super) fn cancelled<'a>(&self, stream: u32) -> Event<'a>
        ensures { result ≡ cancel_event self.now stream }
    {
        if live::is_live(&self.live, stream) {
            return Event::Cancel { stream };
        }
        Event::Nothing
    }

    /// Ends the stream by the server's RST_STREAM, and remembers it.
    #[tactic(auto, using(crate::proofs::Rising::removed_rises))]
    pub(super) fn reset(&mut self, stream: u32)
        ensures { self.new ≡ after_reset self.old stream }
    {
        live::remove(&mut self.live, stream);
        remember(&mut self.remembered, stream);
    }

    pub(super) fn stream_error<'a>(&mut self, stream: u32, code: ErrorCode) -> StreamEvent<'a>
        ensures answer { result ≡ stream_error self.old stream code }
        ensures state { self.new ≡ after_reset self.old stream }
    {
        let event = self.cancelled(stream);
        self.reset(stream);
        StreamEvent {
            reset: reset_frame(stream, code),
            ..brings(event)
        }
    }

    #[tactic(auto, using(crate::proofs::Rising::removed_rises))]
    pub(super) fn on_reset<'a>(&mut self, stream: u32) -> Result<StreamEvent<'a>, ConnectionFault>
        ensures answer { Gives result (on_reset self.old stream) }
        ensures state { IfOk result (λ a. self.new
            ≡ after_answer a (with_live self.old (without_stream stream self.old.live))) }
        ensures err { OnErr result (self.new ≡ self.old) }
    {
        if self.is_idle(stream) {
            return Err(PROTOCOL_ERROR);
        }
        let event = self.cancelled(stream);
        live::remove(&mut self.live, stream);
        Ok(brings(event))
    }
}

/// Takes the place of the oldest where there is no room.
fn remember(remembered: &mut VecDeque<u32>, stream: u32)
    requires room { MAX_REMEMBERED ≤ deque_capacity remembered.old }
    requires few { deque_len remembered.old ≤ MAX_REMEMBERED }
    requires count { deque_len remembered.old ≡ length remembered.old.items }
    ensures list { remembered.new.items ≡ last_items MAX_REMEMBERED
        (remembered.old.items ++ stream ∷ []) }
    ensures few { deque_len remembered.new ≤ MAX_REMEMBERED }
    ensures count { deque_len remembered.new ≡ length remembered.new.items }
    ensures room { MAX_REMEMBERED ≤ deque_capacity remembered.new }
{
    if remembered.len() >= MAX_REMEMBERED {
        let _ = remembered.pop_front();
    }
    remembered.push_back_reserved(stream);
}
