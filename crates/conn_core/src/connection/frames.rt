//! A received frame: its answer is put, and what it brings to calls is acted on.

ghost use Rattle.std.specs.Prelude.{◌≡◌, ◌<◌, true, false, OnOk, length};
ghost use Rattle.std.specs.List.{AllByRecursion};
ghost use Rattle.http2_frames.specs.Reader.{HasFrame, text_left};
ghost use Rattle.grpc_sending.specs.StoredSending.{KeepsFit, KeepsSources};
ghost use Rattle.conn_core.specs.StandsFor.{ReadsOneFrame};
ghost use Rattle.conn_core.specs.Step.{TakesFrame, BringsEvent, ChangesCalls};
ghost use Rattle.conn_core.specs.Putting.{Answers};
ghost use Rattle.http2_streams.specs.ControlAnswers.{IsControlAnswer};
ghost use Rattle.http2_streams.specs.Entries.{control_frames};
ghost use Rattle.http2_streams.specs.LiveStreams.{stream_of_event};
ghost use Rattle.http2_streams.specs.declared.event.Event.TheVariants.{Request, Content, Trailers, Cancel};

use crate::call::{begin_call, cancel_call, take_more};
use crate::connection::Connection;
use crate::floods;
use grpc_calls::head;
use hpack::Headers;
use http2_frames::{ErrorCode, FrameReader, RawFrame};
use http2_streams::{ConnectionFault, Event, StreamEvent};
use std::alloc::AllocError;
use std::mem;

impl Connection {
    /// Takes the frame at the front of what is still to be read. The reader lends it, and so is
    /// apart from the rest meanwhile.
    pub(super) fn take_front(&mut self) -> Result<(), AllocError>
        requires alive { self.old.ended ≡ false }
        requires whole { HasFrame self.old.reader }
        ensures frame { OnOk result (ReadsOneFrame self.old true self.new) }
        ensures shorter { OnOk result (length (text_left self.new.reader)
            < length (text_left self.old.reader)) }
        ensures fit { KeepsFit self.old.sending self.new.sending }
        ensures sources { KeepsSources self.old.sending self.new.sending }
    {
        let none = FrameReader::without_preface(*self.calls.allocator());
        let mut reader = mem::replace(&mut self.reader, none);
        let outcome = self.take_frame(&reader.frame());
        reader.pass();
        self.reader = reader;
        outcome
    }

    fn take_frame(&mut self, frame: &RawFrame<'_>) -> Result<(), AllocError>
        requires { self.old.ended ≡ false }
        ensures stands { OnOk result (TakesFrame self.old frame.now self.new) }
        ensures reader { OnOk result (self.new.reader ≡ self.old.reader) }
        ensures fit { KeepsFit self.old.sending self.new.sending }
        ensures sources { KeepsSources self.old.sending self.new.sending }
    {
        self.at_rest = false;
        let resets = floods::resets_live(&self.streams, frame);
        let flood = floods::is_flood(self.reset_count, resets);
        match self.streams.on_frame(frame) {
            Ok(answer) => {
                let count = floods::after_frame(self.reset_count, resets);
                self.reset_count = count;
                self.take_answer(answer, flood)
            }
            Err(ConnectionFault::Connection(code)) => self.fail(code, None),
            Err(ConnectionFault::NoMemory) => Err(AllocError),
        }
    }

    /// Puts the answer to a frame, and acts on what it brought. An answer that does not fit is an
    /// error of the connection, and so is a flood.
    fn take_answer(&mut self, answer: StreamEvent<'_>, flood: bool) -> Result<(), AllocError>
        requires open { self.old.ended ≡ false }
        requires answers { AllByRecursion IsControlAnswer (control_frames answer) }
        ensures stands { OnOk result (Answers self.old answer.entry flood self.new) }
        ensures reader { OnOk result (self.new.reader ≡ self.old.reader) }
        ensures fit { KeepsFit self.old.sending self.new.sending }
        ensures sources { KeepsSources self.old.sending self.new.sending }
    {
        if !self.put_unless(&answer, flood) {
            return self.fail(ErrorCode::EnhanceYourCalm, named(&answer.event));
        }
        self.bring(answer.event)
    }

    /// Acts on what a frame brought, whose answers were put.
    fn bring(&mut self, event: Event<'_>) -> Result<(), AllocError>
        ensures stands { OnOk result (BringsEvent self.old event.entry self.new) }
        ensures rest { OnOk result (ChangesCalls self.old self.new) }
        ensures fit { KeepsFit self.old.sending self.new.sending }
        ensures sources { KeepsSources self.old.sending self.new.sending }
    {
        match event {
            Event::Nothing => Ok(()),
            Event::Request {
                stream,
                fields,
                end_stream,
            } => self.begin(stream, &fields, end_stream),
            Event::Content {
                stream,
                content,
                end_stream,
            } => self.take_text(stream, content.as_slice(), end_stream),
            Event::Trailers { stream } => self.take_trailers(stream),
            Event::Cancel { stream } => self.cancel(stream),
        }
    }

    /// A request came: a call begins, or the answer to what is no call is owed.
    fn begin(&mut self, stream: u32, fields: &Headers, end_stream: bool) -> Result<(), AllocError>
        ensures stands { OnOk result (BringsEvent self.old
            (Request stream fields.now end_stream) self.new) }
        ensures rest { OnOk result (ChangesCalls self.old self.new) }
        ensures fit { KeepsFit self.old.sending self.new.sending }
        ensures sources { KeepsSources self.old.sending self.new.sending }
    {
        match head(fields) {
            Ok(method) => begin_call(
                &mut self.calls,
                self.streams.live(),
                stream,
                method,
                end_stream,
                &mut self.due,
            ),
            Err(fault) => {
                self.at_rest = false;
                self.sender
                    .owe_block(&self.streams, stream, fault.response())
            }
        }
    }

    fn take_text(&mut self, stream: u32, content: &[u8], end_stream: bool) -> Result<(), AllocError>
        ensures stands { OnOk result (BringsEvent self.old
            (Content stream content.now end_stream) self.new) }
        ensures rest { OnOk result (ChangesCalls self.old self.new) }
        ensures fit { KeepsFit self.old.sending self.new.sending }
        ensures sources { KeepsSources self.old.sending self.new.sending }
    {
        take_more(&mut self.calls, stream, content, end_stream, &mut self.due)
    }

    /// Trailers end the request.
    fn take_trailers(&mut self, stream: u32) -> Result<(), AllocError>
        ensures stands { OnOk result (BringsEvent self.old (Trailers stream) self.new) }
        ensures rest { OnOk result (ChangesCalls self.old self.new) }
        ensures fit { KeepsFit self.old.sending self.new.sending }
        ensures sources { KeepsSources self.old.sending self.new.sending }
    {
        take_more(&mut self.calls, stream, b"", true, &mut self.due)
    }

    fn cancel(&mut self, stream: u32) -> Result<(), AllocError>
        ensures stands { OnOk result (BringsEvent self.old (Cancel stream) self.new) }
        ensures rest { OnOk result (ChangesCalls self.old self.new) }
        ensures fit { KeepsFit self.old.sending self.new.sending }
        ensures sources { KeepsSources self.old.sending self.new.sending }
    {
        self.at_rest = false;
        self.sender.forget(stream);
        cancel_call(&mut self.calls, stream, &mut self.due)
    }
}

/// The stream that an event names.
fn named(event: &Event<'_>) -> Option<u32>
    ensures { result ≡ stream_of_event event.now }
{
    match event {
        Event::Nothing => None,
        Event::Request { stream, .. }
        | Event::Content { stream, .. }
        | Event::Trailers { stream }
        | Event::Cancel { stream } => Some(*stream),
    }
}
