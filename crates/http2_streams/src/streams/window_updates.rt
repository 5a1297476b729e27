//! WINDOW_UPDATE (RFC 9113 section 6.9).

ghost use Rattle.std.specs.Prelude.{◌≡◌, IfOk, OnErr, ◌==◌, if◌then◌else◌};
ghost use Rattle.http2_streams.specs.Decoding.{Gives};
ghost use Rattle.http2_streams.specs.Rules.{on_connection_update, on_stream_update};
ghost use Rattle.http2_streams.specs.Step.{after_answer, after_window_update};

use crate::event::StreamEvent;
use crate::fault::ConnectionFault;
use crate::live;
use crate::streams::Streams;
use crate::streams::answers::{PROTOCOL_ERROR, nothing};
use http2_flow::FlowError;
use http2_frames::ErrorCode;

impl Streams {
    #[tactic(auto, using(crate::proofs::StreamLists::none_granted, crate::proofs::StreamLists::without_granted))]
    pub(super) fn on_window_update<'a>(
        &mut self,
        stream: u32,
        increment: u32,
    ) -> Result<StreamEvent<'a>, ConnectionFault>
        ensures answer { Gives result (if stream == 0 then on_connection_update self.old increment
            else on_stream_update self.old stream increment) }
        ensures state { IfOk result (λ a. self.new
            ≡ after_answer a (after_window_update self.old stream increment)) }
        ensures err { OnErr result (self.new ≡ self.old) }
    {
        if stream == 0 {
            return self.on_connection_update(increment);
        }
        if self.is_idle(stream) {
            return Err(PROTOCOL_ERROR);
        }
        if !live::is_live(&self.live, stream) {
            return Ok(nothing());
        }
        if increment == 0 {
            return Ok(self.stream_error(stream, ErrorCode::ProtocolError));
        }
        if live::overflows(&self.live, stream, increment) {
            return Ok(self.stream_error(stream, ErrorCode::FlowControlError));
        }
        live::grant(&mut self.live, stream, increment);
        Ok(nothing())
    }

    fn on_connection_update<'a>(
        &mut self,
        increment: u32,
    ) -> Result<StreamEvent<'a>, ConnectionFault>
        ensures answer { Gives result (on_connection_update self.old increment) }
        ensures state { IfOk result (λ a. self.new
            ≡ after_answer a (after_window_update self.old 0 increment)) }
        ensures err { OnErr result (self.new ≡ self.old) }
    {
        match self.connection_window.grant(increment) {
            Ok(()) => Ok(nothing()),
            Err(FlowError::Zero) => Err(PROTOCOL_ERROR),
            Err(_) => Err(ConnectionFault::Connection(ErrorCode::FlowControlError)),
        }
    }
}
