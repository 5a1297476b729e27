//! DATA (RFC 9113 section 6.1).

ghost use Rattle.std.specs.Prelude.{◌≡◌, IfOk, OnErr};
ghost use Rattle.http2_streams.specs.Decoding.{Gives};
ghost use Rattle.http2_streams.specs.Rules.{on_data};
ghost use Rattle.http2_streams.specs.Step.{after_answer, after_client_end};

use crate::event::{Event, StreamEvent};
use crate::fault::ConnectionFault;
use crate::live;
use crate::stream::Side;
use crate::streams::Streams;
use crate::streams::answers::{PROTOCOL_ERROR, brings, nothing, reset_frame, update};
use http2_frames::{ErrorCode, Octets};

impl Streams {
    #[tactic(auto, using(crate::proofs::Rising::ended_rises))]
    pub(super) fn on_data<'a>(
        &mut self,
        length: u32,
        stream: u32,
        end_stream: bool,
        content: Octets<'a>,
    ) -> Result<StreamEvent<'a>, ConnectionFault>
        ensures answer { Gives result (on_data self.old length stream end_stream content.entry) }
        ensures state { IfOk result (λ a. self.new
            ≡ after_answer a (after_client_end self.old stream end_stream)) }
        ensures err { OnErr result (self.new ≡ self.old) }
    {
        if self.is_idle(stream) {
            return Err(PROTOCOL_ERROR);
        }
        let connection_update = update(0, length);
        if live::is_receiving(&self.live, stream) {
            let stream_update = if end_stream {
                None
            } else {
                update(stream, length)
            };
            if end_stream {
                live::end_by(&mut self.live, Side::Client, stream);
            }
            return Ok(StreamEvent {
                connection_update,
                stream_update,
                ..brings(Event::Content {
                    stream,
                    content,
                    end_stream,
                })
            });
        }
        if self.is_remembered(stream) {
            return Ok(StreamEvent {
                connection_update,
                ..nothing()
            });
        }
        let event = self.cancelled(stream);
        self.reset(stream);
        Ok(StreamEvent {
            connection_update,
            reset: reset_frame(stream, ErrorCode::StreamClosed),
            ..brings(event)
        })
    }
}
