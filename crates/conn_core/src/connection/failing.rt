//! An error of the connection: GOAWAY is put, and the calls on live streams end.

ghost use Rattle.std.specs.Prelude.{◌≡◌, ◌++◌, ◌∷◌, [], map, false, OnOk};
ghost use Rattle.grpc_sending.specs.StoredSending.{KeepsFit, KeepsSources};
ghost use Rattle.conn_core.specs.StandsFor.{call_stream};
ghost use Rattle.conn_core.specs.Putting.{Fails, is_ending, ended_calls};
ghost use Rattle.http2_streams.specs.Entries.{goaway_frame};

use crate::call::Call;
use crate::connection::Connection;
use crate::event::CallEvent;
use http2_frames::{ErrorCode, Frame, Octets};
use http2_streams::{Stream, is_live};
use std::alloc::AllocError;
use std::collections::VecDeque;

impl Connection {
    /// An error of the connection: GOAWAY is put, and the calls on live streams end, with one that
    /// was reset in vain.
    pub(super) fn fail(&mut self, code: ErrorCode, reset: Option<u32>) -> Result<(), AllocError>
        requires { self.old.ended ≡ false }
        ensures fails { OnOk result (Fails self.old code reset self.new) }
        ensures reader { OnOk result (self.new.reader ≡ self.old.reader) }
        ensures fit { KeepsFit self.old.sending self.new.sending }
        ensures sources { KeepsSources self.old.sending self.new.sending }
    {
        self.ended = true;
        self.failure = Some(code);
        self.at_rest = false;
        self.sender
            .put_control(&goaway(self.streams.highest(), code));
        end_calls(&self.calls, self.streams.live(), reset, &mut self.due)?;
        self.streams.fail();
        self.sender.forget_all();
        self.calls.clear();
        Ok(())
    }
}

fn goaway(last_stream: u32, code: ErrorCode) -> Frame<'static>
    ensures { result ≡ goaway_frame last_stream code }
{
    Frame::GoAway {
        last_stream,
        error_code: code.number(),
        debug_data: Octets::new(b""),
    }
}

/// Appends the end of each call on a live stream, and on one that was reset in vain.
fn end_calls(
    calls: &[Call],
    live: &[Stream],
    reset: Option<u32>,
    due: &mut VecDeque<CallEvent>,
) -> Result<(), AllocError>
    ensures { OnOk result (due.new.items ≡ due.old.items
        ++ ended_calls live.now reset (map call_stream calls.now)) }
{
    for call in calls {
        end_call(call.stream, live, reset, due)?;
    }
    Ok(())
}

fn end_call(
    stream: u32,
    live: &[Stream],
    reset: Option<u32>,
    due: &mut VecDeque<CallEvent>,
) -> Result<(), AllocError>
    ensures { OnOk result (due.new.items ≡ due.old.items
        ++ ended_calls live.now reset (stream ∷ [])) }
{
    if !is_ending(live, reset, stream) {
        return Ok(());
    }
    due.push_back(CallEvent::Cancel { stream })?;
    Ok(())
}

fn is_ending(live: &[Stream], reset: Option<u32>, stream: u32) -> bool
    ensures { result ≡ is_ending live.now reset stream }
{
    is_live(live, stream) || reset == Some(stream)
}
