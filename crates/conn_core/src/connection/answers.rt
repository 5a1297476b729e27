//! The control frames that answer a received frame, and which of them have room.

ghost use Rattle.std.specs.Prelude.{◌≡◌, ◌∷◌, [], option_to_list};
ghost use Rattle.std.specs.List.{AllByRecursion};
ghost use Rattle.grpc_sending.specs.StoredSending.{KeepsFit, KeepsSources};
ghost use Rattle.conn_core.specs.Putting.{Puts, PutsUnless};
ghost use Rattle.http2_streams.specs.ControlAnswers.{IsControlAnswer};
ghost use Rattle.http2_streams.specs.Entries.{control_frames};

use crate::connection::Connection;
use http2_frames::Frame;
use http2_streams::StreamEvent;

impl Connection {
    /// Puts the control frames of an answer, up to the first for which there is no room, and says
    /// whether all had room and the frame was no flood.
    pub(super) fn put_unless(&mut self, answer: &StreamEvent<'_>, flood: bool) -> bool
        requires { AllByRecursion IsControlAnswer (control_frames answer.now) }
        ensures puts { PutsUnless flood self.old (control_frames answer.now) result self.new }
        ensures rest { self.new ≡ record self.old { sending = self.new.sending } }
        ensures fit { KeepsFit self.old.sending self.new.sending }
        ensures sources { KeepsSources self.old.sending self.new.sending }
    {
        let fit = self.put_all(answer);
        if flood {
            return false;
        }
        fit
    }

    /// Puts the control frames of an answer, up to the first for which there is no room.
    fn put_all(&mut self, answer: &StreamEvent<'_>) -> bool
        requires { AllByRecursion IsControlAnswer (control_frames answer.now) }
        ensures puts { Puts self.old (control_frames answer.now) result self.new }
        ensures rest { self.new ≡ record self.old { sending = self.new.sending } }
        ensures fit { KeepsFit self.old.sending self.new.sending }
        ensures sources { KeepsSources self.old.sending self.new.sending }
    {
        if !self.put_one(&answer.acknowledgement) {
            return false;
        }
        if !self.put_one(&answer.connection_update) {
            return false;
        }
        if !self.put_one(&answer.stream_update) {
            return false;
        }
        self.put_one(&answer.reset)
    }

    fn put_one(&mut self, frame: &Option<Frame<'_>>) -> bool
        requires { AllByRecursion IsControlAnswer (option_to_list frame.now) }
        ensures puts { Puts self.old (option_to_list frame.now) result self.new }
        ensures rest { self.new ≡ record self.old { sending = self.new.sending } }
        ensures fit { KeepsFit self.old.sending self.new.sending }
        ensures sources { KeepsSources self.old.sending self.new.sending }
    {
        match frame {
            None => true,
            Some(frame) => self.put_answer(frame),
        }
    }

    fn put_answer(&mut self, frame: &Frame<'_>) -> bool
        requires { IsControlAnswer frame.now }
        ensures puts { Puts self.old (frame.now ∷ []) result self.new }
        ensures rest { self.new ≡ record self.old { sending = self.new.sending } }
        ensures fit { KeepsFit self.old.sending self.new.sending }
        ensures sources { KeepsSources self.old.sending self.new.sending }
    {
        if !self.sender.has_room(frame) {
            return false;
        }
        self.at_rest = false;
        self.sender.put_control(frame);
        true
    }
}
