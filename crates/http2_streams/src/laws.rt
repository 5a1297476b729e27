//! What follows from the definitions alone.

ghost use Rattle.std.specs.Prelude.{◌≡◌, ◌<◌, ◌≤◌, ◌↔◌, ◌++◌, ◌∷◌, ℕ, List, [], length, true, false, pos, ◌≤ℤ◌, Some, Ok};
ghost use Rattle.std.specs.List.{AllByRecursion};
ghost use Rattle.std.specs.List.Sorted.{IsStrictlyIncreasing};
ghost use Rattle.http2_flow.specs.Credit.{window_left};
ghost use Rattle.http2_frames.specs.Writing.{raw_of};
ghost use Rattle.http2_frames.specs.declared.frame.RawFrame.{RawFrame};
ghost use Rattle.http2_streams.specs.declared.event.StreamEvent.{StreamEvent};
ghost use Rattle.http2_streams.specs.History.{Entry, In, has_failed, highest_stream, live_streams, is_not_closed, window, connection_window};
ghost use Rattle.http2_streams.specs.Standing.{Standing};
ghost use Rattle.http2_streams.specs.StandsFor.{AreStreams};
ghost use Rattle.http2_streams.specs.Rules.{is_live_at, answer_after};
ghost use Rattle.http2_streams.specs.Entries.{control_frames, entries_of};
ghost use Rattle.http2_streams.specs.Sending.{CanSend, IsNoMatter};
ghost use Rattle.http2_streams.specs.LiveStreams.{stream_of_event, has_stream, IsOnItsStream, live_after};
ghost use Rattle.http2_streams.specs.ControlAnswers.{IsControlAnswer};

/// The live streams stand in rising order, each once, and none is above the highest that was
/// opened.
pub fn live_streams_rise()
    ensures rise { (d : List Entry) → IsStrictlyIncreasing (live_streams d) }
    ensures opened { (v : Standing) (d : List Entry) (s : ℕ) → AreStreams v d → v.failed ≡ false →
        is_live_at v s ≡ true → s ≤ v.highest }
{}

/// What is kept stands for the history with an entry that is no matter of streams, too.
pub fn other_entries_change_nothing()
    ensures { (v : Standing) (d : List Entry) (e : Entry) → IsNoMatter e → AreStreams v d →
        AreStreams v (d ++ e ∷ []) }
{}

/// What may be sent is what the history's two windows leave, on a live stream. Both begin with
/// 65,535 bytes (RFC 9113 section 6.9.2).
pub fn windows_follow_from_the_history()
    ensures stream { (s : ℕ) → window_left (window [] s) ≡ pos 65535 }
    ensures connection { window_left (connection_window []) ≡ pos 65535 }
    ensures left { (v : Standing) (d : List Entry) (s n : ℕ) → AreStreams v d → v.failed ≡ false →
        CanSend v s n ↔ ((is_live_at v s ≡ true) × (pos n ≤ℤ window_left (window d s))
        × (pos n ≤ℤ window_left (connection_window d))) }
{}

/// A frame that is no fault opens the stream of a request, closes that of a cancel or of a
/// request's end that the server's end came before, and leaves all other live streams.
pub fn the_live_streams_after_a_frame()
    ensures { (v : Standing) (d : List Entry) (f : RawFrame) (a : StreamEvent) → AreStreams v d →
        has_failed d ≡ false → answer_after d f ≡ Ok a →
        live_streams (d ++ entries_of d f) ≡ live_after d a.event }
{}

/// A request opens a new stream, and other events are on live ones. So each stream that an event
/// names is at most the highest that was opened, which never falls.
pub fn events_name_opened_streams()
    ensures stream { (d : List Entry) (f : RawFrame) (a : StreamEvent) → answer_after d f ≡ Ok a →
        IsOnItsStream d a.event }
    ensures opened { (d : List Entry) (f : RawFrame) (a : StreamEvent) (s : ℕ) →
        answer_after d f ≡ Ok a →
        stream_of_event a.event ≡ Some s → s ≤ highest_stream (d ++ In f ∷ []) }
    ensures rises { (d es : List Entry) → highest_stream d ≤ highest_stream (d ++ es) }
{}

/// A closed stream stays closed. Those in the list of live streams are open or half-closed and were
/// opened; on those above them nothing has passed that would close them.
pub fn closed_streams_stay_closed()
    ensures falls { (d es : List Entry) (s : ℕ) → is_not_closed (d ++ es) s ≡ true →
        is_not_closed d s ≡ true }
    ensures listed { (d : List Entry) (s : ℕ) → has_stream (live_streams d) s ≡ true →
        (is_not_closed d s ≡ true) × (s ≤ highest_stream d) }
    ensures idle { (v : Standing) (d : List Entry) (s : ℕ) → AreStreams v d → has_failed d ≡ false →
        highest_stream d < s → is_not_closed d s ≡ true }
{}

/// The frames that answer a received one are acknowledgements, updates of windows and resets, none
/// with a payload of more than 8 bytes.
pub fn answers_are_control_frames()
    ensures kinds { (d : List Entry) (f : RawFrame) (a : StreamEvent) → answer_after d f ≡ Ok a →
        AllByRecursion IsControlAnswer (control_frames a) }
    ensures short { (d : List Entry) (f : RawFrame) (a : StreamEvent) → answer_after d f ≡ Ok a →
        AllByRecursion (λ g. length (raw_of g).payload ≤ 8) (control_frames a) }
{}
