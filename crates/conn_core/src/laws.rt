//! Laws about the definitions.

ghost use Rattle.std.specs.Prelude.{◌≡◌, ◌<◌, ◌+◌, ◌++◌, ◌∷◌, ℕ, List, [], map, true, false};
ghost use Rattle.http2_frames.specs.declared.frame.Frame.{Frame};
ghost use Rattle.http2_frames.specs.declared.frame.RawFrame.{RawFrame};
ghost use Rattle.http2_streams.specs.History.{Entry, In, Out, Took};
ghost use Rattle.grpc_sending.specs.StoredSending.{SourceTexts, AgreeFor};
ghost use Rattle.conn_core.specs.Floods.{resets_live, resets_since_taking};
ghost use Rattle.conn_core.specs.Calls.{calls_left, cancels};
ghost use Rattle.conn_core.specs.Past.{Past};
ghost use Rattle.conn_core.specs.StandsFor.{ConnectionValue, IsConnection, StandsAlike, live_calls};
ghost use Rattle.conn_core.specs.declared.event.CallEvent.TheVariants.{Cancel};

/// The calls that `pop_call` gives up are those of the past that stand on live streams, and an
/// error cancels them.
pub fn calls_on_live_streams()
    ensures calls { (texts : SourceTexts) (v : ConnectionValue) (p : Past) →
        IsConnection texts v p →
        live_calls v ≡ calls_left p.history }
    ensures cancels { (d : List Entry) → cancels d ≡ map Cancel (calls_left d) }
{}

/// What is kept of a connection stands for the same by any look-up that has the texts of the
/// sources of its ranges.
pub fn only_texts_of_a_connections_ranges_matter()
    ensures { (t u : SourceTexts) (v : ConnectionValue) → AgreeFor t u v.sending →
        StandsAlike t u v }
{}

/// The resets that count towards a flood: one more for each reset of a live stream, none for any
/// other frame that is received or put, and anew from the taking of a byte on.
pub fn resets_are_counted_since_bytes_were_taken()
    ensures begins { resets_since_taking [] ≡ 0 }
    ensures reset { (d : List Entry) (f : RawFrame) → resets_live d f ≡ true →
        resets_since_taking (d ++ In f ∷ []) ≡ resets_since_taking d + 1 }
    ensures received { (d : List Entry) (f : RawFrame) → resets_live d f ≡ false →
        resets_since_taking (d ++ In f ∷ []) ≡ resets_since_taking d }
    ensures put { (d : List Entry) (f : Frame) →
        resets_since_taking (d ++ Out f ∷ []) ≡ resets_since_taking d }
    ensures taken { (d : List Entry) (n : ℕ) → 0 < n →
        resets_since_taking (d ++ Took n ∷ []) ≡ 0 }
{}
