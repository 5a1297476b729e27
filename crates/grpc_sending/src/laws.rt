//! What follows from the definitions alone.

ghost use Rattle.std.specs.Prelude.{◌≤◌, ◌<◌, ℕ, List, length};
ghost use Rattle.http2_frames.specs.declared.error.FrameError.{FrameError};
ghost use Rattle.http2_frames.specs.declared.frame.RawFrame.{RawFrame};
ghost use Rattle.http2_streams.specs.History.{Entry, In, Unreadable};
ghost use Rattle.grpc_sending.specs.Bytes.{bytes_put, count_taken};
ghost use Rattle.grpc_sending.specs.Owed.{OwedItem};
ghost use Rattle.grpc_sending.specs.Pump.{history_after_pump};
ghost use Rattle.grpc_sending.specs.Wire.{IsFieldTen};
ghost use Rattle.grpc_sending.specs.Settled.{IsSettled};
ghost use Rattle.grpc_sending.specs.StoredSending.{SourceTexts, StoredSending, Enters, AgreeFor, StandsAlike, FitsAlike, KeepsWhatIsLeft, KeepsRangesLeft};

/// The pump leaves nothing that could be put.
pub fn the_pump_settles()
    ensures { (d : List Entry) (os : List OwedItem) → count_taken d ≤ length (bytes_put d) →
        IsSettled (history_after_pump d os) os }
{}

/// What is received changes nothing of what is sent.
pub fn received_bytes_put_nothing()
    ensures frame { (w : StoredSending) (f : RawFrame) → Enters w (In f) w }
    ensures fault { (w : StoredSending) (e : FrameError) → Enters w (Unreadable e) w }
{}

/// What is kept stands for the same by any look-up that has the texts of the sources of ranges.
pub fn only_texts_of_ranges_matter()
    ensures stands { (t u : SourceTexts) (w : StoredSending) → AgreeFor t u w → StandsAlike t u w }
    ensures fit { (t u : SourceTexts) (w : StoredSending) → AgreeFor t u w → FitsAlike t u w }
{}

/// What is kept for a live stream is what is left of all that was owed to it: of each range, what
/// was not put.
pub fn what_is_kept_is_what_is_left()
    ensures { (texts : SourceTexts) (w : StoredSending) (d : List Entry) (os : List OwedItem) →
        KeepsWhatIsLeft texts w d os }
{}

/// The sources that are held are those of the ranges that are not wholly put, each once for each of
/// them, and no other.
pub fn sources_are_held_until_their_ranges_are_put()
    ensures { (texts : SourceTexts) (w : StoredSending) (d : List Entry) (os : List OwedItem) →
        KeepsRangesLeft texts w d os }
{}

/// A message of a range is a ReadResponse (bytestream.proto) with these bytes as its data, which is
/// field 10.
pub fn a_range_is_put_as_field_ten()
    ensures { (bytes : List ℕ) → 0 < length bytes → length bytes < 2097152 → IsFieldTen bytes }
{}
