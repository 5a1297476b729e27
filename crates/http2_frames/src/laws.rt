//! What holds of every text and every frame, whatever is read or written.

ghost use Rattle.std.specs.Prelude.{◌≡◌, ◌++◌, ◌^◌, ◌∷◌, ℕ, List, [], Ok, Err, true, codes, map};
ghost use Rattle.std.specs.List.{AllByRecursion, flat_map};
ghost use Rattle.http2_frames.specs.Codes.{flags, frame_types, settings};
ghost use Rattle.http2_frames.specs.declared.error.FrameError.{FrameError};
ghost use Rattle.http2_frames.specs.declared.frame.RawFrame.{RawFrame};
ghost use Rattle.http2_frames.specs.declared.frame.Frame.{Frame};
ghost use Rattle.http2_frames.specs.declared.reader.TheConstants.{CLIENT_PREFACE, MAX_FRAME_SIZE};
ghost use Rattle.http2_frames.specs.Frames.{frame_of, may_be_padded, unpadded_content, IsPadded};
ghost use Rattle.http2_frames.specs.Writing.{raw_of, text_of, IsWritable};
ghost use Rattle.http2_frames.specs.Wire.{Split, IsSplit};
ghost use Rattle.http2_frames.specs.Reading.{split};

/// The constants are the numbers of RFC 9113: of frame types and flags (section 6), of settings
/// (section 6.5.2), the client's preface (section 3.4), and the largest payload where the settings
/// name no larger one (section 4.2).
pub fn constants_are_the_standard()
    ensures frame_types { frame_types ≡ 0 ∷ 1 ∷ 2 ∷ 3 ∷ 4 ∷ 5 ∷ 6 ∷ 7 ∷ 8 ∷ 9 ∷ [] }
    ensures flags { flags ≡ 1 ∷ 1 ∷ 4 ∷ 8 ∷ 32 ∷ [] }
    ensures settings { settings ≡ 1 ∷ 2 ∷ 3 ∷ 4 ∷ 5 ∷ 6 ∷ [] }
    ensures preface { CLIENT_PREFACE.now ≡ codes "PRI * HTTP/2.0\r\n\r\nSM\r\n\r\n" }
    ensures payload { MAX_FRAME_SIZE ≡ 2 ^ 14 }
{}

/// A text divides into frames in one way alone, and that is how it is read.
pub fn a_text_divides_in_one_way()
    ensures found { (preface text : List ℕ) → IsSplit preface text (split preface text) }
    ensures only { (preface text : List ℕ) (s : Split) → IsSplit preface text s →
        split preface text ≡ s }
{}

/// More bytes add frames and change none, and after a fault they add nothing.
pub fn more_bytes_add_frames()
    ensures frames { (preface text more : List ℕ) →
        (later : List RawFrame)
        × ((split preface (text ++ more)).items ≡ (split preface text).items ++ later) }
    ensures fault { (preface text more : List ℕ) (fault : FrameError) →
        (split preface text).end ≡ Err fault → split preface (text ++ more) ≡ split preface text }
{}

/// Frames that are written are read again, and understood as they were meant.
pub fn written_frames_are_read_again()
    ensures text { (preface : List ℕ) (frames : List Frame) → AllByRecursion IsWritable frames →
        split preface (preface ++ flat_map text_of frames)
        ≡ record { items = map raw_of frames; end = Ok [] } }
    ensures content { (frame : Frame) → IsWritable frame → frame_of (raw_of frame) ≡ Ok frame }
{}

/// What DATA and HEADERS hold stands between their fields and their padding.
pub fn padding_surrounds_the_content()
    ensures { (raw : RawFrame) (frame : Frame) → may_be_padded raw ≡ true →
        frame_of raw ≡ Ok frame → IsPadded raw (unpadded_content raw) }
{}
