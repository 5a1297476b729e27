//! What holds of every text, whatever is read or written.

ghost use Rattle.std.specs.Prelude.{◌≡◌, ◌++◌, ◌<◌, ◌≤◌, List, ℕ, Ok, Err, length};
ghost use Rattle.std.specs.List.{AllByRecursion, flat_map};
ghost use Rattle.http2_frames.specs.Items.{behind};
ghost use Rattle.grpc_messages.specs.declared.error.MessagesError.{MessagesError};
ghost use Rattle.grpc_messages.specs.Wire.{message_length_limit, Split, IsSplit};
ghost use Rattle.grpc_messages.specs.Reading.{split};
ghost use Rattle.grpc_messages.specs.Writing.{framed_message};

/// A text divides into messages in one way alone, and that is how it is read.
pub fn a_text_divides_in_one_way()
    ensures found { (limit : ℕ) (text : List ℕ) → IsSplit limit text (split limit text) }
    ensures only { (limit : ℕ) (text : List ℕ) (s : Split) → IsSplit limit text s →
        split limit text ≡ s }
{}

/// More bytes add messages and change none, and after a fault they add nothing.
pub fn more_bytes_add_messages()
    ensures messages { (limit : ℕ) (text more : List ℕ) →
        (later : List (List ℕ))
        × ((split limit (text ++ more)).items ≡ (split limit text).items ++ later) }
    ensures fault { (limit : ℕ) (text more : List ℕ) (fault : MessagesError) →
        (split limit text).end ≡ Err fault → split limit (text ++ more) ≡ split limit text }
{}

/// Messages that were framed one after another are split again, whatever follows them; and where
/// one has come in part, that part is the rest.
pub fn framed_messages_are_split_again()
    ensures whole { (limit : ℕ) (messages : List (List ℕ)) (rest : List ℕ) →
        limit < message_length_limit → AllByRecursion (λ m. length m ≤ limit) messages →
        split limit (flat_map framed_message messages ++ rest)
        ≡ behind messages (split limit rest) }
    ensures part { (limit : ℕ) (messages : List (List ℕ)) (message part more : List ℕ) →
        limit < message_length_limit → AllByRecursion (λ m. length m ≤ limit) messages →
        length message ≤ limit → framed_message message ≡ part ++ more → 0 < length more →
        split limit (flat_map framed_message messages ++ part)
        ≡ record { items = messages; end = Ok part } }
{}
