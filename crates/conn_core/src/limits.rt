//! The limits that clauses and definitions call by their names, as numbers.

ghost use Rattle.std.specs.Prelude.{◌≡◌, ◌<◌, ◌≤◌, ◌↔◌, ◌+◌, ◌^◌, ◌-◌, ℕ, List};
ghost use Rattle.http2_frames.specs.declared.reader.TheConstants.{MAX_FRAME_SIZE};
ghost use Rattle.http2_streams.specs.declared.header_blocks.TheConstants.{MAX_BLOCK, MAX_CONTINUATIONS};
ghost use Rattle.http2_streams.specs.declared.streams.TheConstants.{MAX_STREAMS, MAX_REMEMBERED};
ghost use Rattle.http2_streams.specs.History.{Entry};
ghost use Rattle.rpc.specs.Messages as calls;
ghost use Rattle.grpc_messages.specs.Wire.{message_length_limit};
ghost use Rattle.grpc_messages.specs.declared.reader.TheConstants.{MESSAGE_LIMIT};
ghost use Rattle.conn_core.specs.declared.floods.TheConstants.{MOST_RESETS};
ghost use Rattle.grpc_sending.specs.Bytes.{untaken_count};
ghost use Rattle.grpc_sending.specs.Owed.{OwedItem};
ghost use Rattle.grpc_sending.specs.Pump.{history_after_pump, history_after_puts};
ghost use Rattle.grpc_sending.specs.declared.buffer.TheConstants.{CAPACITY};
ghost use Rattle.grpc_sending.specs.declared.sender.TheConstants.{CONTROL_LIMIT, PUMP_LIMIT};

/// What a connection keeps to: the payload of a frame; a header block, in how many frames after its
/// first; live streams, those that are remembered as reset, and how many a client may reset while
/// it takes nothing; a message, and below what its length can be written at all, in calls as on the
/// wire; and of the bytes that wait to be sent how many there are at most, with how many the pump
/// stops, and how many answers to frames may bring about.
pub fn limits_of_connections()
    ensures frame { MAX_FRAME_SIZE ≡ 16384 }
    ensures block { MAX_BLOCK ≡ 65536 }
    ensures continuations { MAX_CONTINUATIONS ≡ 32 }
    ensures live { MAX_STREAMS ≡ 100 }
    ensures remembered { MAX_REMEMBERED ≡ 128 }
    ensures resets { MOST_RESETS ≡ 1000 }
    ensures message { MESSAGE_LIMIT ≡ 4194304 }
    ensures told { message_length_limit ≡ 2 ^ 32 }
    ensures called { calls.message_length_limit ≡ message_length_limit }
    ensures untaken { CAPACITY ≡ 131072 }
    ensures pump { PUMP_LIMIT ≡ 65536 }
    ensures pumped { (d : List Entry) (items : List OwedItem)
        → history_after_pump d items ≡ history_after_puts (PUMP_LIMIT - untaken_count d) d items }
    ensures answers { CONTROL_LIMIT ≡ 131055 }
{}

/// What is kept of a frame or of a message that is not whole: fewer than a frame of 16,384 bytes
/// with its nine before them, and than a message of 4,194,304 with its five. `FrameReader::find`
/// (clause `kept`) and `Messages::next` (clause `unfinished`) promise it by the constants.
pub fn limits_of_what_is_unfinished()
    ensures frame { (n : ℕ) → (n < 9 + MAX_FRAME_SIZE) ↔ (n ≤ 16392) }
    ensures message { (n : ℕ) → (n < 5 + MESSAGE_LIMIT) ↔ (n ≤ 4194308) }
{}
