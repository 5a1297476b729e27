//! What the server puts first on a connection.

ghost use Rattle.std.specs.Prelude.{◌≡◌, ◌≤◌, [], length};
ghost use Rattle.grpc_sending.specs.declared.sender.TheConstants.{CONTROL_LIMIT};
ghost use Rattle.grpc_sending.specs.StoredSending.{SourceTexts, IsStoredSending, new_stored_sending};
ghost use Rattle.conn_core.specs.Past.{greeting};

use grpc_sending::Sender;
use http2_frames::{Frame, SettingsList};

/// SETTINGS_MAX_CONCURRENT_STREAMS is 100 (RFC 9113 section 6.5.2), as in a payload.
const MAX_CONCURRENT_STREAMS: &[u8] = b"\x00\x03\x00\x00\x00\x64";

/// How large each window is until something else is said, in bytes (RFC 9113 section 6.9.2).
const INITIAL_WINDOW: u32 = 65_535;

/// Puts the server's SETTINGS on a new connection. Where its windows are larger than at first, they
/// say so for streams, and a WINDOW_UPDATE says it for the connection.
pub(super) fn greet(sender: &mut Sender, window: u32)
    requires new { sender.old ≡ new_stored_sending }
    ensures stands { (texts : SourceTexts) → IsStoredSending texts sender.old [] [] →
        IsStoredSending texts sender.new (greeting window) [] }
    ensures short { length sender.new.pending ≤ CONTROL_LIMIT }
    ensures rest { sender.new ≡ record sender.old { pending = sender.new.pending } }
{
    if window <= INITIAL_WINDOW {
        sender.put_control(&Frame::Settings {
            ack: false,
            settings: SettingsList::new(MAX_CONCURRENT_STREAMS),
        });
        return;
    }
    let [first, second, third, fourth] = window.to_be_bytes();
    let payload = [0, 3, 0, 0, 0, 100, 0, 4, first, second, third, fourth];
    sender.put_control(&Frame::Settings {
        ack: false,
        settings: SettingsList::new(&payload),
    });
    sender.put_control(&Frame::WindowUpdate {
        stream: 0,
        increment: window - INITIAL_WINDOW,
    });
}
