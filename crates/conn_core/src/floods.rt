//! Floods of resets: how often a client resets live streams while it takes nothing.

ghost use Rattle.std.specs.Prelude.{◌≡◌, ◌≤◌, ◌+◌, ◌==◌, ◌&&◌, nat_le, false, if◌then◌else◌};
ghost use Rattle.http2_frames.specs.declared.codes.frame_type.TheConstants.{RST_STREAM};
ghost use Rattle.http2_streams.specs.Rules.{is_live_at};
ghost use Rattle.conn_core.specs.declared.floods.TheConstants.{MOST_RESETS};

use http2_frames::{RawFrame, frame_type};
use http2_streams::Streams;

/// How many live streams of a connection a client may reset while it takes no byte on it.
pub const MOST_RESETS: u32 = 1_000;

/// Whether the frame resets a live stream.
pub(crate) fn resets_live(streams: &Streams, frame: &RawFrame<'_>) -> bool
    ensures { result ≡ (frame.now.kind == RST_STREAM && is_live_at streams.now frame.now.stream) }
{
    frame.kind == frame_type::RST_STREAM && streams.is_live(frame.stream)
}

/// Whether a frame, which resets a live stream or does not, is one reset more than may be.
pub(crate) fn is_flood(count: u32, resets: bool) -> bool
    ensures { result ≡ (resets && nat_le MOST_RESETS count) }
{
    resets && count >= MOST_RESETS
}

/// How many there were with this frame, which is no flood.
pub(crate) fn after_frame(count: u32, resets: bool) -> u32
    requires { count ≤ MOST_RESETS }
    ensures count { (resets && nat_le MOST_RESETS count) ≡ false →
        result ≡ (if resets then count + 1 else count) }
    ensures most { result ≤ MOST_RESETS }
{
    if resets && count < MOST_RESETS {
        count + 1
    } else {
        count
    }
}

/// How many there were since bytes were taken last, after so many more were taken.
pub(crate) fn after_taking(count: u32, taken: usize) -> u32
    ensures count { result ≡ (if taken == 0 then count else 0) }
    ensures fewer { result ≤ count }
{
    if taken == 0 { count } else { 0 }
}
