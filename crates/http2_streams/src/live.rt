//! The live streams as a list.

ghost use Rattle.std.specs.Prelude.{◌≡◌, ◌≢◌, ◌<◌, ◌≤◌, ◌==◌, ◌&&◌, not, true, false, length, map, vec_capacity};
ghost use Rattle.std.specs.List.{list_any};
ghost use Rattle.http2_flow.specs.Credit.{window_limit};
ghost use Rattle.http2_streams.specs.Rules.{number_is, receives, overflows, is_above};
ghost use Rattle.http2_streams.specs.Step.{without_stream, is_ended_by, streams_after_end, with_end, stream_after_grant, stream_after_put, stream_after_resize};
ghost use Rattle.http2_streams.specs.Sending.{lacks};

use crate::stream::{Side, Stream};

/// Whether the stream is among these open and half-closed ones (RFC 9113 section 5.1).
pub fn is_live(live: &[Stream], number: u32) -> bool
    ensures { result ≡ list_any (number_is number) live.now }
{
    live.iter().any(|stream| stream.number == number)
}

pub(crate) fn is_receiving(live: &[Stream], number: u32) -> bool
    ensures { result ≡ list_any (receives number) live.now }
{
    live.iter().any(|stream| stream.is_receiving(number))
}

pub(crate) fn overflows(live: &[Stream], number: u32, increment: u32) -> bool
    ensures { result ≡ list_any (overflows number increment) live.now }
{
    live.iter()
        .any(|stream| stream.overflows(number, increment))
}

pub(crate) fn is_above_limit(live: &[Stream], initial_size: u32) -> bool
    requires { initial_size < window_limit }
    ensures { result ≡ list_any (is_above initial_size) live.now }
{
    live.iter()
        .any(|stream| stream.is_above_limit(initial_size))
}

pub(crate) fn remove(live: &mut Vec<Stream>, number: u32)
    ensures list { live.new.items ≡ without_stream number live.old.items }
    ensures few { length live.new.items ≤ length live.old.items }
    ensures room { vec_capacity live.new ≡ vec_capacity live.old }
{
    live.retain(|stream| stream.number != number);
}

/// Closes a stream that the other side has ended, or notes that a side ends it.
pub(crate) fn end_by(live: &mut Vec<Stream>, side: Side, number: u32)
    ensures list { live.new.items ≡ streams_after_end side number live.old.items }
    ensures few { length live.new.items ≤ length live.old.items }
    ensures room { vec_capacity live.new ≡ vec_capacity live.old }
{
    let other = side.other();
    live.retain_mut(
        |stream: &mut Stream| -> bool
            ensures { (result ≡ not (stream.old.number == number && is_ended_by other stream.old))
                × (stream.new ≡ with_end side number stream.old) }
        {
            let is_over = stream.is_ended(other, number);
            stream.end_by(side, number);
            !is_over
        },
    );
}

pub(crate) fn grant(live: &mut [Stream], number: u32, increment: u32)
    requires some { increment ≢ 0 }
    requires within { list_any (overflows number increment) live.old ≡ false }
    ensures { live.new ≡ map (stream_after_grant number increment) live.old }
{
    for stream in live.iter_mut() {
        stream.grant(number, increment);
    }
}

pub(crate) fn lacks(live: &[Stream], number: u32, count: u32) -> bool
    ensures { result ≡ list_any (lacks number count) live.now }
{
    live.iter().any(|stream| stream.lacks(number, count))
}

pub(crate) fn spend(live: &mut [Stream], number: u32, count: u32)
    ensures { live.new ≡ map (stream_after_put number count) live.old }
{
    for stream in live.iter_mut() {
        stream.spend(number, count);
    }
}

pub(crate) fn resize(live: &mut [Stream], initial_size: u32)
    requires small { initial_size < window_limit }
    requires within { list_any (is_above initial_size) live.old ≡ false }
    ensures { live.new ≡ map (stream_after_resize initial_size) live.old }
{
    for stream in live.iter_mut() {
        stream.resize(initial_size);
    }
}
