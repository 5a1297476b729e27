//! What the clocks tell.

use std::time::{Instant, SystemTime};

/// The milliseconds since a moment; 0 where the clock cannot be read.
pub fn milliseconds_since(rt: &HostRuntime, moment: Option<Instant>) -> u64 {
    let (Some(moment), Ok(now)) = (moment, Instant::now(rt)) else {
        return 0;
    };
    let passed = now.saturating_duration_since(moment).as_millis();
    u64::try_from(passed).unwrap_or(u64::MAX)
}

/// The Unix time in seconds, if the clock can be read.
pub fn unix_time(rt: &HostRuntime) -> Option<u64> {
    let passed = SystemTime::now(rt)
        .ok()?
        .duration_since(SystemTime::UNIX_EPOCH);
    Some(passed.ok()?.as_secs())
}
