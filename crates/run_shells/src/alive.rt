//! What of a session is alive, among the processes whose numbers were given since it began.

ghost use Rattle.std.specs.Prelude.{All, IfOk, IfSome};
ghost use Rattle.system.specs.Processes.{WasIn};

use crate::status::{is_alive_in, number_in, session_of};
use std::io;
use std::time::{Duration, Instant};
use system::Shells;

/// Where the system shows which number it gave last to a process or a thread, and below which one
/// all are. It gives them in order, and begins anew behind the last.
const LAST_NUMBER: &str = "/proc/sys/kernel/ns_last_pid";

const MOST_NUMBER: &str = "/proc/sys/kernel/pid_max";

/// How many numbers a host gives in a millisecond at most, with all of its processors: it gives one
/// after the other, and each takes more than a microsecond.
const MOST_GIVEN: u64 = 1_000;

/// How many numbers are looked at one by one. To list all processes would take longer for some
/// hundreds of them.
const MOST_NEAR: u32 = 4_096;

/// How often it is looked whether the system gave further ones meanwhile.
const MOST_ROUNDS: u32 = 16;

/// What is alive in a session whose first process was started behind this moment, threads too. All
/// of it got a number behind that process's, so that no others are looked at. `None` where these are
/// many, where the system may have begun anew with its numbers since then, or where it does not
/// tell.
pub(crate) fn alive_since<S: Shells>(
    shells: &S,
    session: u32,
    begun: Instant,
) -> io::Result<Option<Vec<u32>>>
    ensures found { IfOk result (λ told. IfSome told (λ alive.
        All (WasIn S.showed session) alive.items)) }
{
    let circle = shortest_circle(shells);
    if shells.now()?.duration_since(begun) >= circle {
        return Ok(None);
    }
    let alive = alive_behind(shells, session)?;
    // The server may have been stopped meanwhile.
    if shells.now()?.duration_since(begun) >= circle {
        return Ok(None);
    }
    Ok(alive)
}

/// What of a session is alive among the processes that have its number or one behind that, where
/// these are few.
///
/// Who starts another one meanwhile is alive when its number is looked at, or the other one's is
/// given before that, and is looked at in the next round.
fn alive_behind<S: Shells>(shells: &S, session: u32) -> io::Result<Option<Vec<u32>>>
    ensures found { IfOk result (λ told. IfSome told (λ alive.
        All (WasIn S.showed session) alive.items)) }
{
    let mut alive = Vec::new(shells.alloc());
    let mut next = session;
    for _ in 0..MOST_ROUNDS {
        let last = match number_in(shells, LAST_NUMBER) {
            Some(last) if last >= session && last - session < MOST_NEAR => last,
            _ => return Ok(None),
        };
        if last < next {
            return Ok(Some(alive));
        }
        if !add_alive(shells, session, next, last, &mut alive)? {
            return Ok(None);
        }
        next = last.saturating_add(1);
    }
    Ok(None)
}

/// Adds those of these numbers that are alive in a session. Whether the system told it of all.
fn add_alive<S: Shells>(
    shells: &S,
    session: u32,
    from: u32,
    to: u32,
    alive: &mut Vec<u32>,
) -> io::Result<bool>
    requires found { All (WasIn S.showed session) alive.old.items }
    ensures found { All (WasIn S.showed session) alive.new.items }
{
    for process in from..=to {
        if !add_one(shells, session, process, alive)? {
            return Ok(false);
        }
    }
    Ok(true)
}

/// Adds this one where it is alive in a session. Whether the system told it.
fn add_one<S: Shells>(
    shells: &S,
    session: u32,
    process: u32,
    alive: &mut Vec<u32>,
) -> io::Result<bool>
    requires found { All (WasIn S.showed session) alive.old.items }
    ensures found { All (WasIn S.showed session) alive.new.items }
{
    match session_of(shells, process) {
        None => Ok(false),
        Some(found) if found != session => Ok(true),
        Some(_) => {
            add_if_alive(shells, session, process, alive)?;
            Ok(true)
        }
    }
}

/// Adds a process where it is alive in a session, as the system shows it.
pub(crate) fn add_if_alive<S: Shells>(
    shells: &S,
    session: u32,
    process: u32,
    alive: &mut Vec<u32>,
) -> io::Result<()>
    requires found { All (WasIn S.showed session) alive.old.items }
    ensures found { All (WasIn S.showed session) alive.new.items }
{
    if !is_alive_in(shells, process, session)? {
        return Ok(());
    }
    alive.push(process)?;
    Ok(())
}

/// For how long the system gives no number for the second time, at least. How many there are may be
/// changed at any time.
fn shortest_circle<S: Shells>(shells: &S) -> Duration {
    let most = number_in(shells, MOST_NUMBER).unwrap_or(0);
    Duration::from_millis(u64::from(most) / MOST_GIVEN)
}
