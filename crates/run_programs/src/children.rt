//! Programs that were started, whether or not somebody waited for them already.

ghost use Rattle.std.specs.Prelude.{◌≡◌, ◌<◌, ◌≤◌, ◌+◌, Ok, None, false, OnErr, OnOk, vec_capacity, vec_len};

use crate::started::Started;
use std::io;
use system::{Child, Host, OpenFile, Sessions, is_no_child};

/// Whether a program has ended, and its number is the system's again.
pub(crate) fn is_reaped<C: Child>(child: &mut C) -> io::Result<bool>
    ensures runs { result ≡ Ok false → C.ended child.new ≡ None }
    ensures kept { OnErr result (C.ended child.new ≡ C.ended child.old) }
{
    match child.look() {
        Ok(ending) => Ok(ending.is_some()),
        Err(error) if is_no_child(&error) => Ok(true),
        Err(error) => Err(error),
    }
}

/// Ends a program alone, where it has not ended.
pub(crate) fn kill_child<C: Child>(child: &mut C) -> io::Result<()>
    ensures { C.ended child.new ≡ C.ended child.old }
{
    match child.kill() {
        Err(error) if !is_no_child(&error) => Err(error),
        _ => Ok(()),
    }
}

/// Lets go of programs that have ended.
pub(crate) fn reap<C: Child>(children: &mut Vec<C>) {
    children.retain_mut(|child| matches!(is_reaped(child), Ok(false)));
}

/// Lets go of programs that have ended since, and sees to it that sessions can be ended.
pub(crate) fn refresh<H: Host, E: Sessions>(
    host: &H,
    has_sessions: bool,
    sessions: &mut E,
    left: &mut Vec<E::Child>,
) -> io::Result<()> {
    reap(left);
    if has_sessions {
        sessions.keep(host.now()?)?;
    }
    Ok(())
}

/// Makes room for a program, and for all there are once they are forgotten.
pub(crate) fn make_room<C: Child, F: OpenFile>(
    started: &mut Vec<Started<C, F>>,
    left: &mut Vec<C>,
) -> io::Result<()>
    ensures same { started.new.items ≡ started.old.items }
    ensures room { OnOk result (vec_len started.new < vec_capacity started.new) }
    ensures left { OnOk result (vec_len left.new + (vec_len started.new + 1)
        ≤ vec_capacity left.new) }
{
    started.reserve(1)?;
    left.reserve(started.len() + 1)?;
    Ok(())
}
