//! What ends sessions of programs on this host.

use host_system::{HostChild, HostShells};
use run_shells::ShellSessions;
use std::io;
use std::time::Instant;
use system::{Progress, Session, Sessions};

/// What ends sessions of programs on this host, by shells of its own.
#[derive(Drop)]
pub struct HostSessions<'a> {
    sessions: ShellSessions<HostShells<'a>>,
    /// Whether nothing runs any more of what programs started, once they have ended by themselves.
    leaves_nothing: bool,
}

impl<'a> HostSessions<'a> {
    pub fn new(rt: &'a HostRuntime, leaves_nothing: bool) -> HostSessions<'a> {
        HostSessions {
            sessions: ShellSessions::new(HostShells::new(rt)),
            leaves_nothing,
        }
    }
}

impl<'a> Sessions for HostSessions<'a> {
    type Child = HostChild;

    fn keep(&mut self, now: Instant) -> io::Result<()> {
        self.sessions.keep(now)
    }

    fn tell(&mut self, child: &HostChild, now: Instant) -> io::Result<Progress> {
        self.sessions.tell(child, now)
    }

    fn end(
        &mut self,
        child: &HostChild,
        session: Session,
        progress: Progress,
        now: Instant,
    ) -> io::Result<Progress> {
        // To look for what is left takes a look at each process of the host, where many were
        // started meanwhile.
        if self.leaves_nothing && session.is_reaped && child.has_ended_by_itself() {
            return Ok(Progress::Ended);
        }
        self.sessions.end(child, session, progress, now)
    }
}
