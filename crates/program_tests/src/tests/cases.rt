//! Tables of cases. Each has a name, which is told where the case fails.

use std::process::Abort;
use std::test::*;

pub trait Case {
    /// Whether what is tested does what this case wants of it, at the case's name.
    fn holds(&self, host: &HostRuntime, name: &str) -> bool;
}

/// Fails with the name of the first case that does not hold. A test passes its handle twice: where
/// it is known as a `HostRuntime`, no run may be ended by it.
pub fn all_hold<R: Abort, C: Case>(rt: &R, host: &HostRuntime, cases: &[(&'static str, C)]) {
    for (name, case) in cases {
        assert!(rt; case.holds(host, name), "{name}");
    }
}
