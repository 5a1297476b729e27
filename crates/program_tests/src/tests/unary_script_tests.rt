//! The methods that a script of calls may name.

use crate::tests::cases::{Case, all_hold};
use script::unary::*;
use std::test::*;

/// Whether a word names a method, which then has it as its name.
struct IsMethod(bool);

impl Case for IsMethod {
    fn holds(&self, _host: &HostRuntime, name: &str) -> bool {
        match Method::named(name.as_bytes()) {
            Some(method) => self.0 && method.name() == name,
            None => !self.0,
        }
    }
}

static METHODS: [(&str, IsMethod); 5] = [
    ("FindMissingBlobs", IsMethod(true)),
    ("BatchUpdateBlobs", IsMethod(true)),
    ("BatchReadBlobs", IsMethod(true)),
    ("GetTree", IsMethod(false)),
    ("", IsMethod(false)),
];

#[test]
fn methods(rt: HostRuntime) {
    all_hold(&rt, &rt, &METHODS);
}
