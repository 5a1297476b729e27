//! Which names, quotas and slots an instance may have.

use crate::tests::cases::{Case, all_hold};
use server_events::*;
use std::test::*;

/// Whether a text is the name of an instance.
struct IsName(bool);

impl Case for IsName {
    fn holds(&self, _host: &HostRuntime, name: &str) -> bool {
        is_instance_name(name.as_bytes()) == self.0
    }
}

static NAMES: [(&str, IsName); 29] = [
    ("a", IsName(true)),
    ("z", IsName(true)),
    ("0", IsName(true)),
    ("9", IsName(true)),
    ("-", IsName(true)),
    ("main", IsName(true)),
    ("a-1", IsName(true)),
    ("blob", IsName(true)),
    ("blobs-", IsName(true)),
    ("actionresults", IsName(true)),
    // 64 bytes.
    (
        "abcdefghijklmnopqrstuvwxyz0123456789-abcdefghijklmnopqrstuvwxyz0",
        IsName(true),
    ),
    ("", IsName(false)),
    ("A", IsName(false)),
    ("a b", IsName(false)),
    ("a/b", IsName(false)),
    ("a_b", IsName(false)),
    ("a.b", IsName(false)),
    ("`", IsName(false)),
    ("{", IsName(false)),
    (":", IsName(false)),
    ("ä", IsName(false)),
    // 65 bytes.
    (
        "abcdefghijklmnopqrstuvwxyz0123456789-abcdefghijklmnopqrstuvwxyz01",
        IsName(false),
    ),
    // Words of resource names.
    ("blobs", IsName(false)),
    ("uploads", IsName(false)),
    ("actions", IsName(false)),
    ("actionResults", IsName(false)),
    ("operations", IsName(false)),
    ("capabilities", IsName(false)),
    ("compressed-blobs", IsName(false)),
];

#[test]
fn names(rt: HostRuntime) {
    all_hold(&rt, &rt, &NAMES);
}

fn are_bounded() -> bool {
    is_quota(0)
        && is_quota(1_099_511_627_776)
        && !is_quota(1_099_511_627_777)
        && !is_quota(u64::MAX)
        && is_slot_count(0)
        && is_slot_count(64)
        && !is_slot_count(65)
}

#[test]
fn quotas_and_slots(rt: HostRuntime) {
    assert!(rt; are_bounded());
}
