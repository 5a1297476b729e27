//! Configurations of instances, and their faults.

use crate::tests::cases::{Case, all_hold};
use server_events::*;
use std::alloc::{AllocError, Global};
use std::test::*;

/// An instance's name, quota, slots and its parent's name.
type Wanted = (&'static str, u64, u32, Option<&'static str>);

fn config(alloc: Global, wanted: &Wanted) -> Result<InstanceConfig, AllocError> {
    let (name, quota, slots, parent) = *wanted;
    let parent = match parent {
        Some(parent) => Some(String::from_str(alloc, parent)?),
        None => None,
    };
    Ok(InstanceConfig {
        name: String::from_str(alloc, name)?,
        quota,
        slots,
        limits: Limits::usual(),
        parent,
    })
}

type Instances = Vec<InstanceConfig>;

fn add(alloc: Global, instances: &mut Instances, wanted: &[Wanted]) -> Result<(), AllocError> {
    for one in wanted {
        instances.push(config(alloc, one)?)?;
    }
    Ok(())
}

/// A word for a fault, and its instance.
type Told = (&'static str, usize);

fn told(fault: ConfigFault) -> Told {
    match fault {
        ConfigFault::BadName(number) => ("name", number),
        ConfigFault::BadQuota(number) => ("quota", number),
        ConfigFault::BadSlots(number) => ("slots", number),
        ConfigFault::DuplicateName(number) => ("duplicate", number),
        ConfigFault::TooMany => ("many", 0),
        ConfigFault::BadParent(number) => ("parent", number),
    }
}

fn told_of(fault: Option<ConfigFault>) -> Option<Told> {
    match fault {
        Some(fault) => Some(told(fault)),
        None => None,
    }
}

/// Instances, and their fault.
struct Configured(&'static [Wanted], Option<Told>);

impl Case for Configured {
    fn holds(&self, host: &HostRuntime, _name: &str) -> bool {
        let mut instances = Vec::new(host.alloc());
        if add(host.alloc(), &mut instances, self.0).is_err() {
            return false;
        }
        told_of(Configs::new(instances).err()) == self.1
    }
}

static CASES: [(&str, Configured); 9] = [
    ("none", Configured(&[], None)),
    (
        "least and most",
        Configured(&[("a", 0, 0, None), ("b", 1 << 40, 64, None)], None),
    ),
    (
        "a name with a capital",
        Configured(
            &[("a", 1, 1, None), ("A", u64::MAX, u32::MAX, None)],
            Some(("name", 1)),
        ),
    ),
    (
        "a word of resource names",
        Configured(
            &[("blobs", 1, 1, None), ("", 1, 1, None)],
            Some(("name", 0)),
        ),
    ),
    (
        "a quota and slots",
        Configured(&[("a", (1 << 40) + 1, 65, None)], Some(("quota", 0))),
    ),
    (
        "slots and a name once more",
        Configured(&[("a", 1, 1, None), ("a", 1, 65, None)], Some(("slots", 1))),
    ),
    (
        "a name once more",
        Configured(
            &[("a", 1, 1, None), ("b", 1, 1, None), ("a", 2, 2, None)],
            Some(("duplicate", 2)),
        ),
    ),
    // The first instance that has a fault, whatever the later ones have.
    (
        "slots before a name",
        Configured(&[("a", 1, 65, None), ("B", 1, 1, None)], Some(("slots", 0))),
    ),
    (
        "a name once more before another",
        Configured(
            &[("a", 1, 1, None), ("a", 1, 1, None), ("B", 1, 1, None)],
            Some(("duplicate", 1)),
        ),
    ),
];

#[test]
fn faults(rt: HostRuntime) {
    all_hold(&rt, &rt, &CASES);
}

/// Adds 256 instances, whose names are their numbers.
fn add_numbered(alloc: Global, instances: &mut Instances) -> Result<(), AllocError> {
    for number in 0..256u32 {
        instances.push(InstanceConfig {
            name: number.to_string(alloc)?,
            quota: 1,
            slots: 1,
            limits: Limits::usual(),
            parent: None,
        })?;
    }
    Ok(())
}

fn are_numbered(configs: &Configs) -> bool {
    match configs.instances() {
        [.., last] => { configs.instances().len() == INSTANCE_LIMIT && last.name.as_str() == "255" }
        [] => false,
    }
}

fn takes_256(alloc: Global) -> bool {
    let mut instances = Vec::new(alloc);
    if add_numbered(alloc, &mut instances).is_err() {
        return false;
    }
    match Configs::new(instances) {
        Ok(configs) => are_numbered(&configs),
        Err(_) => false,
    }
}

/// There are too many before any other fault.
fn takes_no_more(alloc: Global) -> bool {
    let mut instances = Vec::new(alloc);
    if add(alloc, &mut instances, &[("A", 1, 1, None)]).is_err()
        || add_numbered(alloc, &mut instances).is_err()
    {
        return false;
    }
    told_of(Configs::new(instances).err()) == Some(("many", 0))
}

#[test]
fn too_many(rt: HostRuntime) {
    assert!(rt; takes_256(rt.alloc()) && takes_no_more(rt.alloc()));
}

/// Instances, and the fault of the last one after the others.
struct LastAfter(&'static [Wanted], Option<Told>);

impl Case for LastAfter {
    fn holds(&self, host: &HostRuntime, _name: &str) -> bool {
        let mut instances = Vec::new(host.alloc());
        if add(host.alloc(), &mut instances, self.0).is_err() {
            return false;
        }
        match instances.as_slice() {
            [others @ .., last] => told_of(own_fault(others, last)) == self.1,
            [] => false,
        }
    }
}

static OWN_FAULTS: [(&str, LastAfter); 3] = [
    (
        "another name",
        LastAfter(&[("a", 1, 1, None), ("b", 1, 1, None)], None),
    ),
    (
        "the same name",
        LastAfter(
            &[("a", 1, 1, None), ("a", 1, 1, None)],
            Some(("duplicate", 1)),
        ),
    ),
    (
        "slots",
        LastAfter(&[("a", 1, 65, None)], Some(("slots", 0))),
    ),
];

#[test]
fn faults_of_one(rt: HostRuntime) {
    all_hold(&rt, &rt, &OWN_FAULTS);
}

/// Instances that may build on others.
static FAMILIES: [(&str, Configured); 7] = [
    (
        "two children, one before their parent",
        Configured(
            &[
                ("a", 1, 1, Some("p")),
                ("p", 1, 1, None),
                ("b", 1, 1, Some("p")),
            ],
            None,
        ),
    ),
    (
        "no such name",
        Configured(
            &[("a", 1, 1, None), ("b", 1, 1, Some("c"))],
            Some(("parent", 1)),
        ),
    ),
    (
        "the own name",
        Configured(&[("a", 1, 1, Some("a"))], Some(("parent", 0))),
    ),
    (
        "a parent that has a parent",
        Configured(
            &[
                ("p", 1, 1, None),
                ("b", 1, 1, Some("a")),
                ("a", 1, 1, Some("p")),
            ],
            Some(("parent", 1)),
        ),
    ),
    (
        "two that build on each other",
        Configured(
            &[("a", 1, 1, Some("b")), ("b", 1, 1, Some("a"))],
            Some(("parent", 0)),
        ),
    ),
    (
        "no name",
        Configured(
            &[("p", 1, 1, None), ("a", 1, 1, Some(""))],
            Some(("parent", 1)),
        ),
    ),
    // A fault of an instance by itself comes first, wherever it stands.
    (
        "a later name before a parent",
        Configured(
            &[("a", 1, 1, Some("c")), ("B", 1, 1, None)],
            Some(("name", 1)),
        ),
    ),
];

#[test]
fn parents(rt: HostRuntime) {
    all_hold(&rt, &rt, &FAMILIES);
}

/// Instances, and the number of the last one's parent.
struct LastParent(&'static [Wanted], Option<usize>);

fn last_parent(configs: &Configs) -> Option<usize> {
    configs.parent_of(configs.instances().last()?)
}

impl Case for LastParent {
    fn holds(&self, host: &HostRuntime, _name: &str) -> bool {
        let mut instances = Vec::new(host.alloc());
        if add(host.alloc(), &mut instances, self.0).is_err() {
            return false;
        }
        match Configs::new(instances) {
            Ok(configs) => last_parent(&configs) == self.1,
            Err(_) => false,
        }
    }
}

static PARENTS: [(&str, LastParent); 2] = [
    (
        "a child",
        LastParent(
            &[("o", 1, 1, None), ("p", 1, 1, None), ("a", 1, 1, Some("p"))],
            Some(1),
        ),
    ),
    (
        "no parent",
        LastParent(&[("p", 1, 1, None), ("o", 1, 1, None)], None),
    ),
];

#[test]
fn numbers_of_parents(rt: HostRuntime) {
    all_hold(&rt, &rt, &PARENTS);
}
