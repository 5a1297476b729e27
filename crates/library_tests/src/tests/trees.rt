//! The tests of trees, of many shapes.

use crate::mixed::{Stored, mixed_ending, mixed_nodes_are};
use crate::shapes::{Ending, Shape, walked_otherwise};
use std::test::*;

static SHAPES: [Shape; 11] = [
    Shape {
        name: "a root alone",
        levels: 1,
        links: 0,
        directories: 1,
        ending: Ending::Nodes(0),
    },
    Shape {
        name: "64 levels",
        levels: 64,
        links: 0,
        directories: 1,
        ending: Ending::Nodes(63),
    },
    Shape {
        name: "65 levels",
        levels: 65,
        links: 0,
        directories: 1,
        ending: Ending::TooDeep,
    },
    Shape {
        name: "10,000 nodes",
        levels: 1,
        links: 10_000,
        directories: 0,
        ending: Ending::Nodes(10_000),
    },
    Shape {
        name: "one node more",
        levels: 1,
        links: 10_001,
        directories: 0,
        ending: Ending::TooMany,
    },
    Shape {
        name: "9,983 nodes in 64 levels",
        levels: 64,
        links: 155,
        directories: 1,
        ending: Ending::Nodes(9_983),
    },
    Shape {
        name: "one directory in 99 places, each of which has one in 99",
        levels: 3,
        links: 0,
        directories: 99,
        ending: Ending::Nodes(9_900),
    },
    Shape {
        name: "one directory in 100 places, each of which has one in 100",
        levels: 3,
        links: 0,
        directories: 100,
        ending: Ending::TooMany,
    },
    Shape {
        name: "twice as many directories on each of 13 levels",
        levels: 13,
        links: 0,
        directories: 2,
        ending: Ending::Nodes(8_190),
    },
    Shape {
        name: "the same on 64 levels",
        levels: 64,
        links: 0,
        directories: 2,
        ending: Ending::TooMany,
    },
    Shape {
        name: "the same on 65 levels, of which the last is met before the 10,001st node",
        levels: 65,
        links: 0,
        directories: 2,
        ending: Ending::TooDeep,
    },
];

#[test]
fn shapes_end_as_they_say(rt: HostRuntime) -> Result<(), Fail> {
    assert_eq!(rt; walked_otherwise(rt.alloc(), &SHAPES)?, None);
    Ok(())
}

#[test]
fn a_plan_has_names_and_levels(rt: HostRuntime) -> Result<(), Fail> {
    let stored = Stored {
        files: true,
        inner: true,
        is_good: true,
    };
    let nodes = [("a", 1), ("b", 1), ("c", 1), ("d", 2), ("e", 2)];
    assert!(rt; mixed_nodes_are(rt.alloc(), &stored, &nodes));
    Ok(())
}

#[test]
fn what_is_missing_is_counted(rt: HostRuntime) -> Result<(), Fail> {
    let no_files = Stored {
        files: false,
        inner: true,
        is_good: true,
    };
    let nothing = Stored {
        files: false,
        inner: false,
        is_good: true,
    };
    assert!(rt; mixed_ending(rt.alloc(), &no_files) == Ending::Missing(2));
    assert!(rt; mixed_ending(rt.alloc(), &nothing) == Ending::Missing(2));
    Ok(())
}

#[test]
fn a_bad_directory_counts_before_missing_files(rt: HostRuntime) -> Result<(), Fail> {
    let bad = Stored {
        files: false,
        inner: true,
        is_good: false,
    };
    assert!(rt; mixed_ending(rt.alloc(), &bad) == Ending::BadDirectory);
    Ok(())
}
