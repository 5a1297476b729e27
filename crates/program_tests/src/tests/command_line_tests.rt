//! What command lines ask for.

use crate::tests::cases::all_hold;
use crate::tests::command_lines::Wanted::{self, Asks};
use crate::tests::command_lines::{Numbers, Task};
use std::test::*;

static TASKS: [(&str, Wanted); 20] = [
    (
        "remoted",
        Asks(Task {
            kind: "unary",
            file: None,
            numbers: (0, 0, 0),
            others: &[],
            instances: &[],
        }),
    ),
    (
        "remoted unary calls.txt",
        Asks(Task {
            kind: "unary",
            file: Some("calls.txt"),
            numbers: (0, 0, 0),
            others: &[],
            instances: &[],
        }),
    ),
    (
        "remoted replay events.txt",
        Asks(Task {
            kind: "replay",
            file: Some("events.txt"),
            numbers: (0, 0, 0),
            others: &[],
            instances: &[],
        }),
    ),
    (
        "remoted probe --port 1 --send in.bin --want 0",
        Asks(Task {
            kind: "probe",
            file: Some("in.bin"),
            numbers: (1, 0, 1000000000),
            others: &[],
            instances: &[],
        }),
    ),
    (
        "remoted probe --turns 0 --want 9223372036854775807 --send in.bin --port 65535",
        Asks(Task {
            kind: "probe",
            file: Some("in.bin"),
            numbers: (65535, 9223372036854775807, 0),
            others: &[],
            instances: &[],
        }),
    ),
    (
        "remoted probe --port 1 --send in.bin --want 64K",
        Asks(Task {
            kind: "probe",
            file: Some("in.bin"),
            numbers: (1, 65536, 1000000000),
            others: &[],
            instances: &[],
        }),
    ),
    (
        "remoted probe --port 1 --send in.bin --want 0500M",
        Asks(Task {
            kind: "probe",
            file: Some("in.bin"),
            numbers: (1, 524288000, 1000000000),
            others: &[],
            instances: &[],
        }),
    ),
    (
        "remoted probe --port 1 --send in.bin --want 8388607T",
        Asks(Task {
            kind: "probe",
            file: Some("in.bin"),
            numbers: (1, 9223370937343148032, 1000000000),
            others: &[],
            instances: &[],
        }),
    ),
    (
        "remoted serve --work here a:1:2:3",
        Asks(Task {
            kind: "serve",
            file: Some("here"),
            numbers: (1000000000, 0, 0),
            others: &["127.0.0.1", "", "", "", ""],
            instances: &["a:1:2:3"],
        }),
    ),
    (
        "remoted serve a:1:2:3 --turns 5 --work here b:4:5:6 no-instance",
        Asks(Task {
            kind: "serve",
            file: Some("here"),
            numbers: (5, 0, 0),
            others: &["127.0.0.1", "", "", "", ""],
            instances: &["a:1:2:3", "b:4:5:6", "no-instance"],
        }),
    ),
    (
        "remoted serve --launcher bin/sandbox --work here a:1:2:3",
        Asks(Task {
            kind: "bin/sandbox",
            file: Some("here"),
            numbers: (1000000000, 0, 0),
            others: &["127.0.0.1", "", "", "", ""],
            instances: &["a:1:2:3"],
        }),
    ),
    (
        "remoted serve --made-trees 20G --launcher bin/sandbox --work here a:1:2:3",
        Asks(Task {
            kind: "bin/sandbox",
            file: Some("here"),
            numbers: (1000000000, 21474836480, 0),
            others: &["127.0.0.1", "", "", "", ""],
            instances: &["a:1:2:3"],
        }),
    ),
    (
        "remoted serve --work here --made-trees 0K a:1:2:3",
        Asks(Task {
            kind: "serve",
            file: Some("here"),
            numbers: (1000000000, 0, 0),
            others: &["127.0.0.1", "", "", "", ""],
            instances: &["a:1:2:3"],
        }),
    ),
    (
        "remoted serve --work here --turns endless a:1:2:3",
        Asks(Task {
            kind: "serve",
            file: Some("here"),
            numbers: (18446744073709551615, 0, 0),
            others: &["127.0.0.1", "", "", "", ""],
            instances: &["a:1:2:3"],
        }),
    ),
    (
        "remoted serve --stop end --metrics out --listen ::1 --turns 9223372036854775807 --work here a:1:2:3",
        Asks(Task {
            kind: "serve",
            file: Some("here"),
            numbers: (9223372036854775807, 0, 0),
            others: &["::1", "out", "end", "", ""],
            instances: &["a:1:2:3"],
        }),
    ),
    (
        "remoted serve --work here --links fail --end jobs a:1:2:3",
        Asks(Task {
            kind: "serve",
            file: Some("here"),
            numbers: (1000000000, 0, 0),
            others: &["127.0.0.1", "", "", "jobs", "fail"],
            instances: &["a:1:2:3"],
        }),
    ),
    (
        "remoted check --port 8980",
        Asks(Task {
            kind: "check",
            file: None,
            numbers: (8980, 5, 0),
            others: &["127.0.0.1", ""],
            instances: &[],
        }),
    ),
    (
        "remoted check --seconds 3600 --instance a --host 10.0.0.1 --port 65535",
        Asks(Task {
            kind: "check",
            file: None,
            numbers: (65535, 3600, 0),
            others: &["10.0.0.1", "a"],
            instances: &[],
        }),
    ),
    (
        "remoted check --metrics out --instance a",
        Asks(Task {
            kind: "figures",
            file: Some("out"),
            numbers: (0, 0, 0),
            others: &["a"],
            instances: &[],
        }),
    ),
    (
        "remoted check --metrics out",
        Asks(Task {
            kind: "figures",
            file: Some("out"),
            numbers: (0, 0, 0),
            others: &[""],
            instances: &[],
        }),
    ),
];

static NUMBERS: [(&str, Numbers); 7] = [
    ("remoted", Numbers(65536, 10000, 67108864, 65535)),
    (
        "remoted serve --work here a:1:2:3",
        Numbers(65536, 10000, 67108864, 65535),
    ),
    (
        "remoted replay --results 0 in.txt",
        Numbers(65536, 0, 67108864, 65535),
    ),
    (
        "remoted unary --blobs 1 in.txt",
        Numbers(1, 10000, 67108864, 65535),
    ),
    (
        "remoted serve --work here --blobs 2147483648 --results 2147483648 --result-bytes 2G --window 2147483647 a:1:2:3",
        Numbers(2147483648, 2147483648, 2147483648, 2147483647),
    ),
    (
        "remoted serve --work here --result-bytes 4M --window 64K a:1:2:3",
        Numbers(65536, 10000, 4194304, 65536),
    ),
    (
        "remoted replay --window 65535 --blobs 7 --result-bytes 5000000 --results 3 in.txt",
        Numbers(7, 3, 5000000, 65535),
    ),
];

#[test]
fn numbers_of_instances(rt: HostRuntime) {
    all_hold(&rt, &rt, &NUMBERS);
}

#[test]
fn invocations(rt: HostRuntime) {
    all_hold(&rt, &rt, &TASKS);
}
