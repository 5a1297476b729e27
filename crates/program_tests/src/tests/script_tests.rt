//! Lines, words, numbers and bytes of scripts.

use crate::tests::cases::{Case, all_hold};
use numerals::decimal;
use script::*;
use std::alloc::Global;
use std::test::*;

fn are(parts: Parts, wanted: &[&str]) -> bool {
    let mut left = wanted;
    for part in parts {
        match left {
            [first, rest @ ..] if part == first.as_bytes() => left = rest,
            _ => return false,
        }
    }
    left.is_empty()
}

/// The lines of a text.
struct Lines(&'static [&'static str]);

impl Case for Lines {
    fn holds(&self, _host: &HostRuntime, text: &str) -> bool {
        are(lines(text.as_bytes()), self.0)
    }
}

static LINES: [(&str, Lines); 6] = [
    ("", Lines(&[""])),
    ("a", Lines(&["a"])),
    ("a\n", Lines(&["a", ""])),
    ("a\n\nb", Lines(&["a", "", "b"])),
    ("a\r\nb", Lines(&["a\r", "b"])),
    ("\n", Lines(&["", ""])),
];

/// The words of a line.
struct Words(&'static [&'static str]);

impl Case for Words {
    fn holds(&self, _host: &HostRuntime, line: &str) -> bool {
        are(words(line.as_bytes()), self.0)
    }
}

static WORDS: [(&str, Words); 5] = [
    ("put a -", Words(&["put", "a", "-"])),
    ("put  a", Words(&["put", "", "a"])),
    (" a", Words(&["", "a"])),
    ("a ", Words(&["a", ""])),
    ("a\tb", Words(&["a\tb"])),
];

#[test]
fn lines_and_words(rt: HostRuntime) {
    all_hold(&rt, &rt, &LINES);
    all_hold(&rt, &rt, &WORDS);
}

/// The number that a word writes.
struct Number(Option<u64>);

impl Case for Number {
    fn holds(&self, _host: &HostRuntime, word: &str) -> bool {
        decimal(word.as_bytes()) == self.0
    }
}

static NUMBERS: [(&str, Number); 14] = [
    ("0", Number(Some(0))),
    ("007", Number(Some(7))),
    ("1099511627776", Number(Some(1 << 40))),
    ("18446744073709551615", Number(Some(u64::MAX))),
    ("18446744073709551616", Number(None)),
    (
        "000000000000000000000000000000000000000018446744073709551615",
        Number(Some(u64::MAX)),
    ),
    ("99999999999999999999999999999999999999999999", Number(None)),
    ("", Number(None)),
    ("+1", Number(None)),
    ("-1", Number(None)),
    ("1_000", Number(None)),
    ("0x10", Number(None)),
    ("1 ", Number(None)),
    ("１", Number(None)),
];

#[test]
fn decimal_numbers(rt: HostRuntime) {
    all_hold(&rt, &rt, &NUMBERS);
}

/// The bytes that a word writes.
struct Bytes(Option<&'static [u8]>);

impl Case for Bytes {
    fn holds(&self, host: &HostRuntime, word: &str) -> bool {
        match hex_bytes(host.alloc(), word.as_bytes()) {
            Ok(read) => read.as_deref() == self.0,
            Err(_) => false,
        }
    }
}

static BYTES: [(&str, Bytes); 14] = [
    ("616263", Bytes(Some(b"abc"))),
    ("00ff", Bytes(Some(b"\x00\xff"))),
    ("-", Bytes(Some(b""))),
    ("", Bytes(None)),
    ("6", Bytes(None)),
    ("616", Bytes(None)),
    ("6A", Bytes(None)),
    ("FF", Bytes(None)),
    ("6g", Bytes(None)),
    ("--", Bytes(None)),
    ("-6", Bytes(None)),
    ("0x61", Bytes(None)),
    ("61 ", Bytes(None)),
    ("６１", Bytes(None)),
];

#[test]
fn bytes_in_hexadecimal(rt: HostRuntime) {
    all_hold(&rt, &rt, &BYTES);
}

fn writes(out: &mut Vec<u8>) -> bool {
    write_hex(out, b"").is_ok()
        && out.push(b' ').is_ok()
        && write_hex(out, &[0, 10, 171, 255]).is_ok()
}

fn are_written(alloc: Global) -> bool {
    let mut out = Vec::new(alloc);
    writes(&mut out) && out.as_slice() == b"- 000aabff".as_slice()
}

#[test]
fn bytes_are_written(rt: HostRuntime) {
    assert!(rt; are_written(rt.alloc()));
}
