//! What is wrong with the first bad line of a script, for whoever wrote it.

use crate::hexadecimal::are_lower_digits;
use numerals::decimal;
use server_events::{INSTANCE_LIMIT, is_instance_name, is_quota};
use std::str;

/// What the lines of a script say.
#[derive(Clone, Copy)]
pub enum ScriptKind {
    Calls,
    Events,
}

/// The events of a script, and what stands behind the word of each. `exit` may have files behind
/// that.
const EVENTS: [(&str, &str, &str); 7] = [
    ("open", "M I C", "it is not open M I C"),
    ("closed", "M I C", "it is not closed M I C"),
    ("bytes", "M I C HEX", "it is not bytes M I C HEX"),
    ("took", "M I C N", "it is not took M I C N"),
    ("tick", "M I", "it is not tick M I"),
    (
        "exit",
        "M I JOB CODE HEX HEX",
        "it is not exit M I JOB CODE HEX HEX PATH=HEX ..",
    ),
    ("fail", "M I JOB", "it is not fail M I JOB"),
];

const METHODS: [&str; 3] = ["FindMissingBlobs", "BatchUpdateBlobs", "BatchReadBlobs"];

/// The most slots of an instance.
const MOST_SLOTS: u64 = 64;

const NO_NAME: &str = "NAME is not 1 to 64 of a-z, 0-9 and -, or it is a word of resource names";

const NO_HEX: &str = "HEX is not bytes in lower-case hexadecimal, or - for none";

const NO_INSTANCE: &str = "no instance before it has the name";

fn is_number_below(word: &[u8], bound: u64) -> bool {
    decimal(word).is_some_and(|number| number < bound)
}

fn is_code(word: &[u8]) -> bool {
    match word {
        [b'-', digits @ ..] => is_number_below(digits, (1 << 31) + 1),
        digits => is_number_below(digits, 1 << 31),
    }
}

fn is_hex(word: &[u8]) -> bool {
    word == b"-".as_slice() || (!word.is_empty() && word.len() % 2 == 0 && are_lower_digits(word))
}

/// Whether a word is `PATH=HEX`.
fn is_output(word: &[u8]) -> bool {
    let Ok(word) = str::from_utf8(word) else {
        return false;
    };
    match word.rsplit_once('=') {
        Some((_, hex)) => is_hex(hex.as_bytes()),
        None => false,
    }
}

/// What is wrong with a word that stands at the place of this name.
fn fault_of_word(name: &str, word: &[u8]) -> Option<&'static str> {
    let (is_right, fault) = match name {
        "M" => (decimal(word).is_some(), "M is not a number below 2^64"),
        "JOB" => (decimal(word).is_some(), "JOB is not a number below 2^64"),
        "I" => (
            is_number_below(word, 1 << 32),
            "I is not a number below 2^32",
        ),
        "C" => (
            is_number_below(word, 1 << 32),
            "C is not a number below 2^32",
        ),
        "N" => (
            is_number_below(word, 1 << 32),
            "N is not a number below 2^32",
        ),
        "CODE" => (
            is_code(word),
            "CODE is not a number from -2147483648 to 2147483647",
        ),
        _ => (is_hex(word), NO_HEX),
    };
    if is_right { None } else { Some(fault) }
}

/// What is wrong with the words of an event.
fn fault_of_event(kind: &[u8], words: &[u8]) -> Option<&'static str> {
    for (event, form, no_form) in EVENTS.iter() {
        if kind != event.as_bytes() {
            continue;
        }
        if words.is_empty() {
            return Some(*no_form);
        }
        let mut rest = words.split(|byte| *byte == b' ');
        for name in form.split(' ') {
            let Some(word) = rest.next() else {
                return Some(*no_form);
            };
            if let Some(fault) = fault_of_word(name, word) {
                return Some(fault);
            }
        }
        for word in rest {
            if kind != b"exit".as_slice() {
                return Some(*no_form);
            }
            if !is_output(word) {
                return Some("a word behind the others is not PATH=HEX");
            }
        }
        return None;
    }
    Some("it begins with none of instance, open, closed, bytes, took, tick, exit and fail")
}

/// A line as its first word, and what stands behind that and a space.
fn parts_of(line: &[u8]) -> (&[u8], &[u8]) {
    match line.iter().position(|byte| *byte == b' ') {
        Some(place) => (
            line.get(..place).unwrap_or(line),
            line.get(place.saturating_add(1)..).unwrap_or(&[]),
        ),
        None => (line, &[]),
    }
}

/// What the lines before one have.
#[derive(Clone, Copy)]
struct Before {
    has_others: bool,
    has_name: bool,
    instances: usize,
}

/// What the lines before that of a number have, whether one of them configures an instance of this
/// name among it.
fn find_before(text: &[u8], number: u64, name: &[u8]) -> Before {
    let mut found = Before {
        has_others: false,
        has_name: false,
        instances: 0,
    };
    let mut place: u64 = 0;
    for line in text.split(|byte| *byte == b'\n') {
        place = place.saturating_add(1);
        if place >= number {
            break;
        }
        let (kind, words) = parts_of(line);
        if kind == b"instance".as_slice() {
            found.instances = found.instances.saturating_add(1);
            found.has_name = found.has_name || parts_of(words).0 == name;
        } else if !line.is_empty() {
            found.has_others = true;
        }
    }
    found
}

/// What is wrong with the words behind `instance`.
fn fault_of_instance(script: ScriptKind, words: &[u8], before: Before) -> Option<&'static str> {
    if before.has_others {
        return Some("instances are configured before all other lines");
    }
    let (name, rest) = parts_of(words);
    let (quota, rest) = parts_of(rest);
    let (slots, parent) = parts_of(rest);
    let (is_formed, no_form) = match script {
        ScriptKind::Calls => (rest.is_empty(), "it is not instance NAME QUOTA"),
        ScriptKind::Events => (
            !rest.is_empty() && !parent.contains(&b' '),
            "it is not instance NAME QUOTA SLOTS [PARENT]",
        ),
    };
    if !is_formed || quota.is_empty() {
        return Some(no_form);
    }
    if !decimal(quota).is_some_and(|quota| is_quota(quota)) {
        return Some("QUOTA is not a number from 0 to 1099511627776");
    }
    if !rest.is_empty() && !is_number_below(slots, MOST_SLOTS + 1) {
        return Some("SLOTS is not a number from 0 to 64");
    }
    if !is_instance_name(name) {
        return Some(NO_NAME);
    }
    if before.has_name {
        return Some("an instance before it has the name");
    }
    if before.instances >= INSTANCE_LIMIT && !rest.is_empty() {
        return Some("there are more than 256 instances");
    }
    if parent.is_empty() {
        return None;
    }
    Some("PARENT is not another instance, or it has a parent itself")
}

/// What is wrong with the words behind `put` or `call`.
fn fault_of_command(kind: &[u8], words: &[u8], before: Before) -> Option<&'static str> {
    let (_, rest) = parts_of(words);
    let (method, message) = parts_of(rest);
    let is_call = kind == b"call".as_slice();
    let (hex, no_form) = if is_call {
        (message, "it is not call NAME METHOD HEX")
    } else {
        (rest, "it is not put NAME HEX")
    };
    if hex.is_empty() || hex.contains(&b' ') {
        return Some(no_form);
    }
    if !before.has_name {
        return Some(NO_INSTANCE);
    }
    if is_call && !METHODS.iter().any(|name| name.as_bytes() == method) {
        return Some("METHOD is not FindMissingBlobs, BatchUpdateBlobs or BatchReadBlobs");
    }
    if is_hex(hex) { None } else { Some(NO_HEX) }
}

/// What is wrong with any line.
fn fault_of_bytes(line: &[u8]) -> Option<&'static str> {
    if line.ends_with(b"\r".as_slice()) {
        return Some("it ends with a carriage return");
    }
    if !line.iter().all(|byte| byte.is_ascii()) {
        return Some("a byte of it is not ASCII");
    }
    if line.split(|byte| *byte == b' ').any(|word| word.is_empty()) {
        return Some("a space stands before its first word, behind its last, or beside another");
    }
    None
}

/// What is wrong with the line of a number, counted from 1, which is the first bad one of a text;
/// none where that is not known.
pub fn fault_of_line(script: ScriptKind, text: &[u8], number: u64) -> Option<&'static str> {
    let place = usize::try_from(number.checked_sub(1)?).ok()?;
    let line = text.split(|byte| *byte == b'\n').nth(place)?;
    if let Some(fault) = fault_of_bytes(line) {
        return Some(fault);
    }
    let (kind, words) = parts_of(line);
    let before = find_before(text, number, parts_of(words).0);
    if kind == b"instance".as_slice() {
        return fault_of_instance(script, words, before);
    }
    match script {
        ScriptKind::Events => fault_of_event(kind, words),
        ScriptKind::Calls if kind == b"put".as_slice() || kind == b"call".as_slice() => {
            fault_of_command(kind, words, before)
        }
        ScriptKind::Calls => Some("it begins with none of instance, put and call"),
    }
}
