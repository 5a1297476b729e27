//! How bytes and words stand in the vectors.

use numerals::decimal;
use script::{hex_bytes, words};
use std::alloc::AllocError;
use tool_programs::{Fault, Output};

/// What a line of another form fails with.
pub const BAD_LINE: Fault = Fault::InputOrOutput;

/// Adds bytes so many times.
fn add_times(piece: &[u8], count: u64, bytes: &mut Vec<u8>, out: &mut Output) {
    for _ in 0..count {
        if out.has_failed() {
            break;
        }
        out.expect(bytes.extend_from_slice(piece));
    }
}

/// Adds the bytes of hexadecimal digits, or of `-` for none, so many times.
fn add_digits(digits: &[u8], count: u64, bytes: &mut Vec<u8>, out: &mut Output) {
    match hex_bytes(out.alloc, digits) {
        Ok(Some(piece)) => add_times(&piece, count, bytes, out),
        Ok(None) => out.fail(BAD_LINE),
        Err(AllocError) => out.fail(Fault::OutOfMemory),
    }
}

/// Adds the bytes of a word.
fn add_word(word: &[u8], bytes: &mut Vec<u8>, out: &mut Output) {
    let (digits, count) = match word.iter().position(|byte| *byte == b'*') {
        Some(end) => (&word[..end], decimal(&word[end + 1..])),
        None => (word, Some(1)),
    };
    match count {
        Some(count) => add_digits(digits, count, bytes, out),
        None => out.fail(BAD_LINE),
    }
}

/// The bytes of a line: of each of its words in turn, which is hexadecimal, `-` for none, or
/// `HEX*COUNT` for so many times those of HEX. At a line of another form `out` fails.
pub fn octets(line: &[u8], out: &mut Output) -> Vec<u8> {
    let mut bytes = Vec::new(out.alloc);
    for word in words(line) {
        add_word(word, &mut bytes, out);
    }
    bytes
}

/// What a word stands for in a list of words with what they stand for.
pub fn named<T: Copy>(list: &[(&[u8], T)], word: &[u8]) -> Option<T> {
    for (name, meant) in list {
        if *name == word {
            return Some(*meant);
        }
    }
    None
}
