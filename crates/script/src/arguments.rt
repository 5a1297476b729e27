//! The words after the first of a line.
ghost use Rattle.std.specs.Prelude.{◌≡◌, Option, option_map};
ghost use Rattle.std.specs.Char.{is_ascii};
ghost use Rattle.std.specs.List.{list_all};
ghost use Rattle.script.specs.Arguments.{one_of, two_of, three_of, three_or_four_of, number_of, exit_code_of, only_number_of, ascii_of};

use crate::Parts;
use numerals::decimal;
use std::str;

/// The number below 2^32 that a word writes in decimal.
pub(crate) fn number(word: &[u8]) -> Option<u32>
    ensures { result ≡ number_of word.now }
{
    u32::try_from(decimal(word)?).ok()
}

/// The exit code that a word writes in decimal, perhaps with a minus before it.
pub(crate) fn exit_code(word: &[u8]) -> Option<i32>
    ensures { result ≡ exit_code_of word.now }
{
    match word {
        [b'-', digits @ ..] => i32::try_from(-i64::from(number(digits)?)).ok(),
        digits => i32::try_from(decimal(digits)?).ok(),
    }
}

/// The word, where there is one.
pub(crate) fn one<'a>(mut words: Parts<'a>) -> Option<&'a [u8]>
    ensures { option_map (λ w. w.now) result ≡ one_of words.entry }
{
    let only = words.next()?;
    match words.next() {
        None => Some(only),
        Some(_) => None,
    }
}

/// The words, where there are two.
pub(crate) fn two<'a>(mut words: Parts<'a>) -> Option<(&'a [u8], &'a [u8])>
    ensures { option_map (λ w. (w.0.now, w.1.now)) result ≡ two_of words.entry }
{
    let first = words.next()?;
    let second = words.next()?;
    match words.next() {
        None => Some((first, second)),
        Some(_) => None,
    }
}

/// The words, where there are three.
pub(crate) fn three<'a>(mut words: Parts<'a>) -> Option<(&'a [u8], &'a [u8], &'a [u8])>
    ensures { option_map (λ w. (w.0.now, w.1.now, w.2.now)) result ≡ three_of words.entry }
{
    let first = words.next()?;
    let second = words.next()?;
    let third = words.next()?;
    match words.next() {
        None => Some((first, second, third)),
        Some(_) => None,
    }
}

/// The words, where there are three, or four.
pub(crate) fn three_or_four<'a>(
    mut words: Parts<'a>,
) -> Option<(&'a [u8], &'a [u8], &'a [u8], Option<&'a [u8]>)>
    ensures { option_map (λ w. (w.0.now, w.1.now, w.2.now, option_map (λ f. f.now) w.3)) result
        ≡ three_or_four_of words.entry }
{
    let first = words.next()?;
    let second = words.next()?;
    let third = words.next()?;
    let Some(fourth) = words.next() else {
        return Some((first, second, third, None));
    };
    match words.next() {
        None => Some((first, second, third, Some(fourth))),
        Some(_) => None,
    }
}

/// The text of a word of ASCII.
pub(crate) fn ascii_text(word: &[u8]) -> Option<&str>
    ensures { option_map (λ text. text.now) result ≡ ascii_of word.now }
{
    if !are_ascii(word) {
        return None;
    }
    match str::from_utf8(word) {
        Ok(text) => Some(text),
        Err(_) => None,
    }
}

/// Whether all bytes are ASCII.
pub(crate) fn are_ascii(word: &[u8]) -> bool
    ensures { result ≡ list_all is_ascii word.now }
{
    word.iter().all(|byte| byte.is_ascii())
}

/// The number below 2^32 that the only word writes.
pub(crate) fn only_number(words: Parts) -> Option<u32>
    ensures { result ≡ only_number_of words.entry }
{
    number(one(words)?)
}
