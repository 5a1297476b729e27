//! Numbers in decimal.

ghost use Rattle.std.specs.Prelude.{◌≡◌};
ghost use Rattle.std.specs.List.{list_all};
ghost use Rattle.numerals.specs.Number.{decimal_of, is_decimal_digit};

use std::str;

/// The number that a word writes in decimal, where it is below 2^64. Leading zeros are allowed, a
/// sign is not.
pub fn decimal(word: &[u8]) -> Option<u64>
    ensures { result ≡ decimal_of word.now }
{
    if !are_digits(word) {
        return None;
    }
    // Digits are UTF-8, which `parse` asks for by its type.
    match str::from_utf8(word) {
        Ok(digits) => digits.parse().ok(),
        Err(_) => None,
    }
}

/// Whether all bytes are decimal digits.
pub fn are_digits(word: &[u8]) -> bool
    ensures { result ≡ list_all is_decimal_digit word.now }
{
    word.iter().all(|byte| byte.is_ascii_digit())
}
