//! Bytes in hexadecimal.
ghost use Rattle.std.specs.Prelude.{◌≡◌, ◌++◌, string_bytes, IfOk, OnOk, OnErr};
ghost use Rattle.std.specs.List.{list_all};
ghost use Rattle.std.specs.Option.{option_map};
ghost use Rattle.script.specs.Hexadecimal.{bytes_of_hex, digits_bytes, hex_word, is_lower_hex_digit};

use hex::FromHexError;
use std::alloc::{AllocError as NoMemory, Global};

/// The bytes that a word writes in lower-case hexadecimal, `-` for no bytes; `None` where the word
/// writes none: an empty one, one of odd length, or one with another byte in it.
pub fn hex_bytes(alloc: Global, word: &[u8]) -> Result<Option<Vec<u8>>, NoMemory>
    ensures { IfOk result (λ found. option_map (λ bytes. bytes.items) found
        ≡ bytes_of_hex word.now) }
{
    match word {
        [] => Ok(None),
        [b'-'] => Ok(Some(Vec::new(alloc))),
        digits => digits_bytes(alloc, digits),
    }
}

// The bytes of pairs of lower-case digits.
fn digits_bytes(alloc: Global, digits: &[u8]) -> Result<Option<Vec<u8>>, NoMemory>
    ensures { IfOk result (λ found. option_map (λ bytes. bytes.items) found
        ≡ digits_bytes digits.now) }
{
    if !are_lower_digits(digits) {
        return Ok(None);
    }
    match hex::decode(alloc, digits) {
        Ok(bytes) => Ok(Some(bytes)),
        Err(FromHexError::OutOfMemory) => Err(NoMemory),
        Err(_) => Ok(None),
    }
}

pub(crate) fn are_lower_digits(digits: &[u8]) -> bool
    ensures { result ≡ list_all is_lower_hex_digit digits.now }
{
    digits
        .iter()
        .all(|byte| matches!(byte, b'0'..=b'9' | b'a'..=b'f'))
}

/// The word that writes the bytes: lower-case hexadecimal, or `-` for no bytes.
pub(crate) fn hex_text(alloc: Global, bytes: &[u8]) -> Result<String, NoMemory>
    ensures { IfOk result (λ text. string_bytes text ≡ hex_word bytes.now) }
{
    if bytes.is_empty() {
        String::from_str(alloc, "-")
    } else {
        hex::encode(alloc, bytes)
    }
}

/// Appends the word that writes the bytes: lower-case hexadecimal, or `-` for no bytes. Where
/// memory is refused, `out` has the items that it had.
pub fn write_hex(out: &mut Vec<u8>, bytes: &[u8]) -> Result<(), NoMemory>
    ensures written { OnOk result (out.new.items ≡ out.old.items ++ hex_word bytes.now) }
    ensures refused { OnErr result (out.new.items ≡ out.old.items) }
{
    let text = hex_text(*out.allocator(), bytes)?;
    out.extend_from_slice(text.as_bytes())
}
