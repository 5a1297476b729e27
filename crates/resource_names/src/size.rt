//! The size that a segment writes.

ghost use Rattle.std.specs.Prelude.{◌≡◌, ◌<◌, IfSome};
ghost use Rattle.resource_names.specs.Size as sizes;
ghost use Rattle.resource_names.specs.Size.{size_in, size_limit};

use numerals::are_digits;

/// Whether a text is `0`, or decimal digits of which the first is not `0`.
fn is_numeral(text: &str) -> bool
    ensures { result ≡ sizes.is_numeral text.now }
{
    text == "0"
        || (!text.is_empty() && !text.as_bytes().starts_with(b"0") && are_digits(text.as_bytes()))
}

/// The size that a segment writes: at most 2^63 - 1, as `size_bytes` of a digest. A numeral has no
/// leading zeros, so that a size is written in one way, which `numerals::decimal` does not ask for.
pub(crate) fn size(text: &str) -> Option<u64>
    ensures value { result ≡ size_in text.now }
    ensures most { IfSome result (λ size. size < size_limit) }
{
    if !is_numeral(text) {
        return None;
    }
    match text.parse::<u64>() {
        Ok(size) if size < 1 << 63 => Some(size),
        Ok(_) => None,
        Err(_) => None,
    }
}
