//! Numbers of bytes, as the command line writes them.

ghost use Rattle.std.specs.Prelude.{◌≡◌};
ghost use Rattle.command_line.specs.Size.{size_of, unit_of};

use numerals::decimal;

/// How many bytes are in the unit of a letter: a power of 1,024.
fn unit(letter: u8) -> Option<u64>
    ensures { result ≡ unit_of letter }
{
    match letter {
        b'K' => Some(1 << 10),
        b'M' => Some(1 << 20),
        b'G' => Some(1 << 30),
        b'T' => Some(1 << 40),
        _ => None,
    }
}

/// The number of bytes that a word writes, where it is below 2^64: decimal digits, as `1000`, or
/// digits with one of the units K, M, G and T behind them, as `500M`. Units are powers of 1,024.
/// Leading zeros are allowed; a sign, a space or another letter is not.
pub fn size(word: &[u8]) -> Option<u64>
    ensures { result ≡ size_of word.now }
{
    let (letter, digits) = word.split_last()?;
    match unit(*letter) {
        Some(unit) => decimal(digits)?.checked_mul(unit),
        None => decimal(word),
    }
}
