//! Integers: RFC 7541, section 5.1.

ghost use Rattle.std.specs.Prelude.{◌≡◌, ◌+◌, ◌^◌, ◌<◌, ◌≤◌, ◌++◌, length, IfOk, OnOk};
ghost use Rattle.hpack.specs.Results.{Gives};
ghost use Rattle.hpack.specs.Integer as spec;
ghost use Rattle.hpack.specs.Integer.{groups_at, integer_at, integer_text};

use crate::error::HpackError;
use numerals::push_groups;
use std::alloc::AllocError;

/// Refuses a number of 2^32 or more.
fn below_limit(number: u64, rest: &[u8]) -> Result<(u32, &[u8]), HpackError>
    ensures { Gives (λ x. (x.0, x.1.now)) result (spec.below_limit number rest.now) }
{
    match u32::try_from(number) {
        Ok(number) => Ok((number, rest)),
        Err(_) => Err(HpackError::Integer),
    }
}

/// The number that groups of seven bits give, the low group first, and what follows its at most
/// `left` groups.
#[tactic(auto, unfolding(crate::specs::Integer::groups_at))]
fn read_groups(left: u8, bytes: &[u8]) -> Result<(u32, &[u8]), HpackError>
    ensures { Gives (λ x. (x.0, x.1.now)) result (groups_at left bytes.now) }
{
    match bytes {
        [] => Err(HpackError::Integer),
        [last, rest @ ..] if *last < 128 => Ok((u32::from(*last), rest)),
        [low, rest @ ..] => {
            if left <= 1 {
                return Err(HpackError::Integer);
            }
            let (high, rest) = read_groups(left - 1, rest)?;
            below_limit(128 * u64::from(high) + u64::from(*low - 128), rest)
        }
    }
}

/// The integer whose prefix was read, where `full` is the prefix of ones alone, and what follows
/// it.
#[tactic(auto, unfolding(crate::specs::Integer::integer_at))]
pub(crate) fn read_integer(full: u8, prefix: u8, bytes: &[u8]) -> Result<(u32, &[u8]), HpackError>
    requires { prefix ≤ full }
    ensures { Gives (λ x. (x.0, x.1.now)) result (integer_at full prefix bytes.now) }
{
    if prefix < full {
        return Ok((u32::from(prefix), bytes));
    }
    let (beyond, rest) = read_groups(5, bytes)?;
    below_limit(u64::from(full) + u64::from(beyond), rest)
}

/// Adds an integer to the flags that stand above its prefix, where `full` is the prefix of ones
/// alone.
#[tactic(auto, unfolding(crate::specs::Integer::integer_text))]
pub(crate) fn push_integer(
    out: &mut Vec<u8>,
    flags: u8,
    full: u8,
    number: usize,
) -> Result<(), AllocError>
    requires { flags + full < 256 }
    ensures { OnOk result (out.new.items ≡ out.old.items ++ integer_text flags full number) }
{
    if number < usize::from(full) {
        out.push(flags + number as u8)?;
        return Ok(());
    }
    out.push(flags + full)?;
    push_groups(out, (number - usize::from(full)) as u64)
}
