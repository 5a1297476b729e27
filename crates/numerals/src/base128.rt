//! Numbers in groups of seven bits, the low group first: each byte but the last has its high bit
//! set.
//!
//! The varints of Protocol Buffers are these (Encoding, "Base 128 Varints"), and what follows the
//! prefix of an integer in HPACK (RFC 7541, section 5.1). How long a number may be, and what
//! becomes of one that is too large, each of the two says for itself.

ghost use Rattle.std.specs.Prelude.{◌≡◌, ◌++◌, OnOk, OnErr};
ghost use Rattle.numerals.specs.Groups.{groups, BeginsWith};

use std::alloc::AllocError;

/// Adds a number in as few bytes as there can be, or a part of them where memory is refused.
#[tactic(auto, using(crate::proofs::Groups::groups_small, crate::proofs::Groups::groups_large, crate::proofs::Fronts::begins_itself, crate::proofs::Fronts::begins_more))]
pub fn push_groups(out: &mut Vec<u8>, number: u64) -> Result<(), AllocError>
    ensures ok { OnOk result (out.new.items ≡ out.old.items ++ groups number) }
    ensures err { OnErr result (BeginsWith out.new.items out.old.items) }
{
    let mut left = number;
    while left >= 128 {
        out.push((left % 128) as u8 + 128)?;
        left /= 128;
    }
    out.push(left as u8)?;
    Ok(())
}
