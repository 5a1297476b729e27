//! String literals: RFC 7541, section 5.2.

ghost use Rattle.std.specs.Prelude.{◌≡◌, ◌++◌, OnOk};
ghost use Rattle.hpack.specs.Results.{Gives, GivesInMemory};
ghost use Rattle.hpack.specs.FieldLists.{text_behind, BeginsWith};
ghost use Rattle.hpack.specs.StringLiteral.{octets_at, expansion, string_at, string_text};

use crate::error::HpackError;
use crate::integer::{push_integer, read_integer};
use hpack_huffman::{HuffmanError, decode_into};
use std::alloc::AllocError;

/// The first `count` octets, and what follows them.
fn split(count: u32, bytes: &[u8]) -> Result<(&[u8], &[u8]), HpackError>
    ensures { Gives (λ x. (x.0.now, x.1.now)) result (octets_at count bytes.now) }
{
    if bytes.len() < count as usize {
        return Err(HpackError::String);
    }
    Ok(bytes.split_at(count as usize))
}

/// Adds the text of a Huffman coding.
#[tactic(auto, using(crate::proofs::FieldLists::behind_is, crate::proofs::FieldLists::begins))]
fn expand(coding: &[u8], out: &mut Vec<u8>) -> Result<(), HpackError>
    ensures text { GivesInMemory (λ _. text_behind out.old.items out.new.items) result
        (expansion coding.now) }
    ensures front { OnOk result (BeginsWith out.old.items out.new.items) }
{
    match decode_into(coding, out) {
        Ok(()) => Ok(()),
        Err(HuffmanError::NoMemory) => Err(HpackError::NoMemory),
        Err(_) => Err(HpackError::Huffman),
    }
}

/// Adds the string at the front, and gives what follows it.
#[tactic(auto, unfolding(crate::specs::StringLiteral::string_at), using(crate::proofs::FieldLists::behind_is, crate::proofs::FieldLists::begins))]
pub(crate) fn read_string<'a>(bytes: &'a [u8], out: &mut Vec<u8>) -> Result<&'a [u8], HpackError>
    ensures text { GivesInMemory (λ rest. (text_behind out.old.items out.new.items, rest.now))
        result (string_at bytes.now) }
    ensures front { OnOk result (BeginsWith out.old.items out.new.items) }
{
    match bytes {
        [] => Err(HpackError::String),
        [first @ 0..=127, rest @ ..] => {
            let (count, rest) = read_integer(127, *first, rest)?;
            let (text, rest) = split(count, rest)?;
            out.extend_from_slice(text)?;
            Ok(rest)
        }
        [first, rest @ ..] => {
            let (count, rest) = read_integer(127, *first - 128, rest)?;
            let (coding, rest) = split(count, rest)?;
            expand(coding, out)?;
            Ok(rest)
        }
    }
}

/// Adds a string as it is.
pub(crate) fn push_string(out: &mut Vec<u8>, text: &[u8]) -> Result<(), AllocError>
    ensures { OnOk result (out.new.items ≡ out.old.items ++ string_text text.now) }
{
    push_integer(out, 0, 127, text.len())?;
    out.extend_from_slice(text)
}
