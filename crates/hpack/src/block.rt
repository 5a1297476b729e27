//! Header blocks: RFC 7541, sections 3 and 4.2.

ghost use Rattle.std.specs.Prelude.{◌≡◌, true};
ghost use Rattle.hpack.specs.Results.{Gives, GivesInMemory};
ghost use Rattle.hpack.specs.Block as spec;
ghost use Rattle.hpack.specs.Block.{update_at, updates_of, fields_of, block_of, list_limit};

use crate::dynamic_table::{DynamicTable, LARGEST_TABLE};
use crate::error::HpackError;
use crate::headers::Headers;
use crate::integer::read_integer;
use crate::representation::read_field;

/// The greatest size of a field list (RFC 9113, section 6.5.2).
const LIST_LIMIT: usize = 65536;

/// How many fields a field list has room for at first. Most requests have fewer, and so ask for
/// memory once.
const USUAL_FIELDS: usize = 32;

/// The same for the octets of their names and values.
const USUAL_OCTETS: usize = 1024;

/// Whether the front is a size update (section 6.3).
fn begins_update(bytes: &[u8]) -> bool
    ensures { result ≡ spec.begins_update bytes.now }
{
    matches!(bytes, [32..=63, ..])
}

/// The maximum that the size update at the front sets, and what follows it.
fn read_update(bytes: &[u8]) -> Result<(u32, &[u8]), HpackError>
    requires { spec.begins_update bytes.now ≡ true }
    ensures { Gives (λ x. (x.0, x.1.now)) result (update_at bytes.now) }
{
    let [first, rest @ ..] = bytes else {
        unreachable!();
    };
    let (maximum, rest) = read_integer(31, *first - 32, rest)?;
    if maximum > LARGEST_TABLE {
        return Err(HpackError::SizeUpdate);
    }
    Ok((maximum, rest))
}

/// Makes the size updates at the front, and gives what follows them (section 4.2).
#[tactic(auto, using(crate::proofs::Steps::updates_go, crate::proofs::Steps::updates_stop))]
fn read_updates<'a>(table: &mut DynamicTable, bytes: &'a [u8]) -> Result<&'a [u8], HpackError>
    ensures { Gives (λ rest. (table.new, rest.now)) result (updates_of table.old bytes.now) }
{
    let mut left = bytes;
    'updates: while begins_update(left) {
        let (maximum, rest) = read_update(left)?;
        table.resize(maximum);
        left = rest;
    }
    Ok(left)
}

/// Reads header fields to the end, as far as the field list may be large.
fn read_fields(table: &mut DynamicTable, bytes: &[u8]) -> Result<Headers, HpackError>
    ensures { GivesInMemory (λ fields. (fields, table.new)) result
        (fields_of list_limit table.old bytes.now) }
{
    let mut lengths = Vec::with_capacity(table.allocator(), USUAL_FIELDS)?;
    let mut text = Vec::with_capacity(table.allocator(), USUAL_OCTETS)?;
    let mut room = LIST_LIMIT;
    let mut left = bytes;
    'fields: while !left.is_empty() {
        let before = text.len();
        let (field_lengths, rest) = read_field(table, left, &mut text)?;
        let (field, _) = field_lengths.split(&text[before..]);
        let Some(after) = field.room_after(room) else {
            return Err(HpackError::ListTooLarge);
        };
        lengths.push(field_lengths)?;
        room = after;
        left = rest;
    }
    Ok(Headers::new(lengths, text))
}

/// The fields of a block, which may change the table.
#[tactic(auto, unfolding(crate::specs::Block::block_of))]
pub(crate) fn read_block(table: &mut DynamicTable, bytes: &[u8]) -> Result<Headers, HpackError>
    ensures { GivesInMemory (λ fields. (fields, table.new)) result (block_of table.old bytes.now) }
{
    let rest = read_updates(table, bytes)?;
    read_fields(table, rest)
}
