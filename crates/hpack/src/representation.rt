//! Representations of header fields: RFC 7541, section 6.

ghost use Rattle.std.specs.Prelude.{◌≡◌, ◌+◌, ◌≤◌, length, IfOk, OnOk};
ghost use Rattle.hpack.specs.Results.{GivesInMemory};
ghost use Rattle.hpack.specs.FieldLists.{header_in, text_behind, BeginsWith};
ghost use Rattle.hpack.specs.Representation.{name_at, literal_at, indexed_at, field_at};

use crate::dynamic_table::DynamicTable;
use crate::error::HpackError;
use crate::headers::FieldLengths;
use crate::integer::read_integer;
use crate::string::read_string;

/// Adds the name at the front, and gives what follows it.
#[tactic(auto, unfolding(crate::specs::Representation::name_at), using(crate::proofs::FieldLists::behind_is, crate::proofs::FieldLists::begins))]
fn read_name<'a>(
    table: &DynamicTable,
    full: u8,
    prefix: u8,
    bytes: &'a [u8],
    out: &mut Vec<u8>,
) -> Result<&'a [u8], HpackError>
    requires { prefix ≤ full }
    ensures name { GivesInMemory (λ rest. (text_behind out.old.items out.new.items, rest.now))
        result (name_at table.now full prefix bytes.now) }
    ensures front { OnOk result (BeginsWith out.old.items out.new.items) }
{
    let (index, rest) = read_integer(full, prefix, bytes)?;
    if index == 0 {
        return read_string(rest, out);
    }
    match table.get(index) {
        Some((name, _)) => {
            out.extend_from_slice(name)?;
            Ok(rest)
        }
        None => Err(HpackError::Index),
    }
}

/// Adds the name and the value of the literal at the front, and gives their lengths and what
/// follows it (section 6.2).
#[tactic(auto, unfolding(crate::specs::Representation::literal_at))]
fn read_literal<'a>(
    table: &DynamicTable,
    full: u8,
    prefix: u8,
    bytes: &'a [u8],
    out: &mut Vec<u8>,
) -> Result<(FieldLengths, &'a [u8]), HpackError>
    requires { prefix ≤ full }
    ensures field { GivesInMemory
        (λ x. (header_in x.0 (text_behind out.old.items out.new.items), x.1.now)) result
        (literal_at table.now full prefix bytes.now) }
    ensures front { OnOk result (BeginsWith out.old.items out.new.items) }
    ensures whole { IfOk result (λ x. x.0.name + x.0.value
        ≡ length (text_behind out.old.items out.new.items)) }
{
    let before = out.len();
    let rest = read_name(table, full, prefix, bytes, out)?;
    let between = out.len();
    let rest = read_string(rest, out)?;
    let lengths = FieldLengths {
        name: between - before,
        value: out.len() - between,
    };
    Ok((lengths, rest))
}

/// Adds the name and the value of the field of the index at the front, and gives their lengths and
/// what follows it (section 6.1).
#[tactic(auto, unfolding(crate::specs::Representation::indexed_at))]
fn read_indexed<'a>(
    table: &DynamicTable,
    prefix: u8,
    bytes: &'a [u8],
    out: &mut Vec<u8>,
) -> Result<(FieldLengths, &'a [u8]), HpackError>
    requires { prefix ≤ 127 }
    ensures field { GivesInMemory
        (λ x. (header_in x.0 (text_behind out.old.items out.new.items), x.1.now)) result
        (indexed_at table.now prefix bytes.now) }
    ensures front { OnOk result (BeginsWith out.old.items out.new.items) }
    ensures whole { IfOk result (λ x. x.0.name + x.0.value
        ≡ length (text_behind out.old.items out.new.items)) }
{
    let (index, rest) = read_integer(127, prefix, bytes)?;
    let Some((name, value)) = table.get(index) else {
        return Err(HpackError::Index);
    };
    out.extend_from_slice(name)?;
    out.extend_from_slice(value)?;
    let lengths = FieldLengths {
        name: name.len(),
        value: value.len(),
    };
    Ok((lengths, rest))
}

/// Adds the name and the value of the header field at the front, which may change the table, and
/// gives their lengths and what follows it.
#[tactic(auto, unfolding(crate::specs::Representation::field_at))]
pub(crate) fn read_field<'a>(
    table: &mut DynamicTable,
    bytes: &'a [u8],
    out: &mut Vec<u8>,
) -> Result<(FieldLengths, &'a [u8]), HpackError>
    ensures field { GivesInMemory
        (λ x. (header_in x.0 (text_behind out.old.items out.new.items), table.new, x.1.now)) result
        (field_at table.old bytes.now) }
    ensures front { OnOk result (BeginsWith out.old.items out.new.items) }
    ensures whole { IfOk result (λ x. x.0.name + x.0.value
        ≡ length (text_behind out.old.items out.new.items)) }
{
    match bytes {
        [] => Err(HpackError::Index),
        [first @ 0..=15, rest @ ..] => read_literal(table, 15, *first, rest, out),
        [first @ 16..=31, rest @ ..] => read_literal(table, 15, *first - 16, rest, out),
        [first @ 32..=63, rest @ ..] => {
            read_integer(31, *first - 32, rest)?;
            Err(HpackError::SizeUpdate)
        }
        [first @ 64..=127, rest @ ..] => {
            let before = out.len();
            let (lengths, rest) = read_literal(table, 63, *first - 64, rest, out)?;
            let (field, _) = lengths.split(&out[before..]);
            table.insert(&field)?;
            Ok((lengths, rest))
        }
        [first, rest @ ..] => read_indexed(table, *first - 128, rest, out),
    }
}
