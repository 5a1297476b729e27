//! The blocks that a server writes. They add nothing to a dynamic table, so that no encoder has to
//! be kept.

ghost use Rattle.std.specs.Prelude.{◌≡◌, ◌++◌, ◌<◌, OnOk, OnErr, map, length};
ghost use Rattle.std.specs.List.{flat_map};
ghost use Rattle.hpack.specs.Encoding as spec;
ghost use Rattle.hpack.specs.StaticTable as table;
ghost use Rattle.hpack.specs.Encoding.{field_text, block_text};
ghost use Rattle.hpack.specs.Shown.{field_shown};

use crate::integer::push_integer;
use crate::static_table::name_index;
use crate::string::push_string;
use std::alloc::AllocError;

/// Whether a block is the first of its connection.
#[derive(Clone, Copy, Debug)]
pub enum Position {
    /// It begins by setting the size of the dynamic table to 0 (RFC 7541, section 4.2).
    First,
    /// It leaves the dynamic table as it is.
    Later,
}

/// A header field to write.
#[derive(Clone, Copy, Debug)]
pub struct Field<'a> {
    pub name: &'a [u8],
    pub value: &'a [u8],
}

fn push_name(out: &mut Vec<u8>, name: &[u8]) -> Result<(), AllocError>
    ensures { OnOk result (out.new.items ≡ out.old.items
        ++ spec.name_text (table.name_index name.now) name.now) }
{
    let index = name_index(name);
    if index == 0 {
        out.push(0)?;
        return push_string(out, name);
    }
    push_integer(out, 0, 15, index)
}

fn push_field(out: &mut Vec<u8>, field: &Field<'_>) -> Result<(), AllocError>
    ensures { OnOk result (out.new.items ≡ out.old.items ++ field_text (field_shown field.now)) }
{
    if field.name == b":status".as_slice() && field.value == b"200".as_slice() {
        out.push(0x88)?;
        return Ok(());
    }
    push_name(out, field.name)?;
    push_string(out, field.value)
}

fn push_fields(out: &mut Vec<u8>, fields: &[Field<'_>]) -> Result<(), AllocError>
    ensures { OnOk result (out.new.items ≡ out.old.items
        ++ flat_map field_text (map field_shown fields.now)) }
{
    for field in fields {
        push_field(out, field)?;
    }
    Ok(())
}

/// Adds a block with these fields. A status of 200 is an index (RFC 7541, section 6.1), each other
/// field a literal without indexing (section 6.2.2) and without Huffman coding, with the index of
/// its name where the static table has it. A refused vector is as before.
pub fn encode_into(
    position: Position,
    fields: &[Field<'_>],
    out: &mut Vec<u8>,
) -> Result<(), AllocError>
    ensures ok { OnOk result (out.new.items ≡ out.old.items
        ++ block_text position (map field_shown fields.now)) }
    ensures err { OnErr result (out.new.items ≡ out.old.items) }
{
    let mut block = Vec::new(*out.allocator());
    match position {
        Position::First => block.push(0x20)?,
        Position::Later => {}
    }
    push_fields(&mut block, fields)?;
    out.extend_from_slice(&block)
}
