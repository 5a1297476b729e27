//! A `bytes` field whose value does not lie in one place.

ghost use Rattle.std.specs.Prelude.{◌≡◌, ◌<◌, OnOk};
ghost use Rattle.std.specs.List.{flat_map};
ghost use Rattle.protobuf_wire.specs.Record.{field_number_limit};
ghost use Rattle.protobuf_wire.specs.Writing.{bytes_field, followed_by, followed_by_records};
ghost use Rattle.protobuf_wire.specs.Pieces.{pieces_text};

use crate::writer::Writer;
use std::alloc::AllocError;

/// The value of a `bytes` field, in one piece or in several that follow one another.
#[derive(Drop, Debug)]
pub enum Pieces<'a> {
    One(&'a [u8]),
    Several(Vec<&'a [u8]>),
}

/// Adds the pieces of a payload whose head was added.
fn put_each(writer: &mut Writer, pieces: &[&[u8]]) -> Result<(), AllocError>
    ensures { OnOk result (writer.new
        ≡ followed_by writer.old (flat_map (λ p. p.now) pieces.now)) }
{
    let mut left = pieces;
    'pieces: while let [first, rest @ ..] = left {
        writer.payload_part(first)?;
        left = rest;
    }
    Ok(())
}

#[tactic(auto, using(crate::proofs::Written::payload_behind_head, crate::proofs::Written::followed_by_none))]
fn put_several(writer: &mut Writer, field: u32, pieces: &[&[u8]]) -> Result<(), AllocError>
    requires positive { 0 < field }
    requires small { field < field_number_limit }
    ensures { OnOk result (writer.new ≡ followed_by_records writer.old
        (bytes_field field (flat_map (λ p. p.now) pieces.now))) }
{
    let mut measure = Writer::measuring();
    put_each(&mut measure, pieces)?;
    let length = measure.measured()?;
    if length > 0 {
        writer.payload_head(field, length)?;
        put_each(writer, pieces)?;
    }
    Ok(())
}

/// Adds a `bytes` that lies in pieces. Each piece is copied once, to where it stands.
pub fn put_pieces(writer: &mut Writer, field: u32, value: &Pieces<'_>) -> Result<(), AllocError>
    requires positive { 0 < field }
    requires small { field < field_number_limit }
    ensures { OnOk result (writer.new ≡ followed_by_records writer.old
        (bytes_field field (pieces_text value.now))) }
{
    match value {
        Pieces::One(bytes) => writer.bytes(field, bytes),
        Pieces::Several(pieces) => put_several(writer, field, pieces),
    }
}
