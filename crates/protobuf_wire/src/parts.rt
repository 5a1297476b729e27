//! Writing a field: a call for each kind of field. A default is left out.

ghost use Rattle.std.specs.Prelude.{◌≡◌, ◌<◌, ℕ, List, map, option_map, OnOk};
ghost use Rattle.std.specs.Int.{w64, cast_unsigned};
ghost use Rattle.protobuf_wire.specs.Record.{field_number_limit};
ghost use Rattle.protobuf_wire.specs.Writing.{records_text, bytes_field, varint, packed_text, followed_by, followed_by_records};
ghost use Rattle.protobuf_wire.specs.Parts.{int64_field, int32_field, flag_field, string_field, repeated_enum_field, repeated_octets_field, sent_field};

use crate::writer::Writer;
use std::alloc::AllocError;

/// Adds an `int64`; a negative one takes ten bytes.
pub fn put_int64(writer: &mut Writer, field: u32, value: i64) -> Result<(), AllocError>
    requires positive { 0 < field }
    requires small { field < field_number_limit }
    ensures { OnOk result (writer.new ≡ followed_by_records writer.old (int64_field field value)) }
{
    writer.varint(field, value.cast_unsigned())
}

/// Adds an `int32` or an enum; a negative one takes ten bytes, as an `int64` does.
pub fn put_int32(writer: &mut Writer, field: u32, value: i32) -> Result<(), AllocError>
    requires positive { 0 < field }
    requires small { field < field_number_limit }
    ensures { OnOk result (writer.new ≡ followed_by_records writer.old (int32_field field value)) }
{
    writer.varint(field, i64::from(value).cast_unsigned())
}

/// Adds a `bool`.
pub fn put_flag(writer: &mut Writer, field: u32, value: bool) -> Result<(), AllocError>
    requires positive { 0 < field }
    requires small { field < field_number_limit }
    ensures { OnOk result (writer.new ≡ followed_by_records writer.old (flag_field field value)) }
{
    writer.varint(field, u64::from(value))
}

/// Adds a `bytes`.
pub fn put_octets(writer: &mut Writer, field: u32, value: &[u8]) -> Result<(), AllocError>
    requires positive { 0 < field }
    requires small { field < field_number_limit }
    ensures { OnOk result (writer.new ≡ followed_by_records writer.old
        (bytes_field field value.now)) }
{
    writer.bytes(field, value)
}

/// Adds a `string`.
pub fn put_string(writer: &mut Writer, field: u32, value: &str) -> Result<(), AllocError>
    requires positive { 0 < field }
    requires small { field < field_number_limit }
    ensures { OnOk result (writer.new ≡ followed_by_records writer.old
        (string_field field value.now)) }
{
    writer.bytes(field, value.as_bytes())
}

/// Adds a `repeated bytes`, empty ones too.
pub fn put_repeated_octets(
    writer: &mut Writer,
    field: u32,
    values: &[&[u8]],
) -> Result<(), AllocError>
    requires positive { 0 < field }
    requires small { field < field_number_limit }
    ensures { OnOk result (writer.new ≡ followed_by_records writer.old
        (repeated_octets_field field (map (λ b. b.now) values.now))) }
{
    let mut left = values;
    'values: while let [first, rest @ ..] = left {
        writer.message(field, first)?;
        left = rest;
    }
    Ok(())
}

/// Adds an embedded message by the bytes that were sent, where it is set.
#[tactic(auto, using(crate::proofs::Written::followed_by_none))]
pub fn put_sent(
    writer: &mut Writer,
    field: u32,
    message: &Option<Vec<u8>>,
) -> Result<(), AllocError>
    requires positive { 0 < field }
    requires small { field < field_number_limit }
    ensures { OnOk result (writer.new ≡ followed_by_records writer.old
        (sent_field field (option_map (λ v. v.items) message.now))) }
{
    match message {
        None => Ok(()),
        Some(bytes) => writer.message(field, bytes),
    }
}

fn put_packed_enum(writer: &mut Writer, value: i32) -> Result<(), AllocError>
    ensures { OnOk result (writer.new ≡ followed_by writer.old (varint (cast_unsigned w64 value))) }
{
    writer.packed_number(i64::from(value).cast_unsigned())
}

fn put_packed(writer: &mut Writer, values: &[i32]) -> Result<(), AllocError>
    ensures { OnOk result (writer.new
        ≡ followed_by writer.old (packed_text (map (cast_unsigned w64) values.now))) }
{
    let mut left = values;
    'values: while let [first, rest @ ..] = left {
        put_packed_enum(writer, *first)?;
        left = rest;
    }
    Ok(())
}

/// Adds a repeated enum, packed in one record.
#[tactic(auto, using(crate::proofs::Written::payload_behind_head, crate::proofs::Written::followed_by_none))]
pub fn put_repeated_enum(writer: &mut Writer, field: u32, values: &[i32]) -> Result<(), AllocError>
    requires positive { 0 < field }
    requires small { field < field_number_limit }
    ensures { OnOk result (writer.new ≡ followed_by_records writer.old
        (repeated_enum_field field values.now)) }
{
    let mut measure = Writer::measuring();
    put_packed(&mut measure, values)?;
    let length = measure.measured()?;
    if length > 0 {
        writer.payload_head(field, length)?;
        put_packed(writer, values)?;
    }
    Ok(())
}
