//! Records of protobuf.

use crate::octets::octets;
use protobuf_wire::{Content, Field, Reader, WireError};
use tool_programs::Output;

/// The word for a fault.
pub fn word_of(fault: WireError) -> &'static [u8] {
    match fault {
        WireError::Truncated => b"truncated",
        WireError::Overlong => b"overlong",
        WireError::BadWireType => b"wire-type",
        WireError::BadField => b"field",
    }
}

fn show_bytes(before: &[u8], bytes: &[u8], out: &mut Output) {
    out.print(before);
    out.print_hex(bytes);
}

fn show_record(field: &Field<'_>, out: &mut Output) {
    let number = field.number;
    out.print_text(format!(in out.alloc; "{number}"));
    match field.content {
        Content::Varint(value) => out.print_text(format!(in out.alloc; "v{value}")),
        Content::Fixed64(bytes) => show_bytes(b"q", bytes, out),
        Content::Bytes(bytes) => show_bytes(b"b", bytes, out),
        Content::Fixed32(bytes) => show_bytes(b"d", bytes, out),
    }
    out.print(b" ");
}

/// Writes the next record, or how they end; tells whether there may be more.
fn show_next_record(reader: &mut Reader<'_>, out: &mut Output) -> bool {
    match reader.next() {
        Ok(Some(field)) => {
            show_record(&field, out);
            return true;
        }
        Ok(None) => out.print(b"end"),
        Err(fault) => out.print(word_of(fault)),
    }
    false
}

/// Writes the records of a text, and twice how they end.
fn show_records(text: &[u8], out: &mut Output) {
    let mut reader = Reader::new(text);
    for _ in 0..=text.len() {
        if !show_next_record(&mut reader, out) {
            break;
        }
    }
    out.print(b" ");
    show_next_record(&mut reader, out);
    out.print(b"\n");
}

/// Writes the records of each line's bytes.
pub fn records(operations: &[&[u8]], out: &mut Output) {
    for line in operations {
        show_records(&octets(line, out), out);
    }
}
