//! HPACK: its Huffman code, and header blocks.

use crate::octets::octets;
use grpc_calls::{HeadFault, head};
use hpack::{Decoder, HeaderField, Headers};
use hpack_huffman::{HuffmanError, decode_into};
use http2_streams::is_well_formed_request;
use tool_programs::Output;

/// The word for how decoding ended.
fn word_of(answer: Result<(), HuffmanError>) -> &'static [u8] {
    match answer {
        Ok(()) => b"text ",
        Err(HuffmanError::Eos) => b"eos ",
        Err(HuffmanError::Padding) => b"padding ",
        Err(HuffmanError::NoMemory) => b"no-memory ",
    }
}

/// Decodes bytes onto a vector with one byte, and writes that.
fn show_decoded(coded: &[u8], out: &mut Output) {
    let mut text = Vec::new(out.alloc);
    let begun = text.extend_from_slice(b"\xff");
    out.expect(begun);
    let word = word_of(decode_into(coded, &mut text));
    out.print(word);
    out.print_hex(&text);
    out.print(b"\n");
}

/// Decodes each line's bytes.
pub fn huffman(operations: &[&[u8]], out: &mut Output) {
    for line in operations {
        show_decoded(&octets(line, out), out);
    }
}

/// Writes a byte as it is, or, where it is not printable or is `%`, as `%` and two digits.
fn show_byte(byte: u8, out: &mut Output) {
    match byte {
        b'%' | 0..=0x1f | 0x7f..=0xff => {
            out.print(b"%");
            out.print_hex(&[byte]);
        }
        _ => out.print(&[byte]),
    }
}

/// Writes each byte so.
fn show_text(bytes: &[u8], out: &mut Output) {
    for byte in bytes {
        show_byte(*byte, out);
    }
}

/// Writes which call's the fields are, or why they are no call's.
fn show_call(headers: &Headers, out: &mut Output) {
    match head(headers) {
        Ok(method) => {
            out.print(b"call ");
            out.print(method.path());
        }
        Err(HeadFault::Method) => out.print(b"not-post"),
        Err(HeadFault::ContentType) => out.print(b"content-type"),
        Err(HeadFault::Path) => out.print(b"path"),
    }
}

/// Writes how many fields there are, and whether they are a request's.
fn show_request(headers: &Headers, out: &mut Output) {
    let count = headers.len();
    out.print_text(format!(in out.alloc; "{count} fields "));
    match is_well_formed_request(headers) {
        true => out.print(b"request "),
        false => out.print(b"no-request "),
    }
}

fn show_field(field: &HeaderField<'_>, out: &mut Output) {
    out.print(b" | ");
    show_text(field.name(), out);
    out.print(b"=");
    show_text(field.value(), out);
}

/// Writes the first eight fields.
fn show_fields(headers: &Headers, out: &mut Output) {
    for field in headers.iter().take(8) {
        show_field(&field, out);
    }
}

fn show_table_size(decoder: &Decoder, out: &mut Output) {
    let size = decoder.table_size();
    out.print_text(format!(in out.alloc; " table {size}"));
}

/// Reads a header block, and writes what it has, and the size of the table behind it.
fn show_block(decoder: &mut Decoder, block: &[u8], out: &mut Output) {
    match decoder.block(block) {
        Ok(headers) => {
            show_request(&headers, out);
            show_call(&headers, out);
            show_table_size(decoder, out);
            show_fields(&headers, out);
        }
        Err(fault) => {
            out.print_text(format!(in out.alloc; "{fault:?}"));
            show_table_size(decoder, out);
        }
    }
    out.print(b"\n");
}

/// Reads each line's bytes as a header block, all by one decoder.
pub fn blocks(operations: &[&[u8]], out: &mut Output) {
    let mut decoder = Decoder::new(out.alloc);
    for line in operations {
        show_block(&mut decoder, &octets(line, out), out);
    }
}
