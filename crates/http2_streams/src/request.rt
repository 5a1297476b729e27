//! The field list of a request (RFC 9113 section 8.3.1).

ghost use Rattle.std.specs.Prelude.{◌≡◌, ◌<◌, ◌^◌, codes, count_by, length, take_while};
ghost use Rattle.std.specs.List.{list_any, list_all};
ghost use Rattle.http2_streams.specs.FieldSyntax.{is_request_field};
ghost use Rattle.http2_streams.specs.Request.{is_lawful, is_pseudo_field, is_named, count_of_name, has_pseudo_fields_first, is_empty_path, is_well_formed_request};

use crate::field_syntax::{is_request_field, names_pseudo};
use hpack::{HeaderField, Headers};

/// Whether a block with these fields is a request. One that is not is malformed (RFC 9113 section
/// 8.1.1).
pub fn is_well_formed_request(fields: &Headers) -> bool
    ensures { result ≡ is_well_formed_request fields.now }
{
    has_lawful_fields(fields)
        && has_pseudo_fields_first(fields)
        && count_of(fields, b":method") == 1
        && count_of(fields, b":scheme") == 1
        && count_of(fields, b":path") == 1
        && count_of(fields, b":authority") <= 1
        && !has_empty_path(fields)
}

fn is_lawful(field: &HeaderField<'_>) -> bool
    ensures { result ≡ is_lawful field.now }
{
    is_request_field(field.name(), field.value())
}

fn has_lawful_fields(fields: &Headers) -> bool
    ensures { result ≡ list_all is_lawful fields.now }
{
    let mut left = fields.iter();
    'fields: while let Some(field) = left.next() {
        if !is_lawful(&field) {
            return false;
        }
    }
    true
}

fn is_pseudo_field(field: &HeaderField<'_>) -> bool
    ensures { result ≡ is_pseudo_field field.now }
{
    names_pseudo(field.name())
}

fn has_pseudo_fields_first(fields: &Headers) -> bool
    ensures { result ≡ has_pseudo_fields_first fields.now }
{
    count_of_pseudo(fields) == count_of_leading_pseudo(fields)
}

fn count_of_pseudo(fields: &Headers) -> usize
    ensures { result ≡ count_by is_pseudo_field fields.now }
{
    fields.iter().filter(|field| is_pseudo_field(field)).count()
}

fn count_of_leading_pseudo(fields: &Headers) -> usize
    ensures { result ≡ length (take_while is_pseudo_field fields.now) }
{
    let mut count = 0;
    let mut left = fields.iter();
    'fields: while let Some(field) = left.next() {
        if !is_pseudo_field(&field) {
            break;
        }
        count += 1;
    }
    count
}

fn is_named(field: &HeaderField<'_>, name: &[u8]) -> bool
    ensures { result ≡ is_named name.now field.now }
{
    field.name() == name
}

/// How many fields have the name.
fn count_of(fields: &Headers, name: &[u8]) -> usize
    ensures { result ≡ count_of_name name.now fields.now }
{
    fields.iter().filter(|field| is_named(field, name)).count()
}

fn is_empty_path(field: &HeaderField<'_>) -> bool
    ensures { result ≡ is_empty_path field.now }
{
    is_named(field, b":path") && field.value().is_empty()
}

fn has_empty_path(fields: &Headers) -> bool
    ensures { result ≡ list_any is_empty_path fields.now }
{
    let mut left = fields.iter();
    'fields: while let Some(field) = left.next() {
        if is_empty_path(&field) {
            return true;
        }
    }
    false
}
