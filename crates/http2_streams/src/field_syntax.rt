//! Field names and values, by themselves (RFC 9113 section 8.2).

ghost use Rattle.std.specs.Prelude.{◌≡◌, codes};
ghost use Rattle.http2_streams.specs.FieldSyntax.{is_text, is_field_name_byte, is_valid_name, is_forbidden, is_blank, is_valid_value, is_pseudo, is_request_pseudo, is_connection_specific, is_allowed_te, is_request_field, is_colon};
ghost use Rattle.std.specs.List.{list_any, list_all};

const COLON: u8 = b':';

/// Whether a request may have this field, whatever others it has.
pub(crate) fn is_request_field(name: &[u8], value: &[u8]) -> bool
    ensures { result ≡ is_request_field name.now value.now }
{
    has_valid_name(name)
        && has_valid_value(value)
        && (!names_pseudo(name) || names_request_pseudo(name))
        && !names_connection_specific(name)
        && has_allowed_te(name, value)
}

fn has_valid_name(name: &[u8]) -> bool
    ensures { result ≡ is_valid_name name.now }
{
    !name.is_empty() && has_name_bytes(name) && !has_colon(&name[1..])
}

fn has_name_bytes(name: &[u8]) -> bool
    ensures { result ≡ list_all is_field_name_byte name.now }
{
    name.iter().all(|byte| may_stand_in_name(*byte))
}

fn has_colon(text: &[u8]) -> bool
    ensures { result ≡ list_any is_colon text.now }
{
    text.iter().any(|byte| *byte == COLON)
}

fn may_stand_in_name(byte: u8) -> bool
    ensures { result ≡ is_field_name_byte byte }
{
    0x20 < byte && byte < 0x7f && !(b'A' <= byte && byte <= b'Z')
}

fn has_valid_value(value: &[u8]) -> bool
    ensures { result ≡ is_valid_value value.now }
{
    !has_forbidden(value)
        && !has_space_or_tab(&value[..value.len().min(1)])
        && !has_space_or_tab(&value[value.len().saturating_sub(1)..])
}

fn has_forbidden(value: &[u8]) -> bool
    ensures { result ≡ list_any is_forbidden value.now }
{
    value
        .iter()
        .any(|byte| *byte == 0 || *byte == b'\n' || *byte == b'\r')
}

fn has_space_or_tab(text: &[u8]) -> bool
    ensures { result ≡ list_any is_blank text.now }
{
    text.iter().any(|byte| *byte == b' ' || *byte == b'\t')
}

/// A pseudo-header field's name begins with a colon.
pub(crate) fn names_pseudo(name: &[u8]) -> bool
    ensures { result ≡ is_pseudo name.now }
{
    has_colon(&name[..name.len().min(1)])
}

fn names_request_pseudo(name: &[u8]) -> bool
    ensures { result ≡ is_request_pseudo name.now }
{
    name == b":method".as_slice()
        || name == b":scheme".as_slice()
        || name == b":authority".as_slice()
        || name == b":path".as_slice()
}

/// It is asked of each field of each request: names of other lengths are not gone over.
fn names_connection_specific(name: &[u8]) -> bool
    ensures { result ≡ is_connection_specific name.now }
{
    match name.len() {
        7 => name == b"upgrade".as_slice(),
        10 => name == b"connection".as_slice() || name == b"keep-alive".as_slice(),
        16 => name == b"proxy-connection".as_slice(),
        17 => name == b"transfer-encoding".as_slice(),
        _ => false,
    }
}

fn has_allowed_te(name: &[u8], value: &[u8]) -> bool
    ensures { result ≡ is_allowed_te name.now value.now }
{
    name != b"te".as_slice() || value == b"trailers".as_slice()
}
