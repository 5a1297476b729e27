//! The static table: RFC 7541, appendix A.

ghost use Rattle.std.specs.Prelude.{◌≡◌, ◌+◌, ◌^◌, ◌<◌, ◌≤◌, Some, slice_get, length, map};
ghost use Rattle.hpack.specs.StaticTable as spec;
ghost use Rattle.hpack.specs.StaticTable.{static_table, name_index_in};
ghost use Rattle.hpack.specs.Shown.{row_shown};

/// How many entries the table has.
pub(crate) const STATIC_LENGTH: usize = 61;

/// A name and a value.
type Row = (&'static [u8], &'static [u8]);

/// The rows, from index 1 on.
const STATIC_TABLE: [Row; STATIC_LENGTH] = [
    (b":authority", b""),
    (b":method", b"GET"),
    (b":method", b"POST"),
    (b":path", b"/"),
    (b":path", b"/index.html"),
    (b":scheme", b"http"),
    (b":scheme", b"https"),
    (b":status", b"200"),
    (b":status", b"204"),
    (b":status", b"206"),
    (b":status", b"304"),
    (b":status", b"400"),
    (b":status", b"404"),
    (b":status", b"500"),
    (b"accept-charset", b""),
    (b"accept-encoding", b"gzip, deflate"),
    (b"accept-language", b""),
    (b"accept-ranges", b""),
    (b"accept", b""),
    (b"access-control-allow-origin", b""),
    (b"age", b""),
    (b"allow", b""),
    (b"authorization", b""),
    (b"cache-control", b""),
    (b"content-disposition", b""),
    (b"content-encoding", b""),
    (b"content-language", b""),
    (b"content-length", b""),
    (b"content-location", b""),
    (b"content-range", b""),
    (b"content-type", b""),
    (b"cookie", b""),
    (b"date", b""),
    (b"etag", b""),
    (b"expect", b""),
    (b"expires", b""),
    (b"from", b""),
    (b"host", b""),
    (b"if-match", b""),
    (b"if-modified-since", b""),
    (b"if-none-match", b""),
    (b"if-range", b""),
    (b"if-unmodified-since", b""),
    (b"last-modified", b""),
    (b"link", b""),
    (b"location", b""),
    (b"max-forwards", b""),
    (b"proxy-authenticate", b""),
    (b"proxy-authorization", b""),
    (b"range", b""),
    (b"referer", b""),
    (b"refresh", b""),
    (b"retry-after", b""),
    (b"server", b""),
    (b"set-cookie", b""),
    (b"strict-transport-security", b""),
    (b"transfer-encoding", b""),
    (b"user-agent", b""),
    (b"vary", b""),
    (b"via", b""),
    (b"www-authenticate", b""),
];

fn row_at(rows: &[Row], place: usize) -> Row
    requires { place < length rows.now }
    ensures { slice_get (map row_shown rows.now) place ≡ Some (row_shown result) }
{
    rows[place]
}

/// The name and the value at an index, which counts from 0 here.
pub(crate) fn static_entry(place: usize) -> (&'static [u8], &'static [u8])
    requires { place < 61 }
    ensures { slice_get static_table place ≡ Some (row_shown result) }
{
    row_at(&STATIC_TABLE, place)
}

fn index_in(rows: &[Row], name: &[u8]) -> usize
    requires { length rows.now < 2 ^ 32 }
    ensures { result ≡ name_index_in (map row_shown rows.now) 1 name.now }
{
    let mut index = 1;
    let mut left = rows;
    'rows: while let [row, rest @ ..] = left {
        if row.0 == name {
            return index;
        }
        index += 1;
        left = rest;
    }
    0
}

/// The index of the first row with a name, counted from 1, or 0.
pub(crate) fn name_index(name: &[u8]) -> usize
    ensures { result ≡ spec.name_index name.now }
{
    index_in(&STATIC_TABLE, name)
}
