//! The code of RFC 7541, appendix B, for a decoder: the codes of each length are consecutive
//! numbers.

ghost use Rattle.std.specs.Prelude.{◌<◌};
ghost use Rattle.hpack_huffman.specs.Table.{AreShort, IsInRows, IsIn, OpensWith};

/// The most bits that a code has.
pub(crate) const LONGEST: u32 = 30;

/// The code of EOS, which is the last one: thirty ones.
pub(crate) const EOS: u32 = 0x3fff_ffff;

/// The codes of one length.
struct Codes {
    length: u32,
    /// The first of them, as a number.
    first: u32,
    /// Where its symbol stands in [`SYMBOLS`].
    place: usize,
    /// What follows the last of them, as the beginning of thirty bits.
    limit: u32,
}

/// The codes that are not EOS, by their lengths.
const CODES: [Codes; 21] = [
    Codes {
        length: 5,
        first: 0x0,
        place: 0,
        limit: 0x1400_0000,
    },
    Codes {
        length: 6,
        first: 0x14,
        place: 10,
        limit: 0x2e00_0000,
    },
    Codes {
        length: 7,
        first: 0x5c,
        place: 36,
        limit: 0x3e00_0000,
    },
    Codes {
        length: 8,
        first: 0xf8,
        place: 68,
        limit: 0x3f80_0000,
    },
    Codes {
        length: 10,
        first: 0x3f8,
        place: 74,
        limit: 0x3fd0_0000,
    },
    Codes {
        length: 11,
        first: 0x7fa,
        place: 79,
        limit: 0x3fe8_0000,
    },
    Codes {
        length: 12,
        first: 0xffa,
        place: 82,
        limit: 0x3ff0_0000,
    },
    Codes {
        length: 13,
        first: 0x1ff8,
        place: 84,
        limit: 0x3ffc_0000,
    },
    Codes {
        length: 14,
        first: 0x3ffc,
        place: 90,
        limit: 0x3ffe_0000,
    },
    Codes {
        length: 15,
        first: 0x7ffc,
        place: 92,
        limit: 0x3fff_8000,
    },
    Codes {
        length: 19,
        first: 0x7fff0,
        place: 95,
        limit: 0x3fff_9800,
    },
    Codes {
        length: 20,
        first: 0xfffe6,
        place: 98,
        limit: 0x3fff_b800,
    },
    Codes {
        length: 21,
        first: 0x1fffdc,
        place: 106,
        limit: 0x3fff_d200,
    },
    Codes {
        length: 22,
        first: 0x3fffd2,
        place: 119,
        limit: 0x3fff_ec00,
    },
    Codes {
        length: 23,
        first: 0x7fffd8,
        place: 145,
        limit: 0x3fff_fa80,
    },
    Codes {
        length: 24,
        first: 0xffffea,
        place: 174,
        limit: 0x3fff_fd80,
    },
    Codes {
        length: 25,
        first: 0x1ffffec,
        place: 186,
        limit: 0x3fff_fe00,
    },
    Codes {
        length: 26,
        first: 0x3ffffe0,
        place: 190,
        limit: 0x3fff_fef0,
    },
    Codes {
        length: 27,
        first: 0x7ffffde,
        place: 205,
        limit: 0x3fff_ff88,
    },
    Codes {
        length: 28,
        first: 0xfffffe2,
        place: 224,
        limit: 0x3fff_fffc,
    },
    Codes {
        length: 30,
        first: 0x3ffffffc,
        place: 253,
        limit: 0x3fff_ffff,
    },
];

/// The symbols in the order of their codes.
const SYMBOLS: [u8; 256] = [
    48, 49, 50, 97, 99, 101, 105, 111, 115, 116, 32, 37, 45, 46, 47, 51, 52, 53, 54, 55, 56, 57,
    61, 65, 95, 98, 100, 102, 103, 104, 108, 109, 110, 112, 114, 117, 58, 66, 67, 68, 69, 70, 71,
    72, 73, 74, 75, 76, 77, 78, 79, 80, 81, 82, 83, 84, 85, 86, 87, 89, 106, 107, 113, 118, 119,
    120, 121, 122, 38, 42, 44, 59, 88, 90, 33, 34, 40, 41, 63, 39, 43, 124, 35, 62, 0, 36, 64, 91,
    93, 126, 94, 125, 60, 96, 123, 92, 195, 208, 128, 130, 131, 162, 184, 194, 224, 226, 153, 161,
    167, 172, 176, 177, 179, 209, 216, 217, 227, 229, 230, 129, 132, 133, 134, 136, 146, 154, 156,
    160, 163, 164, 169, 170, 173, 178, 181, 185, 186, 187, 189, 190, 196, 198, 228, 232, 233, 1,
    135, 137, 138, 139, 140, 141, 143, 147, 149, 150, 151, 152, 155, 157, 158, 165, 166, 168, 174,
    175, 180, 182, 183, 188, 191, 197, 231, 239, 9, 142, 144, 145, 148, 159, 171, 206, 215, 225,
    236, 237, 199, 207, 234, 235, 192, 193, 200, 201, 202, 205, 210, 213, 218, 219, 238, 240, 242,
    243, 255, 203, 204, 211, 212, 214, 221, 222, 223, 241, 244, 245, 246, 247, 248, 250, 251, 252,
    253, 254, 2, 3, 4, 5, 6, 7, 8, 11, 12, 14, 15, 16, 17, 18, 19, 20, 21, 23, 24, 25, 26, 27, 28,
    29, 30, 31, 127, 220, 249, 10, 13, 22,
];

/// For each octet, the bits of the code that it begins with, or 0 where that code is longer than
/// the octet.
const SHORT_LENGTHS: [u8; 256] = [
    5, 5, 5, 5, 5, 5, 5, 5, 5, 5, 5, 5, 5, 5, 5, 5, 5, 5, 5, 5, 5, 5, 5, 5, 5, 5, 5, 5, 5, 5, 5, 5,
    5, 5, 5, 5, 5, 5, 5, 5, 5, 5, 5, 5, 5, 5, 5, 5, 5, 5, 5, 5, 5, 5, 5, 5, 5, 5, 5, 5, 5, 5, 5, 5,
    5, 5, 5, 5, 5, 5, 5, 5, 5, 5, 5, 5, 5, 5, 5, 5, 6, 6, 6, 6, 6, 6, 6, 6, 6, 6, 6, 6, 6, 6, 6, 6,
    6, 6, 6, 6, 6, 6, 6, 6, 6, 6, 6, 6, 6, 6, 6, 6, 6, 6, 6, 6, 6, 6, 6, 6, 6, 6, 6, 6, 6, 6, 6, 6,
    6, 6, 6, 6, 6, 6, 6, 6, 6, 6, 6, 6, 6, 6, 6, 6, 6, 6, 6, 6, 6, 6, 6, 6, 6, 6, 6, 6, 6, 6, 6, 6,
    6, 6, 6, 6, 6, 6, 6, 6, 6, 6, 6, 6, 6, 6, 6, 6, 6, 6, 6, 6, 6, 6, 6, 6, 7, 7, 7, 7, 7, 7, 7, 7,
    7, 7, 7, 7, 7, 7, 7, 7, 7, 7, 7, 7, 7, 7, 7, 7, 7, 7, 7, 7, 7, 7, 7, 7, 7, 7, 7, 7, 7, 7, 7, 7,
    7, 7, 7, 7, 7, 7, 7, 7, 7, 7, 7, 7, 7, 7, 7, 7, 7, 7, 7, 7, 7, 7, 7, 7, 8, 8, 8, 8, 8, 8, 0, 0,
];

/// For each octet, the symbol of the code that it begins with, where that code is not longer.
const SHORT_SYMBOLS: [u8; 256] = [
    48, 48, 48, 48, 48, 48, 48, 48, 49, 49, 49, 49, 49, 49, 49, 49, 50, 50, 50, 50, 50, 50, 50, 50,
    97, 97, 97, 97, 97, 97, 97, 97, 99, 99, 99, 99, 99, 99, 99, 99, 101, 101, 101, 101, 101, 101,
    101, 101, 105, 105, 105, 105, 105, 105, 105, 105, 111, 111, 111, 111, 111, 111, 111, 111, 115,
    115, 115, 115, 115, 115, 115, 115, 116, 116, 116, 116, 116, 116, 116, 116, 32, 32, 32, 32, 37,
    37, 37, 37, 45, 45, 45, 45, 46, 46, 46, 46, 47, 47, 47, 47, 51, 51, 51, 51, 52, 52, 52, 52, 53,
    53, 53, 53, 54, 54, 54, 54, 55, 55, 55, 55, 56, 56, 56, 56, 57, 57, 57, 57, 61, 61, 61, 61, 65,
    65, 65, 65, 95, 95, 95, 95, 98, 98, 98, 98, 100, 100, 100, 100, 102, 102, 102, 102, 103, 103,
    103, 103, 104, 104, 104, 104, 108, 108, 108, 108, 109, 109, 109, 109, 110, 110, 110, 110, 112,
    112, 112, 112, 114, 114, 114, 114, 117, 117, 117, 117, 58, 58, 66, 66, 67, 67, 68, 68, 69, 69,
    70, 70, 71, 71, 72, 72, 73, 73, 74, 74, 75, 75, 76, 76, 77, 77, 78, 78, 79, 79, 80, 80, 81, 81,
    82, 82, 83, 83, 84, 84, 85, 85, 86, 86, 87, 87, 89, 89, 106, 106, 107, 107, 113, 113, 118, 118,
    119, 119, 120, 120, 121, 121, 122, 122, 38, 42, 44, 59, 88, 90, 0, 0,
];

fn symbol_in(codes: &Codes, window: u32) -> (u8, u32)
    requires { IsIn window codes.now }
    ensures { OpensWith window result.0 result.1 }
{
    let number = window >> (LONGEST - codes.length);
    (
        SYMBOLS[codes.place + (number - codes.first) as usize],
        codes.length,
    )
}

fn symbol_among(rows: &[Codes], window: u32) -> (u8, u32)
    requires code { window < EOS }
    requires among { IsInRows window rows.now }
    ensures { OpensWith window result.0 result.1 }
{
    for codes in rows {
        if window < codes.limit {
            return symbol_in(codes, window);
        }
    }
    unreachable!()
}

// The tables are arguments so that no proof has their numbers before it.
fn symbol_by(lengths: &[u8; 256], symbols: &[u8; 256], window: u32) -> (u8, u32)
    requires code { window < EOS }
    requires short { AreShort lengths.now symbols.now }
    ensures { OpensWith window result.0 result.1 }
{
    let octet = (window >> 22) as usize;
    let length = u32::from(lengths[octet]);
    if length == 0 {
        symbol_among(&CODES, window)
    } else {
        (symbols[octet], length)
    }
}

/// The symbol whose code begins thirty bits that are not EOS, and how long its code is.
pub(crate) fn symbol_of(window: u32) -> (u8, u32)
    requires { window < EOS }
    ensures { OpensWith window result.0 result.1 }
{
    symbol_by(&SHORT_LENGTHS, &SHORT_SYMBOLS, window)
}
