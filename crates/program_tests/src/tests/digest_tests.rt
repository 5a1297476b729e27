//! Digests of texts whose hashes are known, and digests that are none.

use crate::tests::cases::{Case, all_hold};
use digest::*;
use std::test::*;

/// SHA-256 of `abc` (FIPS 180-4's example).
const ABC: &str = "ba7816bf8f01cfea414140de5dae2223b00361a396177a9cb410ff61f20015ad";

/// SHA-256 of the empty text.
const EMPTY: &str = "e3b0c44298fc1c149afbf4c8996fb92427ae41e4649b934ca495991b7852b855";

/// SHA-256 of `abcdbcdecdefdefgefghfghighijhijkijkljklmklmnlmnomnopnopq` (FIPS 180-4's example).
const TWO_BLOCKS: &str = "248d6a61d20638b8e5c026930c3e6039a33ce45964ff2167f6ecedd419db06c1";

/// SHA-512 of `abc` (FIPS 180-4's example).
const SHA512_ABC: &str =
    "ddaf35a193617abacc417349ae20413112e6fa4e89a97ea20a9eeee64b55d39a2192992a274fc1a836ba3c23a3feebbd454d4423643ce80e2a9ac94fa54ca49f";

/// SHA-512 of the empty text.
const SHA512_EMPTY: &str =
    "cf83e1357eefb8bdf1542850d66d8007d620e4050b5715dc83f4a921d36ce9ce47d0d13c5d85f2b0ff8318d2877eec2f63b931bd47417a81a538327af927da3e";

/// A text of two blocks of SHA-512 (FIPS 180-4's example).
const LONG_TEXT: &[u8] =
    b"abcdefghbcdefghicdefghijdefghijkefghijklfghijklmghijklmnhijklmnoijklmnopjklmnopqklmnopqrlmnopqrsmnopqrstnopqrstu";

/// Its SHA-512.
const SHA512_TWO_BLOCKS: &str =
    "8e959b75dae313da8cf4f72814fc143f8f7779c6eb9f7fa17299aeadb6889018501d289e4900f7e4331b99dec4b5433ac7d329eeb6dd26545e96e55b874be909";

/// A text that the digest of a hash and of the text's size names, and that no digest of a longer
/// text names.
struct Names(&'static [u8]);

impl Case for Names {
    fn holds(&self, _host: &HostRuntime, hash: &str) -> bool {
        let text = self.0;
        let Some(written) = Digest::parse(hash, text.len() as i64) else {
            return false;
        };
        let longer = Digest {
            size: written.size + 1,
            ..written
        };
        let own = Digest::by(written.function(), text);
        own == written
            && is_same(&own, &written)
            && matches(&written, text)
            && !matches(&written, b"abd")
            && written.is_empty() == text.is_empty()
            && !matches(&longer, text)
            && !is_same(&written, &longer)
            && !longer.is_empty()
    }
}

static TEXTS: [(&str, Names); 6] = [
    (ABC, Names(b"abc")),
    (EMPTY, Names(b"")),
    (
        TWO_BLOCKS,
        Names(b"abcdbcdecdefdefgefghfghighijhijkijkljklmklmnlmnomnopnopq"),
    ),
    (SHA512_ABC, Names(b"abc")),
    (SHA512_EMPTY, Names(b"")),
    (SHA512_TWO_BLOCKS, Names(LONG_TEXT)),
];

#[test]
fn known_texts(rt: HostRuntime) {
    all_hold(&rt, &rt, &TEXTS);
    assert!(rt; !is_same(&Digest::of(b""), &Digest::by(HashFunction::Sha512, b"")));
}

/// A size, and whether a digest of it is read.
struct Reads(i64, bool);

impl Case for Reads {
    fn holds(&self, _host: &HostRuntime, hash: &str) -> bool {
        Digest::parse(hash, self.0).is_some() == self.1
    }
}

/// Sizes, and hashes that are neither 64 nor 128 lower-case hexadecimal digits.
static FORMS: [(&str, Reads); 18] = [
    (ABC, Reads(0, true)),
    (ABC, Reads(i64::MAX, true)),
    (ABC, Reads(-1, false)),
    (ABC, Reads(i64::MIN, false)),
    ("", Reads(3, false)),
    (
        "ba7816bf8f01cfea414140de5dae2223b00361a396177a9cb410ff61f20015a",
        Reads(3, false),
    ),
    (
        "ba7816bf8f01cfea414140de5dae2223b00361a396177a9cb410ff61f20015ad0",
        Reads(3, false),
    ),
    (
        "BA7816BF8F01CFEA414140DE5DAE2223B00361A396177A9CB410FF61F20015AD",
        Reads(3, false),
    ),
    (
        "ba7816bf8f01cfea414140de5dae2223b00361a396177a9cb410ff61f20015aD",
        Reads(3, false),
    ),
    (
        "ga7816bf8f01cfea414140de5dae2223b00361a396177a9cb410ff61f20015ad",
        Reads(3, false),
    ),
    (
        "ba7816bf8f01cfea414140de5dae2223b00361a396177a9cb410ff61f20015a ",
        Reads(3, false),
    ),
    (
        "éa7816bf8f01cfea414140de5dae2223b00361a396177a9cb410ff61f20015ad",
        Reads(3, false),
    ),
    (SHA512_ABC, Reads(0, true)),
    (SHA512_ABC, Reads(-1, false)),
    (
        "ddaf35a193617abacc417349ae20413112e6fa4e89a97ea20a9eeee64b55d39a2192992a274fc1a836ba3c23a3feebbd454d4423643ce80e2a9ac94fa54ca49",
        Reads(3, false),
    ),
    (
        "ddaf35a193617abacc417349ae20413112e6fa4e89a97ea20a9eeee64b55d39a2192992a274fc1a836ba3c23a3feebbd454d4423643ce80e2a9ac94fa54ca49f0",
        Reads(3, false),
    ),
    (
        "ddaf35a193617abacc417349ae20413112e6fa4e89a97ea20a9eeee64b55d39a2192992a274fc1a836ba3c23a3feebbd",
        Reads(3, false),
    ),
    (
        "ddaf35a193617abacc417349ae20413112e6fa4e89a97ea20a9eeee64b55d39a2192992a274fc1a836ba3c23a3feebbd454d4423643ce80e2a9ac94fa54ca49F",
        Reads(3, false),
    ),
];

#[test]
fn forms(rt: HostRuntime) {
    all_hold(&rt, &rt, &FORMS);
}

fn of_two(function: HashFunction, first: &[u8], second: &[u8]) -> Digest {
    let mut hasher = Hasher::by(function);
    hasher.update(first);
    hasher.update(second);
    hasher.finish()
}

fn joins_pieces(whole: &Digest) -> bool {
    let function = whole.function();
    of_two(function, b"abc", b"") == *whole
        && of_two(function, b"", b"abc") == *whole
        && of_two(function, b"a", b"bc") == *whole
        && of_two(function, b"", b"").is_empty()
}

#[test]
fn pieces(rt: HostRuntime) {
    assert!(rt;
        joins_pieces(&Digest::of(b"abc")) && joins_pieces(&Digest::by(HashFunction::Sha512, b"abc"))
    );
}
