//! The texts that a job keeps, by numbers.

ghost use Rattle.std.specs.Prelude.{◌≡◌, IfOk, OnOk};
ghost use Rattle.execution.specs.Numbers.{AreNumbers, GivesNumber, digest_number, kept_digests};

use crate::keeping::KeptText;
use digest::Digest;
use keyed_maps::{KeyedMap, MapKey};
use std::alloc::{AllocError, Global};

/// Gives a digest a number, unless it has one.
fn give_number(
    numbers: &mut KeyedMap<Digest, usize>,
    digest: Digest,
    number: usize,
) -> Result<(), AllocError>
    ensures { OnOk result (GivesNumber numbers.old.entries numbers.new.entries digest number) }
{
    let Some(first) = numbers.insert(digest, number)? else {
        return Ok(());
    };
    numbers.insert(digest, first)?;
    Ok(())
}

/// The numbers of texts by their digests: of each digest that of the first.
pub(crate) fn text_numbers(
    alloc: Global,
    key: MapKey,
    texts: &[KeptText],
) -> Result<KeyedMap<Digest, usize>, AllocError>
    ensures { IfOk result (λ numbers. AreNumbers (kept_digests texts.now) numbers.entries) }
{
    let mut numbers = KeyedMap::with_capacity_and_hasher(alloc, texts.len(), key)?;
    let mut number = 0;
    let mut left = texts;
    'texts: while let [first, rest @ ..] = left {
        give_number(&mut numbers, first.digest, number)?;
        number += 1;
        left = rest;
    }
    Ok(numbers)
}

/// The number of a digest's text, or how many texts there are.
pub fn number_of(texts: &[KeptText], numbers: &KeyedMap<Digest, usize>, digest: &Digest) -> usize
    requires { AreNumbers (kept_digests texts.now) numbers.now.entries }
    ensures { result ≡ digest_number (kept_digests texts.now) digest.now }
{
    match numbers.get(digest) {
        Some(number) => *number,
        None => texts.len(),
    }
}
