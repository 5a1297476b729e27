//! Pages of any size.

ghost use Rattle.std.specs.Prelude.{◌≡◌, ◌+◌, ◌<◌, ◌≤◌, ◌↔◌, ◌++◌, [], length, map, IsTrue, IfOk, OnOk, OnErr};
ghost use Rattle.blob_pool.specs.Pages.{text_of_pages, ArePages, part_of, page_at, page_content};

use std::alloc::{AllocError, Global};
use std::mem;

/// Cuts bytes into full pages, and gives the rest.
fn cut(
    alloc: Global,
    size: usize,
    bytes: &[u8],
    pages: &mut Vec<Vec<u8>>,
) -> Result<Vec<u8>, AllocError>
    requires size { 0 < size }
    requires empty { pages.old.items ≡ [] }
    ensures joined { IfOk result (λ rest. text_of_pages
        (map page_content pages.new.items) rest.items
        ≡ bytes.now) }
    ensures pages { IfOk result (λ rest. ArePages size
        (map page_content pages.new.items) rest.items) }
{
    let mut left = bytes;
    'pages: while left.len() >= size {
        let (page, rest) = left.split_at(size);
        let page = Vec::from_slice(alloc, page)?;
        pages.push(page)?;
        left = rest;
    }
    Vec::from_slice(alloc, left)
}

/// Adds bytes to the end of a text.
pub fn fill(
    alloc: Global,
    full: &mut Vec<Vec<u8>>,
    last: &mut Vec<u8>,
    size: usize,
    bytes: &[u8],
) -> Result<(), AllocError>
    requires { ArePages size (map page_content full.old.items) last.old.items }
    ensures ok { OnOk result (text_of_pages (map page_content full.new.items) last.new.items
        ≡ text_of_pages (map page_content full.old.items) last.old.items ++ bytes.now) }
    ensures err { OnErr result (text_of_pages (map page_content full.new.items) last.new.items
        ≡ text_of_pages (map page_content full.old.items) last.old.items) }
    ensures pages { ArePages size (map page_content full.new.items) last.new.items }
{
    let room = size - last.len();
    if bytes.len() < room {
        return last.extend_from_slice(bytes);
    }
    let (head, rest) = bytes.split_at(room);
    let mut more = Vec::new(alloc);
    let mut tail = cut(alloc, size, rest, &mut more)?;
    full.reserve(more.len() + 1)?;
    last.extend_from_slice(head)?;
    mem::swap(last, &mut tail);
    full.push(tail).unwrap();
    full.append(&mut more).unwrap();
    Ok(())
}

/// The page of this number, or the rest behind all pages.
fn page_at<'a>(full: &'a [Vec<u8>], last: &'a [u8], number: usize) -> &'a [u8]
    ensures { result.now ≡ page_at (map page_content full.now) last.now number }
{
    if number < full.len() {
        full[number].as_slice()
    } else if number == full.len() {
        last
    } else {
        &[]
    }
}

/// What a text has from a place on, up to the end of the page and to `most` bytes.
pub fn part_of<'a>(
    full: &'a [Vec<u8>],
    last: &'a [u8],
    size: usize,
    from: usize,
    most: usize,
) -> &'a [u8]
    requires { ArePages size (map page_content full.now) last.now }
    ensures { result.now ≡ part_of size
        (text_of_pages (map page_content full.now) last.now) from most }
{
    let bytes = page_at(full, last, from / size);
    let start = from % size;
    if start >= bytes.len() {
        return &[];
    }
    let left = &bytes[start..];
    if left.len() <= most {
        left
    } else {
        &left[..most]
    }
}

/// Whether two lists of pages have the same bytes.
fn same_pages(pages: &[Vec<u8>], others: &[Vec<u8>]) -> bool
    ensures { IsTrue result ↔ (map page_content pages.now ≡ map page_content others.now) }
{
    let mut left = pages;
    let mut left_others = others;
    'pages: while let [page, rest @ ..] = left {
        let [other, rest_others @ ..] = left_others else {
            return false;
        };
        if page.as_slice() != other.as_slice() {
            return false;
        }
        left = rest;
        left_others = rest_others;
    }
    left_others.is_empty()
}

/// Whether two texts in pages of one size are one.
pub fn are_same(
    full: &[Vec<u8>],
    last: &[u8],
    other_full: &[Vec<u8>],
    other_last: &[u8],
    size: usize,
) -> bool
    requires pages { ArePages size (map page_content full.now) last.now }
    requires other_pages { ArePages size (map page_content other_full.now) other_last.now }
    ensures { IsTrue result ↔ (text_of_pages (map page_content full.now) last.now
        ≡ text_of_pages (map page_content other_full.now) other_last.now) }
{
    last == other_last && same_pages(full, other_full)
}

/// Adds a text to the end of a vector.
pub fn append_all(
    full: &[Vec<u8>],
    last: &[u8],
    len: usize,
    into: &mut Vec<u8>,
) -> Result<(), AllocError>
    requires { len ≡ length (text_of_pages (map page_content full.now) last.now) }
    ensures ok { OnOk result (into.new.items
        ≡ into.old.items ++ text_of_pages (map page_content full.now) last.now) }
    ensures err { OnErr result (into.new.items ≡ into.old.items) }
{
    into.reserve(len)?;
    let mut left = full;
    'pages: while let [page, rest @ ..] = left {
        into.extend_from_slice(page).unwrap();
        left = rest;
    }
    into.extend_from_slice(last).unwrap();
    Ok(())
}
