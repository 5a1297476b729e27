//! The tests of the pool.

use crate::admissions::{keeps_the_limit, keeps_the_quota};
use crate::one_digest::both_stand;
use crate::sharing::{Upload, are_shared};
use crate::texts::comes_back;
use std::alloc::{AllocError, Global};
use std::test::*;

/// Around the ends of pages of 65,536 bytes.
static SIZES: [usize; 6] = [0, 1, 65_535, 65_536, 65_537, 131_072];

/// Two instances of quota 10.
static UPLOADS: [Upload; 4] = [
    Upload {
        name: "the first of two",
        is_first: true,
        text: b"abc",
        texts: 1,
        bytes: 3,
    },
    Upload {
        name: "the same by the second",
        is_first: false,
        text: b"abc",
        texts: 1,
        bytes: 3,
    },
    Upload {
        name: "another, for which the first drops its own",
        is_first: true,
        text: b"0123456789",
        texts: 2,
        bytes: 13,
    },
    Upload {
        name: "the same, for which the last holder goes",
        is_first: false,
        text: b"0123456789",
        texts: 1,
        bytes: 10,
    },
];

/// A text of some size, whose bytes tell their places.
fn text_of(alloc: Global, size: usize) -> Result<Vec<u8>, AllocError> {
    let mut text = Vec::new(alloc);
    for i in 0..size {
        text.push((i % 251) as u8)?;
    }
    Ok(text)
}

/// The first of the sizes whose text does not come back.
fn lost(alloc: Global, sizes: &[usize]) -> Result<Option<usize>, AllocError> {
    for size in sizes {
        let text = text_of(alloc, *size)?;
        if !comes_back(alloc, &text)? {
            return Ok(Some(*size));
        }
    }
    Ok(None)
}

#[test]
fn texts_come_back(rt: HostRuntime) -> Result<(), Fail> {
    assert_eq!(rt; lost(rt.alloc(), &SIZES)?, None);
    Ok(())
}

#[test]
fn texts_beside_one_digest(rt: HostRuntime) -> Result<(), Fail> {
    let stand = both_stand(rt.alloc())?;
    assert!(rt; stand);
    Ok(())
}

#[test]
fn texts_are_shared(rt: HostRuntime) -> Result<(), Fail> {
    assert_eq!(rt; are_shared(rt.alloc(), &UPLOADS)?, None);
    Ok(())
}

#[test]
fn the_limit(rt: HostRuntime) -> Result<(), Fail> {
    let keeps = keeps_the_limit(rt.alloc())?;
    assert!(rt; keeps);
    Ok(())
}

#[test]
fn the_quota(rt: HostRuntime) -> Result<(), Fail> {
    let keeps = keeps_the_quota(rt.alloc())?;
    assert!(rt; keeps);
    Ok(())
}
