//! The tests of trees that are made once.

use digest::Digest;
use keyed_maps::MapKey;
use made_trees::{Claim, MadeTrees, TreeCounts, TreeKey};
use run_calls::RunKey;
use std::alloc::{AllocError, Global};
use std::test::*;

/// A job of the first instance.
fn job(job: u64) -> RunKey {
    RunKey { instance: 0, job }
}

fn key_of(text: &[u8]) -> TreeKey {
    TreeKey {
        instance: 0,
        digest: Digest::of(text),
    }
}

/// Two trees have no room at once.
fn store(alloc: Global, counts: &TreeCounts) -> Result<MadeTrees<'_>, AllocError> {
    MadeTrees::new(alloc, MapKey::known(), 100, counts)
}

/// What jobs are told that claim a tree of 60 bytes, one after another.
fn claims(
    alloc: Global,
    trees: &mut MadeTrees<'_>,
    key: &TreeKey,
    jobs: &[u64],
) -> Result<Vec<Claim>, AllocError> {
    let mut claims = Vec::new(alloc);
    for number in jobs {
        claims.push(trees.claim(job(*number), &key.digest, 60)?)?;
    }
    Ok(claims)
}

#[test]
fn a_tree_is_made_and_used(rt: HostRuntime) -> Result<(), Fail> {
    let counts = TreeCounts::new(rt.alloc(), 1)?;
    let mut trees = store(rt.alloc(), &counts)?;
    let key = key_of(b"one");
    let folder = job(u64::MAX);
    let before = claims(rt.alloc(), &mut trees, &key, &[1, 1, 2, 2, 3])?;
    let noted = [
        Claim::Copied,
        Claim::Copied,
        Claim::Make(folder),
        Claim::Copied,
        Claim::Waits,
    ];
    assert_eq!(rt; before.as_slice(), noted.as_slice());
    assert!(rt; trees.is_being_made(&key));
    trees.finish(job(2), &key);
    assert!(rt; !trees.is_being_made(&key));
    let after = claims(rt.alloc(), &mut trees, &key, &[3, 4])?;
    assert_eq!(rt; after.as_slice(), [Claim::Bound(folder); 2].as_slice());
    assert_eq!(rt; (counts.hits(0), counts.misses(0)), (2, 5));
    assert_eq!(rt; (counts.trees(0), counts.bytes(0)), (1, 60));
    Ok(())
}

#[test]
fn a_tree_goes_that_is_not_in_use(rt: HostRuntime) -> Result<(), Fail> {
    let counts = TreeCounts::new(rt.alloc(), 1)?;
    let mut trees = store(rt.alloc(), &counts)?;
    let (one, other) = (key_of(b"one"), key_of(b"other"));
    let _begun = claims(rt.alloc(), &mut trees, &one, &[1, 2])?;
    trees.finish(job(2), &one);
    let in_use = claims(rt.alloc(), &mut trees, &other, &[3, 4])?;
    assert_eq!(rt; in_use.as_slice(), [Claim::Copied; 2].as_slice());
    assert!(rt; trees.next_removal().is_none());
    trees.give_back(job(2), &one);
    let unused = claims(rt.alloc(), &mut trees, &other, &[5])?;
    assert_eq!(rt; unused.as_slice(), [Claim::Copied].as_slice());
    assert_eq!(rt;
        trees.next_removal().map(|removal| removal.folder),
        Some(job(u64::MAX))
    );
    trees.removed(&one);
    let gone = claims(rt.alloc(), &mut trees, &other, &[6])?;
    assert_eq!(rt;
        gone.as_slice(),
        [Claim::Make(job(u64::MAX - 1))].as_slice()
    );
    assert_eq!(rt;
        (counts.dropped(0), counts.trees(0), counts.bytes(0)),
        (1, 1, 60)
    );
    Ok(())
}

#[test]
fn a_tree_that_is_not_made_whole_goes(rt: HostRuntime) -> Result<(), Fail> {
    let counts = TreeCounts::new(rt.alloc(), 1)?;
    let mut trees = store(rt.alloc(), &counts)?;
    let key = key_of(b"one");
    let _begun = claims(rt.alloc(), &mut trees, &key, &[1, 2])?;
    trees.give_back(job(2), &key);
    let left = claims(rt.alloc(), &mut trees, &key, &[3])?;
    assert_eq!(rt; left.as_slice(), [Claim::Copied].as_slice());
    assert_eq!(rt;
        trees.next_removal().map(|removal| removal.folder),
        Some(job(u64::MAX))
    );
    trees.removed(&key);
    assert_eq!(rt;
        (counts.dropped(0), counts.trees(0), counts.bytes(0)),
        (0, 0, 0)
    );
    Ok(())
}
