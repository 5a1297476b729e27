//! Trees in which each directory has equal nodes.

ghost use Rattle.quota_evict.specs.InPool.{IsViewInPool};

use crate::stored::store;
use actions::{Plan, TreeFault, walk};
use blob_pool::Pool;
use digest::Digest;
use instance_view::{Sight, View};
use keyed_maps::MapKey;
use protobuf_wire::Message;
use reapi_messages as messages;
use std::alloc::{AllocError, Global};
use tree_messages::{Directory, DirectoryNode, SymlinkNode};

/// How a walk ends.
#[derive(Clone, Copy, PartialEq, Eq)]
pub enum Ending {
    /// With so many nodes.
    Nodes(usize),
    /// With so many texts missing.
    Missing(usize),
    BadDirectory,
    TooMany,
    TooDeep,
    NoMemory,
}

/// A tree of so many levels, in which each directory has so many symbolic links and, but for the
/// last level, so many directories, all of one digest.
pub struct Shape {
    pub name: &'static str,
    pub levels: usize,
    pub links: usize,
    pub directories: usize,
    pub ending: Ending,
}

pub fn ending_of(answer: &Result<Plan, TreeFault>) -> Ending {
    match answer {
        Ok(plan) => Ending::Nodes(plan.nodes.len()),
        Err(TreeFault::Missing(digests)) => Ending::Missing(digests.len()),
        Err(TreeFault::BadDirectory) => Ending::BadDirectory,
        Err(TreeFault::TooMany) => Ending::TooMany,
        Err(TreeFault::TooDeep) => Ending::TooDeep,
        Err(TreeFault::NoMemory) => Ending::NoMemory,
    }
}

/// So many names, in order.
fn names(alloc: Global, letter: &str, count: usize) -> Result<Vec<String>, AllocError> {
    let mut names = Vec::new(alloc);
    for i in 0..count {
        names.push(format!(in alloc; "{letter}{i:05}")?)?;
    }
    Ok(names)
}

fn link_nodes<'a>(alloc: Global, names: &'a [String]) -> Result<Vec<SymlinkNode<'a>>, AllocError> {
    let mut nodes = Vec::new(alloc);
    for name in names {
        let target = "target";
        nodes.push(SymlinkNode { name, target })?;
    }
    Ok(nodes)
}

fn directory_nodes<'a>(
    alloc: Global,
    names: &'a [String],
    digest: messages::Digest<'a>,
) -> Result<Vec<DirectoryNode<'a>>, AllocError> {
    let mut nodes = Vec::new(alloc);
    for name in names {
        let digest = Some(digest);
        nodes.push(DirectoryNode { name, digest })?;
    }
    Ok(nodes)
}

/// The text of a directory with symbolic links of these names, and directories of these names and
/// one digest.
fn directory_text<'a>(
    alloc: Global,
    links: &'a [String],
    directories: &'a [String],
    digest: messages::Digest<'a>,
) -> Result<Vec<u8>, AllocError> {
    let directory = Directory {
        files: Vec::new(alloc),
        directories: directory_nodes(alloc, directories, digest)?,
        symlinks: link_nodes(alloc, links)?,
    };
    directory.encode(alloc)
}

/// Stores a directory with symbolic links of these names, and directories of these names and one
/// digest.
fn store_directory(
    alloc: Global,
    view: &mut View,
    pool: &mut Pool,
    links: &[String],
    directories: &[String],
    below: &Digest,
) -> Result<Digest, AllocError>
    requires kept { IsViewInPool 100000000 pool.old view.old }
    ensures kept { IsViewInPool 100000000 pool.new view.new }
{
    let hash = hex::encode(alloc, below.hash.as_bytes())?;
    let size_bytes = i64::try_from(below.size).unwrap_or(0);
    let digest = messages::Digest {
        hash: &hash,
        size_bytes,
    };
    let text = directory_text(alloc, links, directories, digest)?;
    store(view, pool, &text)
}

/// Stores the directories of a tree, and gives the digest of its root.
fn store_tree(
    alloc: Global,
    view: &mut View,
    pool: &mut Pool,
    shape: &Shape,
) -> Result<Digest, AllocError>
    requires kept { IsViewInPool 100000000 pool.old view.old }
    ensures kept { IsViewInPool 100000000 pool.new view.new }
{
    let links = names(alloc, "l", shape.links)?;
    let directories = names(alloc, "d", shape.directories)?;
    let mut root = store_directory(alloc, view, pool, &links, &[], &Digest::of(&[]))?;
    for _level in 1..shape.levels {
        root = store_directory(alloc, view, pool, &links, &directories, &root)?;
    }
    Ok(root)
}

/// How the walk through a tree ends.
fn walked(alloc: Global, shape: &Shape) -> Result<Ending, AllocError> {
    let mut pool = Pool::new(alloc, MapKey::known());
    let mut view = View::new(alloc, MapKey::known(), 100)?;
    let root = store_tree(alloc, &mut view, &mut pool, shape)?;
    let nobody = View::new(alloc, MapKey::known(), 1)?;
    let sight = Sight::new(&view, &nobody);
    Ok(ending_of(&walk(alloc, &sight, &pool, &root)))
}

/// The first of the shapes whose walk ends otherwise than it says.
pub fn walked_otherwise(
    alloc: Global,
    shapes: &[Shape],
) -> Result<Option<&'static str>, AllocError> {
    for shape in shapes {
        if walked(alloc, shape)? != shape.ending {
            return Ok(Some(shape.name));
        }
    }
    Ok(None)
}
