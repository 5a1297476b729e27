//! What the programs of runs find and leave.

use crate::disk::Disk;
use crate::fake::borrowed;
use crate::tree::{Maker, NodeId, START, Tree, What};
use run_calls::RunKey;
use std::alloc::Global;
use std::cell::RefCell;
use std::io::{self, ErrorKind};

/// Where the directory for runs stands.
pub const WORK: &str = "/work";

/// The folder of the start there.
pub fn start_of(tree: &Tree) -> io::Result<NodeId> {
    tree.first_of(START, Maker::Start)
}

/// The program of a run leaves a file, another one that may not be written, and a link, where its
/// output directory is there: the one above that, itself, and the file.
pub fn leave(disk: &RefCell<Disk>, run: RunKey, maker: Maker) -> io::Result<[NodeId; 3]> {
    let mut disk = borrowed(disk)?;
    let root = root_of(disk.alloc, &disk.tree, run)?;
    let tree = &mut disk.tree;
    let work = tree.entry(root, b"work")?;
    let out = tree.entry(work, b"out")?;
    let file = tree.add(out, b"file", What::File, 0o644, maker)?;
    tree.node_mut(file)?.bytes.extend_from_slice(b"left there")?;
    tree.add(out, b"shut", What::File, 0o555, maker)?;
    tree.add(out, b"link", What::Link(Some(file)), 0o777, maker)?;
    Ok([work, out, file])
}

/// The root of a run.
fn root_of(alloc: Global, tree: &Tree, run: RunKey) -> io::Result<NodeId> {
    let RunKey { instance, job } = run;
    let name = format!(in alloc; "{instance}-{job}")?;
    tree.entry(start_of(tree)?, name.as_bytes())
}

/// The file beside a run that says which trees are bound for it, if some are.
fn bound_of(alloc: Global, tree: &Tree, run: RunKey) -> io::Result<Option<NodeId>> {
    let RunKey { instance, job } = run;
    let name = format!(in alloc; "{instance}-{job}.aside")?;
    let aside = tree.entry(start_of(tree)?, name.as_bytes())?;
    let Ok(told) = tree.entry(aside, b"trees") else {
        return Ok(None);
    };
    let is_none = tree.node(told)?.bytes.as_slice() == b"\0".as_slice();
    Ok(if is_none { None } else { Some(told) })
}

/// What is told of the tree in a folder of this name, of a start of that name.
fn words(alloc: Global, start: &[u8], name: &[u8]) -> io::Result<Vec<u8>> {
    let mut text = Vec::from_slice(alloc, WORK.as_bytes())?;
    for part in [&b"/"[..], start, b"/", name, b"\0dir\0\0"] {
        text.extend_from_slice(part)?;
    }
    Ok(text)
}

/// What stands bound in the place of the directory of inputs, as it is told there: the one tree
/// whose path is told.
fn bound_at(alloc: Global, tree: &Tree, told: NodeId) -> io::Result<NodeId> {
    let start = start_of(tree)?;
    let told = &tree.node(told)?.bytes;
    for node in tree.all_in(start)? {
        let text = words(alloc, tree.name_of(start)?, tree.name_of(node)?)?;
        if told.as_slice() == text.as_slice() && tree.is_of(node, Maker::Made) {
            return Ok(node);
        }
    }
    Err(io::Error::from(ErrorKind::NotFound))
}

/// What the program of a run finds in the file of its inputs.
pub fn see(alloc: Global, tree: &Tree, run: RunKey) -> io::Result<String> {
    let directory = tree.entry(root_of(alloc, tree, run)?, b"dir")?;
    let inputs = match bound_of(alloc, tree, run)? {
        Some(told) => bound_at(alloc, tree, told)?,
        None => directory,
    };
    let file = tree.node(tree.entry(inputs, b"file")?)?;
    if file.what != What::File || file.mode & 0o100 == 0 {
        return Err(io::Error::from(ErrorKind::InvalidData));
    }
    match String::from_utf8(Vec::from_slice(alloc, &file.bytes)?) {
        Ok(text) => Ok(text),
        Err(_) => Err(io::Error::from(ErrorKind::InvalidData)),
    }
}
