//! A run in the folder of a start, and the steps of its life.

use crate::fake::borrowed;
use crate::host::FakeHost;
use crate::left::{leave, see, start_of};
use crate::tree::{Maker, NodeId};
use digest::{Digest, HashFunction};
use run_calls::{Folder, Found, InputTree, Place, RunKey, TaskNodeKind};
use std::alloc::Global;
use std::io::{self, ErrorKind};
use std::rc::RcStr;

/// At which steps the program begins and ends, and how many there are until a run is to be removed.
const PROGRAM: u32 = 8;

const PROGRAM_END: u32 = 9;

const STEPS: u32 = 17;

/// The tree that runs may claim has this name in their roots, and so many bytes.
const TREE: &str = "dir";

pub const TREE_SIZE: u64 = 8_192;

/// How a run is begun.
#[derive(Clone, Copy)]
pub struct Begun {
    pub key: RunKey,
    pub maker: Maker,
    /// Whether it claims a tree.
    pub has_tree: bool,
    /// How many turns pass before it begins, and for how many its program runs on.
    pub late: u32,
    pub pauses: u32,
}

/// A run, and what came of it.
#[derive(Drop)]
pub struct Run {
    begun: Begun,
    place: Place,
    /// How many steps were taken.
    steps: u32,
    /// Whether the tree that it claimed was made before, once it is claimed.
    is_bound: Option<bool>,
    /// What its program left.
    pub left_nodes: Option<[NodeId; 3]>,
    /// What it was told, and what stood on the disk of it when its removal began: where it claims a
    /// tree, that depends on who makes it.
    pub told: String,
    pub stood: Vec<u8>,
    /// Whether its root could not be made. Then nothing is removed.
    pub is_unmade: bool,
    /// Why it failed, and why it was not removed.
    pub failed: Option<ErrorKind>,
    pub stays: Option<ErrorKind>,
    /// Whether it was said that nothing is left, and how many names of it were by then.
    pub is_gone: bool,
    pub left: usize,
}

fn names(alloc: Global, names: &[&str]) -> io::Result<Vec<RcStr>> {
    let mut all = Vec::new(alloc);
    for name in names {
        all.push(RcStr::from_str(alloc, *name)?)?;
    }
    Ok(all)
}

/// The digest of the tree.
fn tree_digest() -> Digest {
    Digest::of(TREE.as_bytes())
}

/// Claims the tree for a run. Whether it was made before.
pub fn claim<F: Folder>(alloc: Global, folder: &mut F, run: RunKey) -> io::Result<bool> {
    let mut trees = Vec::new(alloc);
    trees.push(InputTree {
        path: String::from_str(alloc, TREE)?,
        digest: tree_digest(),
        size: TREE_SIZE,
    })?;
    let bound = folder.claim(run, &trees)?;
    Ok(bound.first() == Some(&true))
}

/// Makes the directory with the file and its text, or that which was made before, and a link.
fn fill<F: Folder>(
    alloc: Global,
    folder: &mut F,
    run: RunKey,
    is_bound: bool,
    step: u32,
) -> io::Result<()> {
    let directory = names(alloc, &[TREE])?;
    let file = names(alloc, &[TREE, "file"])?;
    match step {
        1 if is_bound => {
            let kind = TaskNodeKind::Made {
                directory: tree_digest(),
            };
            folder.make_node(run, &directory, &kind)
        }
        1 => folder.make_node(run, &directory, &TaskNodeKind::Directory),
        4 => {
            let target = RcStr::from_str(alloc, "dir/file")?;
            let link = names(alloc, &["link"])?;
            folder.make_node(run, &link, &TaskNodeKind::Symlink { target })
        }
        _ if is_bound => Ok(()),
        2 => {
            let kind = TaskNodeKind::File {
                text: 0,
                is_executable: true,
            };
            folder.make_node(run, &file, &kind)
        }
        _ => folder.write(run, &file, b"one, "),
    }
}

/// Reads a part of a file that a run left.
fn part<F: Folder>(folder: &mut F, place: &Place, path: &str, from: u64) -> io::Result<String> {
    if !folder.is_ready(place, path, &[], None) {
        return Err(io::Error::from(ErrorKind::ResourceBusy));
    }
    match String::from_utf8(folder.read(place, path, &[], from, 5)?) {
        Ok(text) => Ok(text),
        Err(_) => Err(io::Error::from(ErrorKind::InvalidData)),
    }
}

impl Run {
    pub fn new(alloc: Global, begun: Begun) -> io::Result<Run> {
        Ok(Run {
            begun,
            place: Place {
                run: begun.key,
                directory: String::from_str(alloc, "work")?,
                function: HashFunction::Sha256,
            },
            steps: 0,
            is_bound: None,
            left_nodes: None,
            told: String::new(alloc),
            stood: Vec::new(alloc),
            is_unmade: false,
            failed: None,
            stays: None,
            is_gone: false,
            left: 0,
        })
    }

    pub fn maker(&self) -> Maker {
        self.begun.maker
    }

    /// Whether it may begin now. It claims the tree before.
    fn may_begin<F: Folder>(&mut self, alloc: Global, folder: &mut F) -> io::Result<bool> {
        let run = self.begun.key;
        if self.is_bound.is_none() {
            let is_bound = self.begun.has_tree && claim(alloc, folder, run)?;
            self.is_bound = Some(is_bound);
        }
        Ok(folder.has_room(run))
    }

    /// Reads what was left of it.
    fn read<F: Folder>(&mut self, folder: &mut F) -> io::Result<()> {
        let (place, told) = (&self.place, &mut self.told);
        match self.steps {
            10 => told.push_str(match folder.look(place, "out")? {
                Found::Directory => "and a directory: ",
                Found::Nothing | Found::Other | Found::File(_) => "and no directory: ",
            })?,
            11 => {
                for entry in &folder.list(place, "out", &[], 100)? {
                    told.push_str(entry.name.as_str())?;
                    told.push_str(if entry.is_directory { "/ " } else { " " })?;
                }
            }
            12 => match folder.file(place, "out/file", &[])? {
                Some(_) => told.push_str("and a file: ")?,
                None => told.push_str("and no file: ")?,
            },
            13 => told.push_str(part(folder, place, "out/file", 0)?.as_str())?,
            14 => told.push_str(part(folder, place, "out/file", 5)?.as_str())?,
            _ => told.push_str(part(folder, place, "out/shut", 0)?.as_str())?,
        }
        Ok(())
    }

    /// Its program begins, and leaves what it does: nothing, where there is no directory for that.
    fn begin_program(&mut self, host: &FakeHost<'_>) {
        self.left_nodes = leave(host.disk, self.begun.key, self.begun.maker).ok();
    }

    /// Its program ends, and tells what it sees.
    fn end_program(&mut self, host: &FakeHost<'_>) -> io::Result<()> {
        let disk = borrowed(host.disk)?;
        match see(host.alloc, &disk.tree, self.begun.key) {
            Ok(text) => self.told.push_str(text.as_str())?,
            Err(_) => self.told.push_str("nothing, ")?,
        }
        Ok(())
    }

    /// Takes a step.
    fn step<F: Folder>(&mut self, host: &FakeHost<'_>, folder: &mut F) -> io::Result<()> {
        let (run, place) = (self.begun.key, &self.place);
        match self.steps {
            0 => folder.make_root(run),
            1..=5 => fill(
                host.alloc,
                folder,
                run,
                self.is_bound == Some(true),
                self.steps,
            ),
            6 => folder.make_working_directory(place),
            7 => folder.make_parents(place, "out/file"),
            PROGRAM => {
                self.begin_program(host);
                Ok(())
            }
            PROGRAM_END => self.end_program(host),
            _ => self.read(folder),
        }
    }

    /// Takes a step, and notes what stands then. Where it fails it is to be removed.
    fn advance<F: Folder>(&mut self, host: &FakeHost<'_>, folder: &mut F) -> io::Result<()> {
        match self.step(host, folder) {
            Ok(()) => self.steps = self.steps.saturating_add(1),
            Err(error) => {
                self.failed = Some(error.kind());
                if self.steps == 0 {
                    folder.forget(self.begun.key);
                    self.is_unmade = true;
                    self.be_gone(host)?;
                }
                self.steps = STEPS;
            }
        }
        if !self.begun.has_tree {
            self.stood = borrowed(host.disk)?.tree.standing(self.begun.maker)?;
        }
        Ok(())
    }

    /// It is said that nothing is left.
    fn be_gone(&mut self, host: &FakeHost<'_>) -> io::Result<()> {
        self.is_gone = true;
        let disk = borrowed(host.disk)?;
        if let Ok(start) = start_of(&disk.tree) {
            self.left = disk.tree.count_of(start, self.begun.maker);
        }
        Ok(())
    }

    /// Goes on with its removal.
    fn end<F: Folder>(&mut self, host: &FakeHost<'_>, folder: &mut F) -> io::Result<()> {
        match folder.remove(self.begun.key) {
            Ok(true) => self.be_gone(host)?,
            Ok(false) => {}
            Err(error) => self.stays = Some(error.kind()),
        }
        Ok(())
    }

    /// A turn of its: it waits, or takes a step, or goes on with its removal.
    pub fn go_on<F: Folder>(&mut self, host: &FakeHost<'_>, folder: &mut F) -> io::Result<()> {
        borrowed(host.disk)?.tree.acting = self.begun.maker;
        if self.begun.late > 0 {
            self.begun.late -= 1;
            return Ok(());
        }
        if self.steps == PROGRAM_END && self.begun.pauses > 0 {
            self.begun.pauses -= 1;
            return Ok(());
        }
        if self.steps == 0 && !self.may_begin(host.alloc, folder)? {
            return Ok(());
        }
        if self.steps < STEPS {
            self.advance(host, folder)
        } else if !self.is_gone && self.stays.is_none() {
            self.end(host, folder)
        } else {
            Ok(())
        }
    }
}
