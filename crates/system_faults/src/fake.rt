//! Directories and files of a tree in memory, as a system has them open.

ghost use Rattle.std.specs.Prelude.{◌≡◌, ◌≤◌, ◌∷◌, [], IfOk, Some, length, map, ⊤};

use crate::disk::Disk;
use crate::tree::{Maker, NodeId, START, What};
use crate::trouble::Call;
use std::alloc::{AllocError, Global};
use std::cell::{Cell, RefCell, RefMut};
use std::io::{self, ErrorKind};
use system::{Access, Directory, Facts, Identity, OpenFile};

/// What is open, as is noted on the disk until it is let go.
struct Handle<'a> {
    disk: &'a RefCell<Disk>,
    node: NodeId,
}

impl<'a> Drop for Handle<'a> {
    fn drop(self) {
        let Handle { disk, node } = self;
        if let Ok(mut disk) = disk.try_borrow_mut() {
            disk.tree.close(node);
        }
    }
}

/// A directory of a tree in memory that is open.
#[derive(Drop)]
pub struct FakeDirectory<'a> {
    handle: Handle<'a>,
    /// The names by which it was opened, the last first.
    names: Vec<Vec<u8>>,
    /// Up to which name it was listed.
    listed: Cell<u64>,
}

/// A file of a tree in memory that is open.
#[derive(Drop)]
pub struct FakeFile<'a> {
    handle: Handle<'a>,
    identity: Identity,
}

/// The disk, for as long as something is done there.
pub fn borrowed<'a>(disk: &'a RefCell<Disk>) -> io::Result<RefMut<'a, Disk>> {
    match disk.try_borrow_mut() {
        Ok(disk) => Ok(disk),
        Err(_) => Err(io::Error::from(ErrorKind::Deadlock)),
    }
}

/// The same, for a call.
pub fn called<'a>(
    disk: &'a RefCell<Disk>,
    call: Call,
    node: NodeId,
    name: &[u8],
) -> io::Result<RefMut<'a, Disk>> {
    let mut disk = borrowed(disk)?;
    disk.begin(call, node, name)?;
    Ok(disk)
}

impl<'a> Handle<'a> {
    /// Opens a node on a disk.
    fn new(disk: &'a RefCell<Disk>, opened: &mut Disk, node: NodeId) -> Handle<'a> {
        opened.tree.open(node);
        Handle { disk, node }
    }

    /// The disk, for a call that may be by a name.
    fn called(&self, call: Call, name: &[u8]) -> io::Result<RefMut<'a, Disk>> {
        called(self.disk, call, self.node, name)
    }
}

/// The names of what has one below others.
fn below(alloc: Global, name: &[u8], names: &[Vec<u8>]) -> Result<Vec<Vec<u8>>, AllocError>
    ensures { IfOk result (λ all. map (λ n. n.items) all.items
        ≡ name.now ∷ map (λ n. n.items) names.now) }
{
    let mut all = Vec::new(alloc);
    all.push(Vec::from_slice(alloc, name)?)?;
    let mut left = names;
    'names: while let [first, rest @ ..] = left {
        all.push(Vec::from_slice(alloc, first)?)?;
        left = rest;
    }
    Ok(all)
}

/// The same names.
fn same_names(alloc: Global, names: &[Vec<u8>]) -> Result<Vec<Vec<u8>>, AllocError>
    ensures { IfOk result (λ all. map (λ n. n.items) all.items ≡ map (λ n. n.items) names.now) }
{
    match names {
        [] => Ok(Vec::new(alloc)),
        [first, rest @ ..] => below(alloc, first, rest),
    }
}

impl<'a> FakeDirectory<'a> {
    /// The directory of the start.
    pub fn start(alloc: Global, disk: &'a RefCell<Disk>) -> FakeDirectory<'a>
        ensures { result.names.items ≡ [] }
    {
        FakeDirectory {
            handle: Handle { disk, node: START },
            names: Vec::new(alloc),
            listed: Cell::new(0),
        }
    }

    /// Who made it.
    pub fn maker(&self) -> io::Result<Maker> {
        let Handle { disk, node } = &self.handle;
        Ok(borrowed(*disk)?.tree.node(*node)?.maker)
    }

    /// Who made what has this name.
    pub fn maker_in(&self, name: &[u8]) -> io::Result<Maker> {
        let disk = borrowed(self.handle.disk)?;
        Ok(
            disk.tree
                .node(disk.tree.entry(self.handle.node, name)?)?
                .maker,
        )
    }

    /// What a link of this name says.
    pub fn link_text(&self, alloc: Global, name: &[u8]) -> io::Result<Vec<u8>> {
        let disk = borrowed(self.handle.disk)?;
        let node = disk.tree.node(disk.tree.entry(self.handle.node, name)?)?;
        match node.what {
            What::Link(None) => Ok(Vec::from_slice(alloc, &node.bytes)?),
            _ => Ok(Vec::new(alloc)),
        }
    }

    /// A file that was opened or made in it.
    fn file(&self, disk: &mut Disk, node: NodeId) -> io::Result<FakeFile<'a>> {
        let identity = disk.facts(node)?.identity;
        Ok(FakeFile {
            handle: Handle::new(self.handle.disk, disk, node),
            identity,
        })
    }
}

impl<'a> FakeFile<'a> {
    /// The disk, for a call.
    fn called(&self, call: Call) -> io::Result<RefMut<'a, Disk>> {
        self.handle.called(call, b"")
    }

    /// All that is in it.
    pub fn contents(&self, alloc: Global) -> io::Result<Vec<u8>> {
        let disk = borrowed(self.handle.disk)?;
        Ok(Vec::from_slice(alloc, &disk.tree.node(self.handle.node)?.bytes)?)
    }
}

impl<'a> OpenFile for FakeFile<'a> {
    ghost has = { λ file what. file.identity ≡ what };

    // What stood where is known to the disk alone.
    ghost stood_at = { λ _ _. ⊤ };

    ghost may_write = { λ _. ⊤ };

    // What stands in it is known to the disk alone, too.
    ghost gave = { λ _ _ _. ⊤ };

    fn facts(&self) -> io::Result<Facts> {
        let mut disk = self.called(Call::FileFacts)?;
        let answer = disk.facts(self.handle.node);
        let Facts {
            size,
            mode,
            owner,
            ..
        } = disk.noted(answer)?;
        Ok(Facts {
            identity: self.identity,
            size,
            mode,
            owner,
        })
    }

    fn read_at(&self, room: &mut [u8], from: u64) -> io::Result<usize> {
        let mut disk = self.called(Call::Read)?;
        let bytes = disk.read(self.handle.node, from)?;
        let count = bytes.len().min(room.len());
        room[..count].copy_from_slice(&bytes[..count]);
        Ok(count)
    }

    fn write_all(&mut self, bytes: &[u8]) -> io::Result<()> {
        let mut disk = self.called(Call::Write)?;
        let answer = disk.write(self.handle.node, bytes);
        disk.noted(answer)
    }

    fn allow(&self, mode: u32) -> io::Result<()> {
        let mut disk = self.called(Call::AllowFile)?;
        let answer = disk.allow(self.handle.node, mode);
        disk.noted(answer)
    }

    fn try_lock(&self) -> io::Result<bool> {
        let _ = self.called(Call::Lock)?;
        Ok(true)
    }
}

impl<'a> Directory for FakeDirectory<'a> {
    type File = FakeFile<'a>;

    ghost place = { λ d. Some (map (λ n. n.items) d.names.items) };

    // All may be done: what is asked is what its callers require.
    ghost may_look = { λ _. ⊤ };

    ghost may_change = { λ _. ⊤ };

    ghost is_settled = { λ _. ⊤ };

    ghost stood = { λ _ _. ⊤ };

    fn open_in(&self, name: &[u8]) -> io::Result<FakeDirectory<'a>> {
        let mut disk = self.handle.called(Call::OpenIn, name)?;
        let answer = disk.open_directory(self.handle.node, name);
        let node = disk.noted(answer)?;
        let names = below(disk.alloc, name, &self.names)?;
        Ok(FakeDirectory {
            handle: Handle::new(self.handle.disk, &mut disk, node),
            names,
            listed: Cell::new(0),
        })
    }

    fn again(&self) -> io::Result<FakeDirectory<'a>> {
        let mut disk = self.handle.called(Call::Again, b"")?;
        let names = same_names(disk.alloc, &self.names)?;
        Ok(FakeDirectory {
            handle: Handle::new(self.handle.disk, &mut disk, self.handle.node),
            names,
            listed: Cell::new(0),
        })
    }

    fn facts(&self) -> io::Result<Facts> {
        let mut disk = self.handle.called(Call::Facts, b"")?;
        let answer = disk.facts(self.handle.node);
        disk.noted(answer)
    }

    /// No other process finds anything here.
    fn shown_path(&self, alloc: Global, name: &str) -> Result<String, AllocError> {
        String::from_str(alloc, name)
    }

    fn list(&self, room: &mut [u8]) -> io::Result<usize> {
        let mut disk = self.handle.called(Call::List, b"")?;
        let answer = disk.list(self.handle.node, self.listed.get(), room.len());
        let (names, last) = disk.noted(answer)?;
        self.listed.set(last);
        let count = names.len().min(room.len());
        room[..count].copy_from_slice(&names[..count]);
        Ok(count)
    }

    fn look(&self, name: &[u8]) -> io::Result<Facts> {
        let mut disk = self.handle.called(Call::Look, name)?;
        let answer = disk.look(self.handle.node, name);
        let facts = disk.noted(answer)?;
        Ok(facts)
    }

    fn look_while_open(&self, name: &[u8], _file: &FakeFile<'a>) -> io::Result<Facts> {
        self.look(name)
    }

    fn open_file(&self, name: &[u8], access: Access) -> io::Result<FakeFile<'a>> {
        let mut disk = self.handle.called(Call::OpenFile, name)?;
        let answer = disk.open_file(self.handle.node, name, access);
        let node = disk.noted(answer)?;
        let file = self.file(&mut disk, node)?;
        Ok(file)
    }

    fn make_file(&self, name: &[u8], mode: u32) -> io::Result<FakeFile<'a>> {
        let mut disk = self.handle.called(Call::MakeFile, name)?;
        let answer = disk.make(self.handle.node, name, What::File, mode);
        let node = disk.noted(answer)?;
        let file = self.file(&mut disk, node)?;
        Ok(file)
    }

    fn make_link(&self, name: &[u8], target: &str) -> io::Result<()> {
        let mut disk = self.handle.called(Call::MakeLink, name)?;
        let answer = disk.make(self.handle.node, name, What::Link(None), 0o777);
        let node = disk.noted(answer)?;
        disk.tree
            .node_mut(node)?
            .bytes
            .extend_from_slice(target.as_bytes())?;
        Ok(())
    }

    fn make_dir(&self, name: &[u8], mode: u32) -> io::Result<()> {
        let mut disk = self.handle.called(Call::MakeDir, name)?;
        let answer = disk.make(self.handle.node, name, What::Directory, mode);
        disk.noted(answer)?;
        Ok(())
    }

    fn remove_file(&self, name: &[u8]) -> io::Result<()> {
        let mut disk = self.handle.called(Call::RemoveFile, name)?;
        let answer = disk.remove(self.handle.node, name, false);
        disk.noted(answer)
    }

    fn remove_dir(&self, name: &[u8]) -> io::Result<()> {
        let mut disk = self.handle.called(Call::RemoveDir, name)?;
        let answer = disk.remove(self.handle.node, name, true);
        disk.noted(answer)
    }

    fn move_into(&self, name: &[u8], other: &FakeDirectory<'a>, new_name: &[u8]) -> io::Result<()> {
        let mut disk = self.handle.called(Call::MoveInto, name)?;
        let answer = disk.rename(self.handle.node, name, other.handle.node, new_name);
        disk.noted(answer)
    }

    fn link_into(&self, name: &[u8], other: &FakeDirectory<'a>, new_name: &[u8]) -> io::Result<()> {
        let mut disk = self.handle.called(Call::LinkInto, name)?;
        let answer = disk.link(self.handle.node, name, other.handle.node, new_name);
        disk.noted(answer)
    }

    fn allow(&self, mode: u32) -> io::Result<()> {
        let mut disk = self.handle.called(Call::Allow, b"")?;
        let answer = disk.allow(self.handle.node, mode);
        disk.noted(answer)
    }

    fn allow_in(&self, name: &[u8], mode: u32) -> io::Result<()> {
        let mut disk = self.handle.called(Call::AllowIn, name)?;
        let answer = disk.allow_in(self.handle.node, name, mode);
        disk.noted(answer)
    }
}
