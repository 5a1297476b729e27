//! What the run of an action gives.

ghost use Rattle.std.specs.Prelude.{◌≡◌, [], IfOk, map};
ghost use Rattle.run_calls.specs.Shown.{exited_shown, output_shown};

use crate::content::Content;
use blob_pool::Draft;
use digest::HashFunction;
use std::alloc::{AllocError, Global};

/// What a node of an output directory is.
#[derive(Drop)]
pub enum OutputNodeKind {
    /// A file with a text.
    File {
        content: Content,
        is_executable: bool,
    },
    /// A directory, whose nodes follow.
    Directory,
}

/// A node of an output directory.
pub struct OutputNode {
    /// Its name in the directory that it stands in.
    pub name: String,
    /// The level of the directory that it stands in: 1 for nodes of the output directory itself.
    pub level: u32,
    pub kind: OutputNodeKind,
}

// Written out, so that no crate above proves again that each part of it may be dropped.
impl Drop for OutputNode {
    fn drop(self) {
        let OutputNode {
            name,
            level: _,
            kind,
        } = self;
        drop(name);
        drop(kind);
    }
}

impl OutputNode {
    /// What it is, without its name and its level.
    pub fn into_kind(self) -> OutputNodeKind
        ensures { result ≡ self.kind }
    {
        let OutputNode {
            name: _,
            level: _,
            kind,
        } = self;
        kind
    }
}

/// What stands at an output's path.
#[derive(Drop)]
pub enum OutputKind {
    File {
        content: Content,
        is_executable: bool,
    },
    /// A directory, by the nodes in it: of each directory the files, then each directory followed
    /// by what is in it.
    Tree {
        nodes: Vec<OutputNode>,
    },
}

/// An output that a run gave.
pub struct Output {
    /// As the command asks for it.
    pub path: String,
    pub kind: OutputKind,
}

// Written out, so that no crate above proves again that each part of it may be dropped.
impl Drop for Output {
    fn drop(self) {
        let Output { path, kind } = self;
        drop(path);
        drop(kind);
    }
}

impl Output {
    /// Its path, and what stands there.
    pub fn into_parts(self) -> (String, OutputKind)
        ensures path { result.0 ≡ self.path }
        ensures kind { result.1 ≡ self.kind }
    {
        let Output { path, kind } = self;
        (path, kind)
    }
}

/// What a run gave that came to its end.
pub struct Exited {
    pub code: i32,
    /// Behind a pointer, so that every event is small, whatever it tells of.
    pub streams: Box<Streams>,
    /// In the order asked for; those that are not there are left out.
    pub outputs: Vec<Output>,
}

/// What a run wrote.
#[derive(Drop)]
pub struct Streams {
    pub stdout: Content,
    pub stderr: Content,
}

impl Streams {
    /// Nothing that was written, hashed by a function. It takes no memory.
    pub fn empty(alloc: Global, function: HashFunction) -> Streams
        ensures stdout { result.stdout ≡ [] }
        ensures stderr { result.stderr ≡ [] }
    {
        Streams {
            stdout: Content::new(Draft::new(alloc, function)),
            stderr: Content::new(Draft::new(alloc, function)),
        }
    }
}

// Written out, so that no crate above proves again that each part of it may be dropped.
impl Drop for Exited {
    fn drop(self) {
        let Exited {
            code: _,
            streams,
            outputs,
        } = self;
        drop(streams);
        drop(outputs);
    }
}

impl Exited {
    /// What a run gave that came to its end: its exit code, what it wrote, and its outputs.
    pub fn new(
        alloc: Global,
        code: i32,
        streams: Streams,
        outputs: Vec<Output>,
    ) -> Result<Exited, AllocError>
        ensures { IfOk result (λ run. exited_shown run ≡ record {
          code = code;
          stdout = streams.stdout;
          stderr = streams.stderr;
          outputs = map output_shown outputs.items;
        }) }
    {
        let streams = Box::new(alloc, streams)?;
        Ok(Exited {
            code,
            streams,
            outputs,
        })
    }

    /// Its exit code, what it wrote, and its outputs.
    pub fn into_parts(self) -> (i32, Box<Streams>, Vec<Output>)
        ensures code { result.0 ≡ self.code }
        ensures streams { result.1 ≡ self.streams }
        ensures outputs { result.2 ≡ self.outputs }
    {
        let Exited {
            code,
            streams,
            outputs,
        } = self;
        (code, streams, outputs)
    }
}

/// What the run of an action gave.
#[derive(Drop)]
pub enum Outcome {
    /// The action could not be run.
    Failed,
    Exited(Exited),
}
