//! What the run of an action comes to.

ghost use Rattle.std.specs.Prelude.{◌≡◌, ◌++◌, true, map, option_map, string_bytes, IfOk, OnOk};
ghost use Rattle.actions.specs.Shown.{asked_shown};
ghost use Rattle.reapi_messages.specs.Digests.{digest_shown};
ghost use Rattle.tree_messages.specs.Results.{output_directory_shown, output_file_shown, action_result_records};
ghost use Rattle.protobuf_wire.specs.Parts.{text_for};
ghost use Rattle.execution_messages.specs.Written.{written_shown};
ghost use Rattle.outcomes.specs.Completing.{Collects, blob_shown, IsCollected, completion_shown, named_output_shown, named_tree_shown};
ghost use Rattle.outcomes.specs.Naming.{blob_like};
ghost use Rattle.outcomes.specs.Results.{completion_of, is_output, node_blob, node_blobs, result_with, stream_blobs, stream_digest};
ghost use Rattle.run_calls.specs.Shown.{exited_shown, node_shown, nodes_shown, output_shown};
ghost use Rattle.outcomes.specs.Trees.{tree_text};
ghost use Rattle.run_calls.specs.Outcomes.{output_file, output_tree};

use crate::asked::are_asked;
use crate::naming::{digest_like, write_content, write_text};
use crate::tree::tree_of;
use actions::AskedOutput;
use blob_pool::Draft;
use digest::Digest;
use execution_messages::WrittenDigest;
use keyed_maps::MapKey;
use protobuf_wire::Message;
use reapi_messages as messages;
use run_calls::{Content, Exited, Output, OutputKind, OutputNode, OutputNodeKind, Streams};
use std::alloc::{AllocError, Global};
use std::collections::VecDeque;
use tree_messages::{ActionResult, OutputDirectory, OutputFile};

/// The text of a blob that a run leaves.
#[derive(Drop)]
pub enum BlobText {
    /// One that the run gave.
    Draft(Draft),
    /// A Tree.
    Bytes(Vec<u8>),
}

/// A blob that a run leaves, under the digest that names it.
pub struct OutputBlob {
    pub digest: Digest,
    pub text: BlobText,
}

// Written out, so that no crate above proves again that each part of it may be dropped.
impl Drop for OutputBlob {
    fn drop(self) {
        let OutputBlob { digest: _, text } = self;
        drop(text);
    }
}

impl OutputBlob {
    /// Its text, without the digest.
    pub fn into_text(self) -> BlobText
        ensures { result ≡ self.text }
    {
        let OutputBlob { digest: _, text } = self;
        text
    }
}

/// What a run comes to.
#[derive(Drop)]
pub struct Completion {
    /// In the order in which they are admitted.
    pub blobs: Vec<OutputBlob>,
    /// The text of the ActionResult.
    pub result: Vec<u8>,
}

/// A file as a result names it.
#[derive(Drop)]
struct NamedOutput {
    path: String,
    digest: WrittenDigest,
    is_executable: bool,
}

/// A directory as a result names it.
#[derive(Drop)]
struct NamedTree {
    path: String,
    digest: WrittenDigest,
}

/// What was collected of outputs.
struct Collection {
    files: Vec<NamedOutput>,
    trees: Vec<NamedTree>,
    file_blobs: Vec<OutputBlob>,
    tree_blobs: Vec<OutputBlob>,
}

// Written out, so that each exit of a function that owns it has one call in place of one for each
// part.
impl Drop for Collection {
    fn drop(self) {
        let Collection {
            files,
            trees,
            file_blobs,
            tree_blobs,
        } = self;
        drop(files);
        drop(trees);
        drop(file_blobs);
        drop(tree_blobs);
    }
}

impl Collection {
    /// The blobs of files, and those of directories.
    fn into_blobs(self) -> (Vec<OutputBlob>, Vec<OutputBlob>)
        ensures files { result.0 ≡ self.file_blobs }
        ensures trees { result.1 ≡ self.tree_blobs }
    {
        let Collection {
            files: _,
            trees: _,
            file_blobs,
            tree_blobs,
        } = self;
        (file_blobs, tree_blobs)
    }
}

/// A text as a blob.
fn content_blob(like: &Digest, content: Content) -> OutputBlob
    ensures { blob_shown result ≡ blob_like like.now content }
{
    let digest = content.digest_like(like);
    OutputBlob {
        digest,
        text: BlobText::Draft(content.into_draft()),
    }
}

/// A text that is nothing is no blob.
fn push_stream(
    like: &Digest,
    blobs: &mut Vec<OutputBlob>,
    content: Content,
) -> Result<(), AllocError>
    ensures { OnOk result (map blob_shown blobs.new.items
        ≡ map blob_shown blobs.old.items ++ stream_blobs like.now content) }
{
    if !content.is_empty() {
        blobs.push(content_blob(like, content))?;
    }
    Ok(())
}

/// The blob of a node that is a file.
fn push_node(like: &Digest, blobs: &mut Vec<OutputBlob>, node: OutputNode) -> Result<(), AllocError>
    ensures { OnOk result (map blob_shown blobs.new.items
        ≡ map blob_shown blobs.old.items ++ node_blob like.now (node_shown node).kind) }
{
    if let OutputNodeKind::File { content, .. } = node.into_kind() {
        blobs.push(content_blob(like, content))?;
    }
    Ok(())
}

/// The blobs of an output directory's files.
fn push_nodes(
    like: &Digest,
    blobs: &mut Vec<OutputBlob>,
    nodes: Vec<OutputNode>,
) -> Result<(), AllocError>
    ensures { OnOk result (map blob_shown blobs.new.items
        ≡ map blob_shown blobs.old.items ++ node_blobs like.now (nodes_shown nodes.items)) }
{
    let mut left = VecDeque::from_vec(nodes);
    while let Some(node) = left.pop_front() {
        push_node(like, blobs, node)?;
    }
    Ok(())
}

/// Collects an output file.
fn collect_file(
    alloc: Global,
    like: &Digest,
    collection: &mut Collection,
    path: String,
    content: Content,
    is_executable: bool,
) -> Result<(), AllocError>
    ensures { OnOk result (Collects like.now (output_file (string_bytes path) content is_executable)
        collection.old collection.new) }
{
    let digest = write_content(alloc, like, &content)?;
    collection.files.push(NamedOutput {
        path,
        digest,
        is_executable,
    })?;
    collection.file_blobs.push(content_blob(like, content))?;
    Ok(())
}

/// The text of a Tree as a blob.
fn tree_blob(like: &Digest, text: Vec<u8>) -> OutputBlob
    ensures { blob_shown result ≡ blob_like like.now text.items }
{
    let digest = digest_like(like, &text);
    OutputBlob {
        digest,
        text: BlobText::Bytes(text),
    }
}

/// Collects an output directory with the text of its Tree.
fn collect_tree(
    alloc: Global,
    like: &Digest,
    collection: &mut Collection,
    path: String,
    nodes: Vec<OutputNode>,
    text: Vec<u8>,
) -> Result<(), AllocError>
    requires { text.items ≡ tree_text like.now (nodes_shown nodes.items) }
    ensures { OnOk result (Collects like.now
        (output_tree (string_bytes path) (nodes_shown nodes.items))
        collection.old collection.new) }
{
    let digest = write_text(alloc, like, &text)?;
    collection.trees.push(NamedTree { path, digest })?;
    push_nodes(like, &mut collection.tree_blobs, nodes)?;
    collection.tree_blobs.push(tree_blob(like, text))?;
    Ok(())
}

/// Collects an output, and says whether it is taken.
fn collect_output(
    alloc: Global,
    key: MapKey,
    like: &Digest,
    collection: &mut Collection,
    output: Output,
) -> Result<bool, AllocError>
    ensures { IfOk result (λ taken. (taken ≡ is_output like.now (output_shown output))
        × (taken ≡ true → Collects like.now (output_shown output)
        collection.old collection.new)) }
{
    let (path, kind) = output.into_parts();
    match kind {
        OutputKind::File {
            content,
            is_executable,
        } => {
            collect_file(alloc, like, collection, path, content, is_executable)?;
            Ok(true)
        }
        OutputKind::Tree { nodes } => {
            let Some(text) = tree_of(alloc, key, like, &nodes)? else {
                return Ok(false);
            };
            collect_tree(alloc, like, collection, path, nodes, text)?;
            Ok(true)
        }
    }
}

/// Collects outputs, where all are taken.
fn collect(
    alloc: Global,
    key: MapKey,
    like: &Digest,
    outputs: Vec<Output>,
) -> Result<Option<Collection>, AllocError>
    ensures { IfOk result (IsCollected like.now (map output_shown outputs.items)) }
{
    let mut collection = Collection {
        files: Vec::new(alloc),
        trees: Vec::new(alloc),
        file_blobs: Vec::new(alloc),
        tree_blobs: Vec::new(alloc),
    };
    let mut left = VecDeque::from_vec(outputs);
    while let Some(output) = left.pop_front() {
        if !collect_output(alloc, key, like, &mut collection, output)? {
            return Ok(None);
        }
    }
    Ok(Some(collection))
}

fn file_messages<'a>(
    alloc: Global,
    files: &'a [NamedOutput],
) -> Result<Vec<OutputFile<'a>>, AllocError>
    ensures { IfOk result (λ messages. map output_file_shown messages.items
        ≡ map named_output_shown files.now) }
{
    let mut messages = Vec::new(alloc);
    let mut left = files;
    while let [first, rest @ ..] = left {
        messages.push(OutputFile {
            path: &first.path,
            digest: Some(first.digest.message()),
            is_executable: first.is_executable,
        })?;
        left = rest;
    }
    Ok(messages)
}

fn tree_messages<'a>(
    alloc: Global,
    trees: &'a [NamedTree],
) -> Result<Vec<OutputDirectory<'a>>, AllocError>
    ensures { IfOk result (λ messages. map output_directory_shown messages.items
        ≡ map named_tree_shown trees.now) }
{
    let mut messages = Vec::new(alloc);
    let mut left = trees;
    while let [first, rest @ ..] = left {
        messages.push(OutputDirectory {
            path: &first.path,
            tree_digest: Some(first.digest.message()),
        })?;
        left = rest;
    }
    Ok(messages)
}

/// The digest of what was written to a stream, unless that is nothing.
fn name_stream(
    alloc: Global,
    like: &Digest,
    content: &Content,
) -> Result<Option<WrittenDigest>, AllocError>
    ensures { IfOk result (λ written. option_map written_shown written
        ≡ stream_digest like.now content.now) }
{
    if content.is_empty() {
        return Ok(None);
    }
    let written = write_content(alloc, like, content)?;
    Ok(Some(written))
}

fn stream_message(written: &Option<WrittenDigest>) -> Option<messages::Digest<'_>>
    ensures { option_map digest_shown result ≡ option_map written_shown written.now }
{
    match written {
        Some(written) => Some(written.message()),
        None => None,
    }
}

/// The text of a result.
fn write_result(
    alloc: Global,
    code: i32,
    collection: &Collection,
    stdout: &Option<WrittenDigest>,
    stderr: &Option<WrittenDigest>,
) -> Result<Vec<u8>, AllocError>
    ensures { IfOk result (λ text. text.items ≡ text_for action_result_records
        (result_with code (map named_output_shown collection.now.files.items)
        (map named_tree_shown collection.now.trees.items)
        (option_map written_shown stdout.now) (option_map written_shown stderr.now))) }
{
    let result = ActionResult {
        output_files: file_messages(alloc, &collection.files)?,
        output_directories: tree_messages(alloc, &collection.trees)?,
        exit_code: code,
        stdout_raw: &[],
        stdout_digest: stream_message(stdout),
        stderr_raw: &[],
        stderr_digest: stream_message(stderr),
    };
    result.encode(alloc)
}

/// The text of the result of a run: its exit code, what it wrote, and what was collected.
fn result_text(
    alloc: Global,
    like: &Digest,
    code: i32,
    streams: &Streams,
    collection: &Collection,
) -> Result<Vec<u8>, AllocError>
    ensures { IfOk result (λ text. text.items ≡ text_for action_result_records
        (result_with code (map named_output_shown collection.now.files.items)
        (map named_tree_shown collection.now.trees.items)
        (stream_digest like.now streams.now.stdout)
        (stream_digest like.now streams.now.stderr))) }
{
    let out = name_stream(alloc, like, &streams.stdout)?;
    let err = name_stream(alloc, like, &streams.stderr)?;
    write_result(alloc, code, collection, &out, &err)
}

/// All blobs: of files, of directories, and of what was written to the streams.
fn join_blobs(
    like: &Digest,
    collection: Collection,
    stdout: Content,
    stderr: Content,
) -> Result<Vec<OutputBlob>, AllocError>
    ensures { IfOk result (λ blobs. map blob_shown blobs.items
        ≡ map blob_shown collection.file_blobs.items ++ map blob_shown collection.tree_blobs.items
        ++ stream_blobs like.now stdout ++ stream_blobs like.now stderr) }
{
    let (file_blobs, tree_blobs) = collection.into_blobs();
    let mut blobs = file_blobs;
    let mut left = VecDeque::from_vec(tree_blobs);
    while let Some(blob) = left.pop_front() {
        blobs.push(blob)?;
    }
    push_stream(like, &mut blobs, stdout)?;
    push_stream(like, &mut blobs, stderr)?;
    Ok(blobs)
}

/// What the run of an action comes to, or `None` where its outputs are not some of those that were
/// asked for, or a directory among them is not taken: it breaks the rules or the limits of input
/// trees. The texts that it gave are moved, and none is hashed again.
#[tactic(auto, using(crate::proofs::Completed::not_asked, crate::proofs::Completed::not_taken))]
pub fn complete(
    alloc: Global,
    key: MapKey,
    action: &Digest,
    asked: &[AskedOutput<'_>],
    exited: Exited,
) -> Result<Option<Completion>, AllocError>
    ensures { IfOk result (λ found. option_map completion_shown found
        ≡ completion_of action.now (map asked_shown asked.now) (exited_shown exited)) }
{
    if !are_asked(asked, &exited.outputs) {
        return Ok(None);
    }
    let (code, streams, outputs) = exited.into_parts();
    let Some(collection) = collect(alloc, key, action, outputs)? else {
        return Ok(None);
    };
    let result = result_text(alloc, action, code, &streams, &collection)?;
    let Streams { stdout, stderr } = Box::into_inner(streams);
    let blobs = join_blobs(action, collection, stdout, stderr)?;
    Ok(Some(Completion { blobs, result }))
}
