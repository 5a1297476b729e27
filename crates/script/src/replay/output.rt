//! The files that a program left.
ghost use Rattle.std.specs.Prelude.{◌≡◌, map, Some, None, Ok, Err, IfOk, option_map, string_bytes};
ghost use Rattle.run_calls.specs.Shown.{output_shown};
ghost use Rattle.script.specs.ReplayEvents.{content_of, output_of, outputs_of, path_and_content_of, plain_file};

use crate::arguments::are_ascii;
use crate::fault::LineFault;
use crate::{Parts, hex_bytes};
use blob_pool::Draft;
use digest::HashFunction;
use run_calls::{Content, Output, OutputKind};
use std::alloc::Global;
use std::str;

/// The most bytes of a text that a program left.
const CONTENT_LIMIT: usize = 1 << 48;

/// The files of words PATH=HEX.
pub(crate) fn read_outputs(alloc: Global, words: Parts) -> Result<Vec<Output>, LineFault>
    ensures read { IfOk result (λ outputs. outputs_of words.entry
        ≡ Some (map output_shown outputs.items)) }
    ensures bad { result ≡ Err LineFault.Bad → outputs_of words.entry ≡ None }
{
    let mut outputs = Vec::new(alloc);
    for word in words {
        let output = read_output(alloc, word)?;
        outputs.push(output)?;
    }
    Ok(outputs)
}

// The file of a word PATH=HEX.
fn read_output(alloc: Global, word: &[u8]) -> Result<Output, LineFault>
    ensures read { IfOk result (λ output. output_of word.now ≡ Some (output_shown output)) }
    ensures bad { result ≡ Err LineFault.Bad → output_of word.now ≡ None }
{
    let (path, content) = path_and_content(word).ok_or(LineFault::Bad)?;
    let content = read_content(alloc, content.as_bytes())?;
    let path = String::from_str(alloc, path)?;
    Ok(plain_file(path, content))
}

// A file that may not be executed.
fn plain_file(path: String, content: Content) -> Output
    ensures { output_shown result ≡ plain_file (string_bytes path) content }
{
    let kind = OutputKind::File {
        content,
        is_executable: false,
    };
    Output { path, kind }
}

/// The text that a word HEX writes.
pub(crate) fn read_content(alloc: Global, word: &[u8]) -> Result<Content, LineFault>
    ensures read { IfOk result (λ content. content_of word.now ≡ Some content) }
    ensures bad { result ≡ Err LineFault.Bad → content_of word.now ≡ None }
{
    let bytes = hex_bytes(alloc, word)?.ok_or(LineFault::Bad)?;
    if bytes.len() > CONTENT_LIMIT {
        return Err(LineFault::Bad);
    }
    let mut draft = Draft::new(alloc, HashFunction::Sha256);
    draft.push(&bytes)?;
    Ok(Content::new(draft))
}

// What stands before and after the last `=` of a word of ASCII.
fn path_and_content(word: &[u8]) -> Option<(&str, &str)>
    ensures { option_map (λ split. (split.0.now, split.1.now)) result
        ≡ path_and_content_of word.now }
{
    if !are_ascii(word) {
        return None;
    }
    // ASCII is UTF-8, which `rsplit_once` asks for by its type.
    match str::from_utf8(word) {
        Ok(text) => text.rsplit_once('='),
        Err(_) => None,
    }
}
