//! The limits of trees and of results, each reached and passed by one, on a server of a case's own.
//!
//! | line | what is done |
//! |---|---|
//! | `wide N` | stores N - 1 different directories and the root that has them all |
//! | `deep N ..` | stores directories, each with a link to so many letters and the next one in it |
//! | `tree SIZE TOKEN` | asks for the tree of the root stored last; TOKEN is `-` for none |
//! | `update FIRST LAST N` | results with N bytes of output for the actions of these numbers |
//! | `get FIRST LAST` | asks for the results of these actions |
//!
//! The action of a number is named by the digest of its decimal digits.
//!
//! Of each answer it writes the block that ends it, in hexadecimal, and of each message the length
//! and the SHA-256; of several answers that are equal one behind the other how many there are.

mod answers;
pub mod client;
mod directories;
mod requests;

use crate::instances::{configs, server};
use crate::limits::answers::Answers;
use crate::limits::client::Client;
use crate::limits::directories::{Blob, add_child, filled, leaf};
use crate::numbers::number;
use script::{Parts, lines, words};
use server_core::Server;
use std::slice;
use tool_programs::{Fault, Output, Status};

const QUOTA: u64 = 1_000_000_000;

const BATCH_UPDATE: &str =
    "/build.bazel.remote.execution.v2.ContentAddressableStorage/BatchUpdateBlobs";

const GET_TREE: &str = "/build.bazel.remote.execution.v2.ContentAddressableStorage/GetTree";

const GET_RESULT: &str = "/build.bazel.remote.execution.v2.ActionCache/GetActionResult";

const UPDATE_RESULT: &str = "/build.bazel.remote.execution.v2.ActionCache/UpdateActionResult";

/// What the first word of a line has done.
#[derive(Clone, Copy)]
enum Verb {
    Wide,
    Deep,
    Tree,
    Update,
    Get,
}

static VERBS: [(&[u8], Verb); 5] = [
    (b"wide", Verb::Wide),
    (b"deep", Verb::Deep),
    (b"tree", Verb::Tree),
    (b"update", Verb::Update),
    (b"get", Verb::Get),
];

/// That a line says nothing.
const BAD_LINE: Fault = Fault::InputOrOutput;

fn verb_of(word: &[u8]) -> Option<Verb> {
    for (name, verb) in &VERBS {
        if *name == word {
            return Some(*verb);
        }
    }
    None
}

fn numbers(words: Parts<'_>, output: &mut Output) -> Vec<u64> {
    let mut numbers = Vec::new(output.alloc);
    for word in words {
        let number = number(word, output);
        output.expect(numbers.push(number));
    }
    numbers
}

fn token<'a>(word: &'a [u8], output: &mut Output) -> &'a str {
    match str::from_utf8(word) {
        Ok("-") => "",
        Ok(token) => token,
        Err(_) => {
            output.fail(BAD_LINE);
            ""
        }
    }
}

fn action(number: u64, output: &mut Output) -> Blob {
    let digits = output.string(format!(in output.alloc; "{number}"));
    Blob::of(digits.into_bytes(), output)
}

/// The server, its client, the root that was stored last, and the answers of a line.
#[derive(Drop)]
struct Session {
    client: Client,
    root: Blob,
    answers: Answers,
}

impl Session {
    fn store(&mut self, blobs: &[Blob], output: &mut Output) {
        let request = requests::batch_update(blobs, output);
        self.client.call(BATCH_UPDATE, &request, output);
    }

    fn store_root(&mut self, text: Vec<u8>, output: &mut Output) {
        let root = Blob::of(text, output);
        self.store(slice::from_ref(&root), output);
        self.root = root;
    }

    fn store_wide(&mut self, count: u64, output: &mut Output) {
        let mut leaves = Vec::new(output.alloc);
        let mut root = Vec::new(output.alloc);
        for place in 1..count {
            let child = Blob::of(leaf(place, output), output);
            add_child(place, &child, &mut root, output);
            output.expect(leaves.push(child));
        }
        self.store(&leaves, output);
        self.store_root(root, output);
    }

    fn store_deep(&mut self, targets: &[u64], output: &mut Output) {
        let mut is_last = true;
        for target in targets.iter().rev() {
            let child = if is_last { None } else { Some(&self.root) };
            let text = filled(*target, child, output);
            self.store_root(text, output);
            is_last = false;
        }
    }

    fn show_tree(&mut self, mut words: Parts<'_>, output: &mut Output) {
        let page_size = number(words.next().unwrap_or(b""), output);
        let page_token = token(words.next().unwrap_or(b""), output);
        let request = requests::get_tree(&self.root, page_size, page_token, output);
        let answer = self.client.call(GET_TREE, &request, output);
        self.answers.add(&answer, output);
    }

    /// Gives the actions of these numbers results with so many bytes, or asks for those that they
    /// have.
    fn show_results(&mut self, first: u64, last: u64, size: Option<u64>, output: &mut Output) {
        for number in first..=last {
            let action = action(number, output);
            let (path, request) = match size {
                Some(size) => (
                    UPDATE_RESULT,
                    requests::update_result(&action, size, output),
                ),
                None => (GET_RESULT, requests::get_result(&action, output)),
            };
            let answer = self.client.call(path, &request, output);
            self.answers.add(&answer, output);
        }
    }

    fn carry_out_verb(&mut self, verb: Verb, numbers: &[u64], output: &mut Output) {
        match (verb, numbers) {
            (Verb::Wide, [count]) => self.store_wide(*count, output),
            (Verb::Deep, targets) => self.store_deep(targets, output),
            (Verb::Update, [first, last, size]) => {
                self.show_results(*first, *last, Some(*size), output)
            }
            (Verb::Get, [first, last]) => self.show_results(*first, *last, None, output),
            _ => output.fail(BAD_LINE),
        }
    }

    fn carry_out(&mut self, line: &[u8], output: &mut Output) {
        let mut words = words(line);
        match verb_of(words.next().unwrap_or(b"")) {
            Some(Verb::Tree) => self.show_tree(words, output),
            Some(verb) => self.carry_out_verb(verb, &numbers(words, output), output),
            None => output.fail(BAD_LINE),
        }
    }

    fn carry_out_all(&mut self, text: &[u8], output: &mut Output) {
        self.client.greet(0, output);
        for line in lines(text) {
            if !line.is_empty() {
                output.print(line);
                output.print(b"\n");
                self.carry_out(line, output);
                self.answers.finish(output);
            }
        }
    }
}

/// Carries out the lines of a text on a server.
fn carry_out_on(server: Box<Server>, text: &[u8], output: &mut Output) {
    let mut session = Session {
        client: Client::new(output.alloc, server),
        root: Blob::of(Vec::new(output.alloc), output),
        answers: Answers::new(output.alloc),
    };
    session.carry_out_all(text, output);
}

/// Carries out the lines of a text on a server of its own.
pub fn carry_out(text: &[u8], output: &mut Output) -> Status {
    if let Some(configs) = configs(&["main"], QUOTA, output) {
        if let Some(server) = server(&configs, output) {
            carry_out_on(server, text, output);
        }
    }
    Status::Done
}
