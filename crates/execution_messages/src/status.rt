//! The response of an execution that has no result.

ghost use Rattle.std.specs.Prelude.{◌≡◌, IfOk, OnOk, map, string_bytes};
ghost use Rattle.std.specs.Fmt as fmt;
ghost use Rattle.execution_messages.specs.Statuses.{with_distinct, distinct, subject_of, failure_text, details_of, violation_of, status_with, status_of};
ghost use Rattle.execution_messages.specs.Operations.{violation_shown, execute_response_records};
ghost use Rattle.protobuf_wire.specs.Parts.{text_for};
ghost use Rattle.execution_messages.specs.Progress.{failed_with};
ghost use Rattle.reapi_messages.specs.Statuses.{any_shown};

use crate::fault::Fault;
use crate::{ExecuteResponse, PreconditionFailure, Violation};
use digest::Digest;
use keyed_maps::{KeyedSet, MapKey};
use protobuf_wire::Message;
use reapi_messages::{Any, Status};
use std::alloc::{AllocError, Global};

const FAILURE_URL: &str = "type.googleapis.com/google.rpc.PreconditionFailure";

const MISSING: &str = "MISSING";

/// A digest that was not met goes last.
fn add(
    seen: &mut KeyedSet<Digest>,
    found: &mut Vec<Digest>,
    digest: &Digest,
) -> Result<(), AllocError>
    requires { seen.old.keys ≡ found.old.items }
    ensures same { OnOk result (seen.new.keys ≡ found.new.items) }
    ensures found { OnOk result (found.new.items ≡ with_distinct found.old.items digest.now) }
{
    if seen.contains(digest) {
        return Ok(());
    }
    seen.insert(*digest)?;
    found.push(*digest)?;
    Ok(())
}

/// Each digest once, in the order met.
pub fn distinct(alloc: Global, key: MapKey, digests: &[Digest]) -> Result<Vec<Digest>, AllocError>
    ensures { IfOk result (λ found. found.items ≡ distinct digests.now) }
{
    let mut seen = KeyedSet::with_hasher(alloc, key);
    let mut found = Vec::new(alloc);
    let mut left = digests;
    while let [first, rest @ ..] = left {
        add(&mut seen, &mut found, first)?;
        left = rest;
    }
    Ok(found)
}

/// A number in decimal.
fn size_text(alloc: Global, size: u64) -> Result<String, AllocError>
    ensures { IfOk result (λ text. string_bytes text ≡ fmt.decimal size) }
{
    format!(in alloc; "{size}")
}

/// What is said to be missing.
fn subject(alloc: Global, digest: &Digest) -> Result<String, AllocError>
    ensures { IfOk result (λ text. string_bytes text ≡ subject_of digest.now) }
{
    let hash = hex::encode(alloc, digest.hash.as_bytes())?;
    let size = size_text(alloc, digest.size)?;
    let mut text = String::from_str(alloc, "blobs/")?;
    text.push_str(&hash)?;
    text.push_str("/")?;
    text.push_str(&size)?;
    Ok(text)
}

/// What is said to be missing, of each digest.
fn subjects(alloc: Global, digests: &[Digest]) -> Result<Vec<String>, AllocError>
    ensures { IfOk result (λ texts. map string_bytes texts.items ≡ map subject_of digests.now) }
{
    let mut texts = Vec::new(alloc);
    let mut left = digests;
    while let [first, rest @ ..] = left {
        let text = subject(alloc, first)?;
        texts.push(text)?;
        left = rest;
    }
    Ok(texts)
}

/// A violation of each subject.
fn violations<'a>(alloc: Global, subjects: &'a [String]) -> Result<Vec<Violation<'a>>, AllocError>
    ensures { IfOk result (λ violations. map violation_shown violations.items
        ≡ map violation_of (map string_bytes subjects.now)) }
{
    let mut violations = Vec::new(alloc);
    let mut left = subjects;
    while let [first, rest @ ..] = left {
        violations.push(Violation {
            kind: MISSING,
            subject: first.as_str(),
        })?;
        left = rest;
    }
    Ok(violations)
}

/// The failure that names blobs that are missing, each once.
fn failure_text(alloc: Global, key: MapKey, missing: &[Digest]) -> Result<Vec<u8>, AllocError>
    ensures { IfOk result (λ text. text.items ≡ failure_text missing.now) }
{
    let digests = distinct(alloc, key, missing)?;
    let subjects = subjects(alloc, &digests)?;
    let violations = violations(alloc, &subjects)?;
    let failure = PreconditionFailure { violations };
    failure.encode(alloc)
}

/// The response that has a status alone.
fn response_with(alloc: Global, fault: Fault, details: Vec<Any<'_>>) -> Result<Vec<u8>, AllocError>
    ensures { IfOk result (λ text. text.items ≡ text_for execute_response_records
        (failed_with (status_with fault (map any_shown details.entry.items)))) }
{
    let response = ExecuteResponse {
        result: None,
        cached_result: false,
        status: Some(Status {
            code: fault.code(),
            message: fault.text(),
            details,
        }),
    };
    response.encode(alloc)
}

/// What a status says besides its code and text: the failure that names the missing blobs, where
/// there are any.
fn details<'a>(
    alloc: Global,
    missing: &[Digest],
    failure: &'a [u8],
) -> Result<Vec<Any<'a>>, AllocError>
    requires { failure.now ≡ failure_text missing.now }
    ensures { IfOk result (λ details. map any_shown details.items ≡ details_of missing.now) }
{
    let mut details = Vec::new(alloc);
    if missing.is_empty() {
        return Ok(details);
    }
    details.push(Any {
        type_url: FAILURE_URL,
        value: failure,
    })?;
    Ok(details)
}

/// The response of an execution that has no result, for a fault; it names the blobs that are
/// missing.
pub fn fault_response(
    alloc: Global,
    key: MapKey,
    fault: Fault,
    missing: &[Digest],
) -> Result<Vec<u8>, AllocError>
    ensures { IfOk result (λ text. text.items ≡ text_for execute_response_records
        (failed_with (status_of fault missing.now))) }
{
    let failure = failure_text(alloc, key, missing)?;
    let details = details(alloc, missing, &failure)?;
    response_with(alloc, fault, details)
}
