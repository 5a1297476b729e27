//! What a piece, or the end, of an upload does to the table.

ghost use Rattle.std.specs.Prelude.{◌≡◌, ◌≤◌, ◌+◌, ◌↔◌, ◌⊎◌, ◌++◌, true, length, map, IsTrue, IsSome, Ok, Err, OnOk, OnErr};
ghost use Rattle.digest.specs.Naming.{Names};
ghost use Rattle.blob_pool.specs.Moves.{Moves};
ghost use Rattle.blob_pool.specs.declared.text.TheConstants.{MOST_BYTES};
ghost use Rattle.instance_view.specs.Shown.{visible_in, holders};
ghost use Rattle.quota_evict.specs.Admission.{visible_after_admission};
ghost use Rattle.quota_evict.specs.InPool.{IsViewInPool};
ghost use Rattle.uploads.specs.Uploads.{uploads_length, upload_at, with_upload, text_so_far, AreUploadsWithin};
ghost use Rattle.uploads.specs.Writing as writing;
ghost use Rattle.uploads.specs.Writing.{Answers, piece_answer, call_answer, finish_answer, after_piece, after_finish, may_begin};
ghost use Rattle.uploads.specs.Fitting.{Fits};
ghost use Rattle.uploads.specs.Shown.{key_shown, upload_shown, entry_shown, piece_shown, IsWhole, AreWhole};
ghost use Rattle.quota_evict.specs.Within.{most_stored_bytes};

use crate::error::UploadError;
use crate::key::UploadKey;
use crate::table::{Table, Upload, exchange, find, forget, put, total};
use blob_pool::Pool;
use digest::Digest;
use instance_view::View;
use quota_evict::admit_draft;
use std::alloc::{AllocError, Global};

/// How many uploads an instance has at most.
pub const MOST_UPLOADS: usize = 64;

/// Bytes of an upload, and where they go (bytestream.proto, `write_offset` and `data`).
#[derive(Clone, Copy, Debug)]
pub struct Piece<'a> {
    pub offset: i64,
    pub bytes: &'a [u8],
}

fn is_at(offset: i64, place: u64) -> bool
    ensures { result ≡ writing.is_place offset place }
{
    offset >= 0 && offset as u64 == place
}

/// How many bytes of an upload there are so far.
fn committed(table: &Table, key: &UploadKey) -> u64
    ensures value { result ≡ length (text_so_far (key_shown key.now)
        (map entry_shown table.now.entries)) }
    ensures most { result ≤ MOST_BYTES }
{
    match find(table, key) {
        Some(upload) => upload.draft.length(),
        None => 0,
    }
}

/// Whether an upload of this size may be named at first.
fn check_begin(table: &Table, quota: u64, key: &UploadKey) -> Result<(), UploadError>
    ensures { result ≡ may_begin quota (key_shown key.now) (map entry_shown table.now.entries) }
{
    if key.digest().size > quota {
        return Err(UploadError::OverQuota);
    }
    if table.len() >= MOST_UPLOADS && find(table, key).is_none() {
        return Err(UploadError::TooMany);
    }
    Ok(())
}

/// Whether a piece may follow the text so far.
fn check_piece(
    table: &Table,
    quota: u64,
    key: &UploadKey,
    piece: &Piece<'_>,
) -> Result<(), UploadError>
    requires quota { quota ≤ most_stored_bytes }
    requires within { AreUploadsWithin quota (map entry_shown table.now.entries) }
    ensures { result ≡ piece_answer quota (key_shown key.now) (piece_shown piece.now)
        (map entry_shown table.now.entries) }
{
    let committed = committed(table, key);
    let length = piece.bytes.len() as u64;
    if !is_at(piece.offset, committed) {
        return Err(UploadError::Offset);
    }
    if committed + length > key.digest().size {
        return Err(UploadError::Size);
    }
    if total(table) + length > quota {
        return Err(UploadError::OverQuota);
    }
    Ok(())
}

/// Adds bytes to an upload, at this moment.
fn add(upload: &mut Upload, moment: u64, bytes: &[u8]) -> Result<(), AllocError>
    requires open { upload.old.draft.is_open ≡ true ⊎ length bytes.now ≡ 0 }
    requires most { length upload.old.draft.text + length bytes.now ≤ MOST_BYTES }
    ensures ok { OnOk result (upload_shown upload.new
        ≡ record { text = upload.old.draft.text ++ bytes.now; written = moment }) }
    ensures err { OnErr result (upload_shown upload.new ≡ upload_shown upload.old) }
    ensures open { upload.new.draft.is_open ≡ upload.old.draft.is_open }
{
    if !bytes.is_empty() {
        upload.draft.push(bytes)?;
    }
    upload.written = moment;
    Ok(())
}

/// Adds bytes to an upload, which begins with them where it is not there.
fn write(
    table: &mut Table,
    alloc: Global,
    moment: u64,
    key: &UploadKey,
    bytes: &[u8],
) -> Result<(), AllocError>
    requires fits { Fits (key_shown key.now) bytes.now (map entry_shown table.old.entries) }
    requires whole { AreWhole table.old.entries }
    ensures ok { OnOk result (map entry_shown table.new.entries
        ≡ with_upload (key_shown key.now)
        (record {
          text = text_so_far (key_shown key.now) (map entry_shown table.old.entries)
              ++ bytes.now;
          written = moment;
        }) (map entry_shown table.old.entries)) }
    ensures err { OnErr result (map entry_shown table.new.entries
        ≡ map entry_shown table.old.entries) }
    ensures whole { AreWhole table.new.entries }
{
    if find(table, key).is_none() {
        let mut upload = Upload::empty(alloc, key);
        add(&mut upload, moment, bytes)?;
        return put(table, key, upload);
    }
    let mut upload = exchange(table, key, Upload::empty(alloc, key));
    let added = add(&mut upload, moment, bytes);
    let _empty = exchange(table, key, upload);
    added
}

/// Carries out what a piece was answered.
fn carry_out(
    table: &mut Table,
    alloc: Global,
    moment: u64,
    key: &UploadKey,
    piece: &Piece<'_>,
    answer: Result<(), UploadError>,
) -> Result<(), UploadError>
    requires fits { OnOk answer (Fits (key_shown key.now) (piece_shown piece.now).bytes
        (map entry_shown table.old.entries)) }
    requires whole { AreWhole table.old.entries }
    ensures answer { Answers result answer }
    ensures uploads { map entry_shown table.new.entries
        ≡ after_piece moment (key_shown key.now) (piece_shown piece.now) result
        (map entry_shown table.old.entries) }
    ensures whole { AreWhole table.new.entries }
{
    match answer {
        Ok(()) => match write(table, alloc, moment, key, piece.bytes) {
            Ok(()) => Ok(()),
            Err(AllocError) => Err(UploadError::NoMemory),
        },
        Err(UploadError::Size) => {
            forget(table, key);
            Err(UploadError::Size)
        }
        Err(error) => Err(error),
    }
}

/// Whether a piece of a call, the first or a later one, may be added.
fn check(
    table: &Table,
    quota: u64,
    first: bool,
    key: &UploadKey,
    piece: &Piece<'_>,
) -> Result<(), UploadError>
    requires quota { quota ≤ most_stored_bytes }
    requires within { AreUploadsWithin quota (map entry_shown table.now.entries) }
    ensures { result ≡ call_answer first quota (key_shown key.now) (piece_shown piece.now)
        (map entry_shown table.now.entries) }
{
    if !first {
        if find(table, key).is_none() {
            return Err(UploadError::Offset);
        }
        return check_piece(table, quota, key, piece);
    }
    match check_begin(table, quota, key) {
        Ok(()) => check_piece(table, quota, key, piece),
        Err(error) => Err(error),
    }
}

/// A piece of a call, the first or a later one.
pub fn take_piece(
    table: &mut Table,
    alloc: Global,
    quota: u64,
    moment: u64,
    first: bool,
    key: &UploadKey,
    piece: &Piece<'_>,
) -> Result<(), UploadError>
    requires quota { quota ≤ most_stored_bytes }
    requires within { AreUploadsWithin quota (map entry_shown table.old.entries) }
    requires whole { AreWhole table.old.entries }
    ensures answer { Answers result (call_answer first quota (key_shown key.now)
        (piece_shown piece.now) (map entry_shown table.old.entries)) }
    ensures uploads { map entry_shown table.new.entries
        ≡ after_piece moment (key_shown key.now) (piece_shown piece.now) result
        (map entry_shown table.old.entries) }
    ensures whole { AreWhole table.new.entries }
{
    let answer = check(table, quota, first, key, piece);
    carry_out(table, alloc, moment, key, piece, answer)
}

/// Whether the digest names the text of an upload, to which nothing is then added.
fn is_named(upload: &mut Upload, digest: &Digest) -> bool
    ensures named { IsTrue result ↔ Names digest.now upload.old.draft.text }
    ensures shown { upload_shown upload.new ≡ upload_shown upload.old }
{
    upload.draft.names(digest)
}

/// The end of an upload, whose text is admitted where its digest names it.
pub fn finish(
    table: &mut Table,
    alloc: Global,
    quota: u64,
    view: &mut View,
    pool: &mut Pool,
    key: &UploadKey,
) -> Result<(), UploadError>
    requires quota { quota ≤ most_stored_bytes }
    requires kept { IsViewInPool quota pool.old view.old }
    requires within { AreUploadsWithin quota (map entry_shown table.old.entries) }
    requires there { IsSome (upload_at (key_shown key.now) (map entry_shown table.old.entries)) }
    requires whole { AreWhole table.old.entries }
    ensures answer { Answers result (finish_answer (key_shown key.now)
        (map entry_shown table.old.entries)) }
    ensures uploads { map entry_shown table.new.entries
        ≡ after_finish (key_shown key.now) result (map entry_shown table.old.entries) }
    ensures within { AreUploadsWithin quota (map entry_shown table.new.entries) }
    ensures whole { AreWhole table.new.entries }
    ensures admitted { OnOk result (visible_in pool.new view.new
        ≡ visible_after_admission view.old.limit quota (key_shown key.now).digest
        (text_so_far (key_shown key.now) (map entry_shown table.old.entries))
        (visible_in pool.old view.old)) }
    ensures err { OnErr result ((view.new ≡ view.old) × (pool.new ≡ pool.old)) }
    ensures moves { Moves pool.old pool.new (holders view.old) (holders view.new) }
    ensures kept { IsViewInPool quota pool.new view.new }
    ensures limit { view.new.limit ≡ view.old.limit }
{
    let mut upload = exchange(table, key, Upload::empty(alloc, key));
    if !is_named(&mut upload, &key.digest()) {
        forget(table, key);
        return Err(UploadError::Hash);
    }
    let Upload { draft, written } = upload;
    match admit_draft(view, pool, quota, &key.digest(), draft) {
        Ok(()) => {
            forget(table, key);
            Ok(())
        }
        Err((error, draft)) => {
            let _empty = exchange(table, key, Upload { draft, written });
            Err(error.into())
        }
    }
}
