//! The uploads by their keys.

ghost use Rattle.std.specs.Prelude.{◌≡◌, ◌≤◌, ◌<◌, ◌+◌, ◌^◌, ◌++◌, ◌↔◌, [], Some, true, false, map, length, is_some, IsTrue, IsSome, IfSome, OnOk, OnErr, option_map};
ghost use Rattle.std.specs.List.{sum_by, filter};
ghost use Rattle.std.specs.Option.{option_copied};
ghost use Rattle.keyed_maps.specs.IndexMap.{values};
ghost use Rattle.digest.specs.Naming.{Names, same_digest, digest_of};
ghost use Rattle.uploads.specs.Uploads.{uploads_length, upload_at, with_upload, without_upload, text_so_far, uploads_at};
ghost use Rattle.uploads.specs.Shown.{key_shown, upload_shown, entry_shown, IsWhole, AreWhole};

use crate::key::UploadKey;
use blob_pool::Draft;
use keyed_maps::KeyedMap;
use std::alloc::{AllocError, Global};
use std::mem;

/// The milliseconds after which an upload that was not written to is forgotten.
pub const UPLOAD_AGE: u64 = 600_000;

/// An upload's text so far, and the moment of its last write.
#[derive(Drop)]
pub struct Upload {
    pub draft: Draft,
    pub written: u64,
}

pub type Table = KeyedMap<UploadKey, Upload>;

impl Upload {
    /// An upload of a key without bytes. It takes no memory.
    pub fn empty(alloc: Global, key: &UploadKey) -> Upload
        ensures shown { upload_shown result ≡ record { text = []; written = 0 } }
        ensures open { result.draft.is_open ≡ true }
    {
        Upload {
            draft: Draft::new(alloc, key.digest().function()),
            written: 0,
        }
    }
}

/// The upload of a key.
pub fn find<'a>(table: &'a Table, key: &UploadKey) -> Option<&'a Upload>
    ensures { option_map upload_shown (option_copied result)
        ≡ upload_at (key_shown key.now) (map entry_shown table.now.entries) }
{
    table.get(key)
}

fn sum_of_lengths(table: &Table) -> u64
    requires { sum_by (λ upload. length upload.draft.text) (values table.now) < 2 ^ 64 }
    ensures { result ≡ sum_by (λ upload. length upload.draft.text) (values table.now) }
{
    table.values().map(|upload| upload.draft.length()).sum()
}

/// How many bytes all uploads have together.
pub fn total(table: &Table) -> u64
    requires { uploads_length (map entry_shown table.now.entries) < 2 ^ 64 }
    ensures { result ≡ uploads_length (map entry_shown table.now.entries) }
{
    sum_of_lengths(table)
}

/// Takes out an upload. The others keep their order.
pub fn forget(table: &mut Table, key: &UploadKey)
    requires whole { AreWhole table.old.entries }
    ensures forgotten { map entry_shown table.new.entries
        ≡ without_upload (key_shown key.now) (map entry_shown table.old.entries) }
    ensures whole { AreWhole table.new.entries }
{
    table.shift_remove(key);
}

/// Takes out the uploads that were not written to for long.
pub fn expire(table: &mut Table, moment: u64)
    requires whole { AreWhole table.old.entries }
    ensures left { map entry_shown table.new.entries
        ≡ uploads_at moment (map entry_shown table.old.entries) }
    ensures whole { AreWhole table.new.entries }
{
    table.retain(|_key, upload| moment.saturating_sub(upload.written) < UPLOAD_AGE);
}

/// Puts an upload behind all others, or in the place of the one of its key.
pub fn put(table: &mut Table, key: &UploadKey, upload: Upload) -> Result<(), AllocError>
    requires whole { IsWhole (key.now, upload) }
    requires all_whole { AreWhole table.old.entries }
    ensures ok { OnOk result (map entry_shown table.new.entries
        ≡ with_upload (key_shown key.now) (upload_shown upload)
        (map entry_shown table.old.entries)) }
    ensures err { OnErr result (map entry_shown table.new.entries
        ≡ map entry_shown table.old.entries) }
    ensures whole { AreWhole table.new.entries }
{
    table.insert(*key, upload)?;
    Ok(())
}

/// Puts an upload in the place of the one of its key, and gives that one back. It takes no memory.
pub fn exchange(table: &mut Table, key: &UploadKey, upload: Upload) -> Upload
    requires there { IsSome (upload_at (key_shown key.now) (map entry_shown table.old.entries)) }
    requires whole { IsWhole (key.now, upload) }
    requires all_whole { AreWhole table.old.entries }
    ensures old { upload_at (key_shown key.now) (map entry_shown table.old.entries)
        ≡ Some (upload_shown result) }
    ensures new { map entry_shown table.new.entries
        ≡ with_upload (key_shown key.now) (upload_shown upload)
        (map entry_shown table.old.entries) }
    ensures whole { IsWhole (key.now, result) }
    ensures all_whole { AreWhole table.new.entries }
{
    let replaced: Result<_, _> = table.insert(*key, upload);
    let old = replaced.unwrap();
    old.unwrap()
}
