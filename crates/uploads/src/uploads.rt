//! The unfinished uploads of an instance, as their callers see them.

ghost use Rattle.std.specs.Prelude.{◌≡◌, ◌≤◌, ℕ, [], IsSome, IfSome, OnOk, OnErr, length, option_map};
ghost use Rattle.blob_pool.specs.Moves.{Moves};
ghost use Rattle.blob_pool.specs.declared.text.TheConstants.{MOST_BYTES};
ghost use Rattle.instance_view.specs.Shown.{visible_in, holders};
ghost use Rattle.quota_evict.specs.Admission.{visible_after_admission};
ghost use Rattle.quota_evict.specs.InPool.{IsViewInPool};
ghost use Rattle.uploads.specs.Uploads.{upload_at, text_so_far, uploads_at, AreUploadsWithin};
ghost use Rattle.uploads.specs.Writing.{Answers, call_answer, finish_answer, after_piece, after_finish};
ghost use Rattle.uploads.specs.Shown.{key_shown, piece_shown};
ghost use Rattle.quota_evict.specs.Within.{most_stored_bytes};

use crate::error::UploadError;
use crate::key::UploadKey;
use crate::steps::{self, Piece};
use crate::table::{self, Table, find};
use blob_pool::Pool;
use instance_view::View;
use keyed_maps::MapKey;
use std::alloc::Global;
use std::marker::Model;

/// The unfinished uploads of an instance.
pub struct Uploads {
    table: Table,
}

// Written out, so that no crate above proves again that each part of it may be dropped.
impl Drop for Uploads {
    fn drop(self) {
        let Uploads { table } = self;
        drop(table);
    }
}

impl Model for Uploads {
    ghost use Rattle.std.specs.Prelude.{map};
    ghost use Rattle.uploads.specs.Uploads.{UploadList};
    ghost use Rattle.uploads.specs.Shown.{entry_shown, AreWhole};

    ghost Value = { UploadList };

    ghost view = { λ u. map entry_shown u.table.entries };

    ghost invariant = { λ u. AreWhole u.table.entries };
}

impl Uploads {
    /// No uploads. It takes no memory.
    pub fn new(alloc: Global, key: MapKey) -> Uploads
        ensures { result ≡ [] }
    {
        Uploads {
            table: Table::with_hasher(alloc, key),
        }
    }

    /// How many uploads there are.
    pub fn len(&self) -> usize
        ensures { result ≡ length self.now }
    {
        self.table.len()
    }

    /// How many bytes of an upload there are so far, where it is there.
    pub fn committed(&self, key: &UploadKey) -> Option<u64>
        ensures value { result ≡ option_map (λ upload. length upload.text)
            (upload_at (key_shown key.now) self.now) }
        ensures most { IfSome result (λ count. count ≤ MOST_BYTES) }
    {
        match find(&self.table, key) {
            Some(upload) => Some(upload.draft.length()),
            None => None,
        }
    }

    /// Takes a piece of a call: the first begins the upload where it is not there, and the upload
    /// of a later one may be gone. One that goes past the size forgets the upload; any other
    /// refusal, and want of memory, leaves the uploads as they were.
    pub fn take_piece(
        &mut self,
        alloc: Global,
        quota: u64,
        moment: u64,
        first: bool,
        key: &UploadKey,
        piece: &Piece<'_>,
    ) -> Result<(), UploadError>
        requires quota { quota ≤ most_stored_bytes }
        requires within { AreUploadsWithin quota self.old }
        ensures answer { Answers result (call_answer first quota (key_shown key.now)
            (piece_shown piece.now) self.old) }
        ensures uploads { self.new ≡ after_piece moment (key_shown key.now)
            (piece_shown piece.now) result self.old }
        ensures within { AreUploadsWithin quota self.new }
    {
        steps::take_piece(&mut self.table, alloc, quota, moment, first, key, piece)
    }

    /// Ends an upload. Where its digest names its text, the text is admitted to the instance's
    /// view; else it is refused. Either way the upload is forgotten. For want of memory everything
    /// stays as it was.
    pub fn finish(
        &mut self,
        alloc: Global,
        quota: u64,
        view: &mut View,
        pool: &mut Pool,
        key: &UploadKey,
    ) -> Result<(), UploadError>
        requires quota { quota ≤ most_stored_bytes }
        requires kept { IsViewInPool quota pool.old view.old }
        requires within { AreUploadsWithin quota self.old }
        requires there { IsSome (upload_at (key_shown key.now) self.old) }
        ensures answer { Answers result (finish_answer (key_shown key.now) self.old) }
        ensures uploads { self.new ≡ after_finish (key_shown key.now) result self.old }
        ensures within { AreUploadsWithin quota self.new }
        ensures admitted { OnOk result (visible_in pool.new view.new
            ≡ visible_after_admission view.old.limit quota (key_shown key.now).digest
            (text_so_far (key_shown key.now) self.old) (visible_in pool.old view.old)) }
        ensures err { OnErr result ((view.new ≡ view.old) × (pool.new ≡ pool.old)) }
        ensures moves { Moves pool.old pool.new (holders view.old) (holders view.new) }
        ensures kept { IsViewInPool quota pool.new view.new }
        ensures limit { view.new.limit ≡ view.old.limit }
    {
        steps::finish(&mut self.table, alloc, quota, view, pool, key)
    }

    /// Forgets the uploads that were last written to 600,000 or more milliseconds ago. It takes no
    /// memory.
    pub fn expire(&mut self, moment: u64)
        ensures left { self.new ≡ uploads_at moment self.old }
        ensures within { (quota : ℕ) → AreUploadsWithin quota self.old →
            AreUploadsWithin quota self.new }
    {
        table::expire(&mut self.table, moment);
    }
}
