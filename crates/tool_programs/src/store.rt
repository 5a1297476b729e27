//! An instance with its texts, as a script fills and asks it.

ghost use Rattle.std.specs.Prelude.{◌≡◌, ◌≤◌, ◌^◌, ℕ, List, [], OnOk, OnErr, IfOk};
ghost use Rattle.script.specs.LimitsShown.{limits_value};
ghost use Rattle.script.specs.UnaryShown.{instance_value};
ghost use Rattle.cas_service.specs.Answers.{Answers, IfAnswered};
ghost use Rattle.cas_service.specs.Changes.{visible_after_changes};
ghost use Rattle.digest.specs.Naming.{digest_of};
ghost use Rattle.instance_view.specs.Shown.{visible_in};
ghost use Rattle.quota_evict.specs.Admission.{visible_after_admission};
ghost use Rattle.quota_evict.specs.InPool.{IsViewInPool};
ghost use Rattle.tool_programs.specs.Session.{new_store, reply_from_store, changes_by, is_refused, store_after_put, store_after_call};
ghost use Rattle.quota_evict.specs.Within.{most_stored_bytes};

use blob_pool::Pool;
use cas_service::{CallError, batch_read, batch_update, find_missing};
use digest::Digest;
use instance_view::{View, Work};
use keyed_maps::MapKey;
use quota_evict::{AdmitError, admit};
use script::Limits;
use script::unary::{Instance, Method};
use std::alloc::{AllocError, Global};
use std::marker::Model;

/// The texts of an instance that builds on no other.
#[derive(Drop)]
struct Texts {
    pool: Pool,
    view: View,
    /// The texts of no instance.
    nobody: View,
}

/// An instance with its texts, in a pool of its own.
#[derive(Drop)]
pub struct Store {
    name: String,
    quota: u64,
    texts: Texts,
}

impl Model for Store {
    ghost use Rattle.std.specs.Prelude.{◌≡◌, ◌≤◌, ◌^◌, [], string_bytes};
    ghost use Rattle.quota_evict.specs.Within.{most_stored_bytes};
    ghost use Rattle.instance_view.specs.Shown.{visible_in};
    ghost use Rattle.quota_evict.specs.InPool.{IsViewInPool};
    ghost use Rattle.tool_programs.specs.Session.{StoreValue};

    ghost Value = { StoreValue };

    ghost view = { λ s. record {
      name = string_bytes s.name;
      quota = s.quota;
      limit = s.texts.view.limit;
      visible = visible_in s.texts.pool s.texts.view;
    } };

    ghost invariant = { λ s. (s.quota ≤ most_stored_bytes)
        × IsViewInPool s.quota s.texts.pool s.texts.view
        × (s.texts.nobody.entries ≡ []) };
}

impl Store {
    /// An instance for which these limits were chosen, and that has no texts yet.
    pub fn open(alloc: Global, limits: Limits, instance: &Instance) -> Result<Store, AllocError>
        requires { instance.now.quota ≤ most_stored_bytes }
        ensures { IfOk result (λ store.
            store ≡ new_store (limits_value limits) (instance_value instance.now)) }
    {
        let name = String::from_str(alloc, &instance.name)?;
        let view = View::new(alloc, MapKey::known(), limits.blobs() as usize)?;
        let nobody = View::new(alloc, MapKey::known(), 1)?;
        Ok(Store {
            name,
            quota: instance.quota,
            texts: Texts {
                pool: Pool::new(alloc, MapKey::known()),
                view,
                nobody,
            },
        })
    }

    /// Stores bytes under their digest, and says whether they are refused, being longer than the
    /// quota.
    pub fn put(&mut self, bytes: &[u8]) -> Result<bool, AllocError>
        ensures refused { IfOk result (λ refused. refused
            ≡ is_refused self.old.quota self.old.visible bytes.now) }
        ensures stored { OnOk result (self.new ≡ store_after_put bytes.now self.old) }
        ensures err { OnErr result (self.new ≡ self.old) }
    {
        put(
            &mut self.texts.view,
            &mut self.texts.pool,
            self.quota,
            bytes,
        )
    }

    /// Answers a call.
    pub fn call(
        &mut self,
        alloc: Global,
        method: Method,
        message: &[u8],
    ) -> Result<Vec<u8>, CallError>
        ensures reply { Answers (λ reply. reply.items) result
            (reply_from_store method self.old message.now) }
        ensures called { IfAnswered result
            (self.new ≡ store_after_call method message.now self.old) }
    {
        call(
            alloc,
            &self.name,
            self.quota,
            &mut self.texts,
            method,
            message,
        )
    }
}

/// Stores bytes under their digest within a quota, and says whether they are refused.
fn put(view: &mut View, pool: &mut Pool, quota: u64, bytes: &[u8]) -> Result<bool, AllocError>
    requires quota { quota ≤ most_stored_bytes }
    requires kept { IsViewInPool quota pool.old view.old }
    ensures refused { IfOk result (λ refused. refused
        ≡ is_refused quota (visible_in pool.old view.old) bytes.now) }
    ensures stored { OnOk result (visible_in pool.new view.new
        ≡ visible_after_admission view.old.limit quota (digest_of bytes.now) bytes.now
        (visible_in pool.old view.old)) }
    ensures err { OnErr result ((view.new ≡ view.old) × (pool.new ≡ pool.old)) }
    ensures kept { IsViewInPool quota pool.new view.new }
    ensures limit { view.new.limit ≡ view.old.limit }
{
    match admit(view, pool, quota, &Digest::of(bytes), bytes) {
        Ok(()) => Ok(false),
        Err(AdmitError::TooLarge) => Ok(true),
        Err(AdmitError::NoMemory) => Err(AllocError),
    }
}

/// Answers a call on the texts of the instance of that name and quota.
fn call(
    alloc: Global,
    own: &str,
    quota: u64,
    texts: &mut Texts,
    method: Method,
    message: &[u8],
) -> Result<Vec<u8>, CallError>
    requires quota { quota ≤ most_stored_bytes }
    requires kept { IsViewInPool quota texts.old.pool texts.old.view }
    requires nobody { texts.old.nobody.entries ≡ [] }
    ensures reply { let visible = visible_in texts.old.pool texts.old.view in
        let limit = texts.old.view.limit in
        Answers (λ reply. reply.items) result (reply_from_store method
        (record { name = own.now; quota = quota; limit = limit; visible = visible })
        message.now) }
    ensures called { let visible = visible_in texts.old.pool texts.old.view in
        let limit = texts.old.view.limit in
        IfAnswered result (visible_in texts.new.pool texts.new.view
        ≡ visible_after_changes limit quota (changes_by method
        (record { name = own.now; quota = quota; limit = limit; visible = visible })
        message.now) visible) }
    ensures kept { IsViewInPool quota texts.new.pool texts.new.view }
    ensures limit { texts.new.view.limit ≡ texts.old.view.limit }
    ensures nobody { texts.new.nobody.entries ≡ [] }
{
    let Texts { pool, view, nobody } = texts;
    let mut work = Work::new();
    match method {
        Method::FindMissingBlobs => find_missing(alloc, own, view, nobody, message, &mut work),
        Method::BatchUpdateBlobs => batch_update(alloc, own, quota, view, pool, message),
        Method::BatchReadBlobs => batch_read(alloc, own, view, nobody, pool, message),
    }
}
