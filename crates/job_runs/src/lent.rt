//! Texts that are lent to a run.

ghost use Rattle.std.specs.Prelude.{◌≡◌, ◌+◌, ◌<◌, ◌^◌, [], Some, length};
ghost use Rattle.std.specs.Option.{option_copied};
ghost use Rattle.blob_pool.specs.Slots.{text_at};
ghost use Rattle.instance_view.specs.Shown.{blobs_in};
ghost use Rattle.execution.specs.Keeping.{kept_entries};
ghost use Rattle.run_calls.specs.Texts.{IsPart};
ghost use Rattle.job_runs.specs.Texts.{lent_in, numbered_text};

use blob_pool::{Kept, Pool};
use execution::KeptText;
use run_calls::Texts;
use std::marker::Model;

/// The texts that a job keeps, lent while its run goes on: each with its digest, in their order.
#[derive(Drop)]
pub struct LentTexts<'a> {
    pool: Option<&'a Pool>,
    texts: &'a [KeptText],
}

impl<'a> Model for LentTexts<'a> {
    ghost use Rattle.std.specs.Prelude.{List};
    ghost use Rattle.std.specs.Option.{option_copied};
    ghost use Rattle.instance_view.specs.Visible.{Blob};
    ghost use Rattle.job_runs.specs.Texts.{lent_in};

    ghost Value = { List Blob };

    ghost view = { λ lent. lent_in (option_copied lent.pool) lent.texts.now };
}

impl<'a> LentTexts<'a> {
    /// The texts of a task, in the pool in which it keeps them.
    pub fn new(pool: &'a Pool, texts: &'a [KeptText]) -> LentTexts<'a>
        ensures { result ≡ blobs_in pool.now (kept_entries texts.now) }
    {
        LentTexts {
            pool: Some(pool),
            texts,
        }
    }

    /// No texts, for a run that is only to be ended.
    pub fn none() -> LentTexts<'a>
        ensures { result ≡ [] }
    {
        LentTexts {
            pool: None,
            texts: &[],
        }
    }
}

impl<'a> Texts for LentTexts<'a> {
    ghost use Rattle.job_runs.specs.Texts.{numbered_text};

    ghost text_of = { numbered_text };

    fn part(&self, text: usize, from: u64, most: u32) -> &[u8] {
        lent_part(self.pool, self.texts, text, from, most)
    }
}

/// Bytes of the text of a number from a place on.
fn lent_part<'a>(
    pool: Option<&'a Pool>,
    texts: &'a [KeptText],
    number: usize,
    from: u64,
    most: u32,
) -> &'a [u8]
    ensures part { IsPart (numbered_text (lent_in (option_copied pool.entry) texts.now) number)
        from most result.now }
    ensures bound { from + length result.now < 2 ^ 64 }
{
    let Some(pool) = pool else {
        return &[];
    };
    match texts.get(number) {
        Some(kept) => part_of(pool, kept.text, from, most),
        None => &[],
    }
}

/// Bytes of a text from a place on, as they lie in one piece.
fn part_of<'a>(pool: &'a Pool, text: Kept, from: u64, most: u32) -> &'a [u8]
    ensures part { IsPart (text_at pool.now text) from most result.now }
    ensures bound { from + length result.now < 2 ^ 64 }
{
    if pool.length(text) <= from {
        return &[];
    }
    pool.part(text, from, most)
}
