//! What waits to be put, and the sources of ranges that are over.

ghost use Rattle.std.specs.Prelude.{◌≡◌, ◌≤◌, ◌<◌, ◌==◌, ◌^◌, ◌++◌, ◌∷◌, [], ℕ, List, None, IfOk, OnOk, OnErr, MatchOption, length, map, filter, not, if◌then◌else◌, vec_capacity};
ghost use Rattle.grpc_sending.specs.StoredSending.{Tells};
ghost use Rattle.grpc_sending.specs.SendingSteps.{Appends, stored_first_at, stored_front_at};
ghost use Rattle.grpc_sending.specs.SortedQueues.{AreSorted};
ghost use Rattle.grpc_sending.specs.Sources.{AreSame, source_of, sources_waiting};
ghost use Rattle.grpc_sending.specs.declared.piece.StoredPiece.TheVariants.{Ranged};

use crate::piece::StoredPiece;
use crate::queue::{self, Removal, StoredQueue};
use crate::range::Cursor;
use std::alloc::{AllocError, Global};
use std::marker::Model;

/// What is still to be put on the streams of a connection. The source of a range that is over is
/// spent, and is told once for it. No call but `push`, `push_range` and `spend` takes memory.
#[derive(Drop)]
pub(crate) struct Backlog {
    /// In rising order of their streams.
    queues: Vec<StoredQueue>,
    /// The sources of ranges that are over, which were not told yet.
    spent: Vec<usize>,
    /// How many sources there are, the spent ones with them. There is room for all of them in
    /// `spent`.
    sources: usize,
}

impl Model for Backlog {
    ghost use Rattle.std.specs.Prelude.{◌≤◌, ◌+◌, length, vec_capacity};
    ghost use Rattle.grpc_sending.specs.SortedQueues.{AreSorted};
    ghost use Rattle.grpc_sending.specs.Sources.{BacklogValue, HasRoomForSources};

    ghost Value = { BacklogValue };

    ghost view = { λ b. record { queues = b.queues.items; spent = b.spent.items } };

    ghost invariant = { λ b. HasRoomForSources b.queues.items b.spent.items b.sources
        × (b.sources ≤ vec_capacity b.spent) × AreSorted b.queues.items };
}

impl Backlog {
    pub(crate) fn new(alloc: Global) -> Backlog
        ensures { result ≡ record { queues = []; spent = [] } }
    {
        Backlog {
            queues: Vec::new(alloc),
            spent: Vec::new(alloc),
            sources: 0,
        }
    }

    pub(crate) fn allocator(&self) -> Global {
        *self.queues.allocator()
    }

    pub(crate) fn queues(&self) -> &[StoredQueue]
        ensures list { result.now ≡ self.now.queues }
        ensures sorted { AreSorted result.now }
    {
        &self.queues
    }

    /// The sources that it holds: of what is to be put on each stream in order, and behind them those
    /// that are spent and were not told yet. Each stands there as often as it is held.
    pub(crate) fn sources(&self) -> Result<Vec<usize>, AllocError>
        ensures { IfOk result (λ sources. sources.items ≡ sources_waiting self.now) }
    {
        let mut sources = Vec::new(self.allocator());
        queue::add_sources(&self.queues, &mut sources)?;
        sources.extend_from_slice(&self.spent)?;
        Ok(sources)
    }

    /// The first piece of the stream was put.
    pub(crate) fn remove_first(&mut self, stream: u32)
        ensures queues { self.new.queues ≡ map (stored_first_at stream) self.old.queues }
        ensures sources { AreSame (sources_waiting self.old) (sources_waiting self.new) }
    {
        queue::remove_on(
            &mut self.queues,
            stream,
            Removal::FirstPiece,
            &mut self.spent,
        );
    }

    /// Bytes of the first piece of the stream were put.
    pub(crate) fn take_off(&mut self, stream: u32, count: usize)
        ensures queues { self.new.queues ≡ map (stored_front_at stream count) self.old.queues }
        ensures sources { AreSame (sources_waiting self.old) (sources_waiting self.new) }
    {
        let front = Removal::FrontBytes(count);
        queue::remove_on(&mut self.queues, stream, front, &mut self.spent);
    }

    /// Nothing more is to be put on the stream.
    pub(crate) fn forget(&mut self, stream: u32)
        ensures queues { self.new.queues ≡ filter (λ q. not (q.stream == stream)) self.old.queues }
        ensures sources { AreSame (sources_waiting self.old) (sources_waiting self.new) }
    {
        queue::forget(&mut self.queues, stream, &mut self.spent);
    }

    /// Nothing more is to be put on any stream.
    pub(crate) fn forget_all(&mut self)
        ensures queues { self.new.queues ≡ [] }
        ensures sources { AreSame (sources_waiting self.old) (sources_waiting self.new) }
    {
        queue::forget_all(&mut self.queues, &mut self.spent);
    }

    /// Appends a piece with no source to what is to be put on the stream.
    pub(crate) fn push(&mut self, stream: u32, piece: StoredPiece) -> Result<(), AllocError>
        requires { source_of piece ≡ [] }
        ensures ok { OnOk result (Appends stream piece self.old.queues self.new.queues) }
        ensures sources { OnOk result (AreSame (sources_waiting self.old)
            (sources_waiting self.new)) }
        ensures err { OnErr result (self.new ≡ self.old) }
    {
        queue::push(&mut self.queues, stream, piece)
    }

    /// Appends a range to what is to be put on the stream.
    pub(crate) fn push_range(&mut self, stream: u32, range: Cursor) -> Result<(), AllocError>
        ensures ok { OnOk result (Appends stream (Ranged range) self.old.queues self.new.queues) }
        ensures sources { OnOk result (AreSame (range.source ∷ sources_waiting self.old)
            (sources_waiting self.new)) }
        ensures few { OnOk result (length (sources_waiting self.new) < 2 ^ 64) }
        ensures err { OnErr result (self.new ≡ self.old) }
    {
        make_room(&mut self.spent, self.sources)?;
        queue::push(&mut self.queues, stream, StoredPiece::Ranged(range))?;
        self.sources += 1;
        Ok(())
    }

    /// Takes a source of which nothing is to be put.
    pub(crate) fn spend(&mut self, source: usize) -> Result<(), AllocError>
        ensures ok { OnOk result (self.new
            ≡ record self.old { spent = self.old.spent ++ source ∷ [] }) }
        ensures few { OnOk result (length (sources_waiting self.new) < 2 ^ 64) }
        ensures err { OnErr result (self.new ≡ self.old) }
    {
        make_room(&mut self.spent, self.sources)?;
        self.spent.push(source).unwrap();
        self.sources += 1;
        Ok(())
    }

    /// Tells a source that is spent.
    pub(crate) fn pop_spent(&mut self) -> Option<usize>
        ensures queues { self.new.queues ≡ self.old.queues }
        ensures spent { Tells result self.old.spent self.new.spent }
        ensures none { result ≡ None → self.new ≡ self.old }
        ensures sorted { AreSorted self.new.queues }
    {
        let source = self.spent.pop()?;
        self.sources -= 1;
        Some(source)
    }
}

/// Makes room for one more than so many.
fn make_room(spent: &mut Vec<usize>, sources: usize) -> Result<(), AllocError>
    requires few { length spent.old.items ≤ sources }
    requires there { sources ≤ vec_capacity spent.old }
    ensures items { spent.new.items ≡ spent.old.items }
    ensures kept { vec_capacity spent.old ≤ vec_capacity spent.new }
    ensures room { OnOk result (sources < vec_capacity spent.new) }
{
    spent.reserve(sources - spent.len() + 1)
}
