//! What the server is told, and the orders that it gives.

ghost use Rattle.std.specs.Prelude.{◌≡◌, ◌≢◌, ◌∷◌, [], Err, IfErr};
ghost use Rattle.served_instance.specs.Lone.{LoneInstance};
ghost use Rattle.served_instance.specs.Refusals.{IsRefusalOutcome, refusal_of};
ghost use Rattle.server_core.specs.Marked.{StandsShortAt};
ghost use Rattle.server_core.specs.Parents.{parent_texts};
ghost use Rattle.server_core.specs.StandsFor.{StandsAt};
ghost use Rattle.server_events.specs.Shown.{what_value};
ghost use Rattle.serve.specs.KeepsServing.{AreCarriedOut, TakesEvent, cut_after, is_for_memory};

use crate::counts::{Occurrence, ServeCounts};
use crate::runs::Runs;
use run_calls::RunKey;
use served_instance::{EventRefusal, Order};
use server_core::Server;
use server_events::{Event, What};

/// Carries out an order of an instance.
fn carry_out_one<R: Runs>(server: &Server, runs: &mut R, instance: u32, order: Order)
    ensures carried { AreCarriedOut instance server.now.instances (order ∷ [])
        (R.happened runs.old) (R.happened runs.new) }
    ensures no_fault { R.faulted runs.new ≡ R.faulted runs.old }
{
    match order {
        Order::Start { job } => {
            if let Some(task) = server.lend(instance, job) {
                runs.start(RunKey { instance, job }, task);
            }
        }
        Order::Kill { job } => runs.kill(RunKey { instance, job }),
    }
}

/// Carries out orders of an instance.
fn carry_out<R: Runs>(server: &Server, runs: &mut R, instance: u32, orders: &[Order])
    ensures carried { AreCarriedOut instance server.now.instances orders.now
        (R.happened runs.old) (R.happened runs.new) }
    ensures no_fault { R.faulted runs.new ≡ R.faulted runs.old }
{
    let mut left = orders;
    while let [first, rest @ ..] = left {
        let order = *first;
        carry_out_one(server, runs, instance, order);
        left = rest;
    }
}

/// A server, how many of its events were cut short, and what else is counted.
#[derive(Drop)]
pub(crate) struct Counting {
    pub(crate) server: Server,
    /// How many events were carried out in part, for want of memory; or 2^64 - 1 where it were
    /// more.
    pub(crate) cut: u64,
    /// For an operator alone: nothing else depends on it.
    pub(crate) counts: ServeCounts,
}

/// What an order does to a run.
fn occurrence_of(order: Order) -> Occurrence {
    match order {
        Order::Start { job: _ } => Occurrence::Started,
        Order::Kill { job: _ } => Occurrence::Killed,
    }
}

/// Counts the orders of an instance.
fn count_orders(counts: &mut ServeCounts, instance: u32, orders: &[Order]) {
    for order in orders {
        counts.add(instance, occurrence_of(*order));
    }
}

/// How many events were cut short, after one more that was refused.
fn cut_with(cut: u64, refusal: EventRefusal) -> u64
    ensures { result ≡ cut_after cut (is_for_memory refusal) }
{
    match refusal {
        EventRefusal::NoMemory => cut.saturating_add(1),
        _ => cut,
    }
}

/// What is counted of what happens: that a connection is opened, or how a run ended.
fn occurrence_in(what: &What) -> Option<Occurrence> {
    match what {
        What::Open(_) => Some(Occurrence::Opened),
        What::Outcome(_, outcome) => Some(Occurrence::of_outcome(outcome)),
        _ => None,
    }
}

/// Counts an event that was refused: it was cut short, or its client was refused.
fn count_refusal(
    counts: &mut ServeCounts,
    instance: u32,
    occurrence: Option<Occurrence>,
    refusal: EventRefusal,
) {
    if refusal == EventRefusal::NoMemory {
        counts.add(instance, Occurrence::Cut);
    }
    if occurrence == Some(Occurrence::Opened) {
        counts.add(instance, Occurrence::of_refusal(refusal));
    }
}

/// Counts what happened, and the orders of the instance.
fn count_accepted(
    counts: &mut ServeCounts,
    instance: u32,
    occurrence: Option<Occurrence>,
    orders: &[Order],
) {
    if let Some(occurrence) = occurrence {
        counts.add(instance, occurrence);
    }
    count_orders(counts, instance, orders);
}

/// Tells the server what happens to an instance, and carries out what the instance orders. Where
/// memory is refused for bytes that came, their connection is gone, and where it is refused as time
/// goes on, or for an outcome, all are.
pub(crate) fn tell<R: Runs>(
    counting: &mut Counting,
    runs: &mut R,
    moment: u64,
    instance: u32,
    what: What,
) -> Result<(), EventRefusal>
    ensures takes { TakesEvent
        (record { instance = instance; lone = record { moment = moment; what = what_value what } })
        counting.old counting.new (R.happened runs.old) (R.happened runs.new) }
    ensures no_fault { R.faulted runs.new ≡ R.faulted runs.old }
    // Each refusal has its reason, and but for want of memory changes nothing; where memory is
    // refused a part was done.
    ensures outcome { (l : LoneInstance) → StandsAt instance counting.old.server.instances l
        → IsRefusalOutcome result
        (refusal_of (record { moment = moment; what = what_value what }) l) }
    ensures refused { IfErr result (λ refusal. refusal ≢ EventRefusal.NoMemory
        → counting.new.server ≡ counting.old.server) }
    ensures short { result ≡ Err EventRefusal.NoMemory → (l : LoneInstance)
        → StandsAt instance counting.old.server.instances l
        → StandsShortAt instance (parent_texts instance counting.old.server)
        (record { moment = moment; what = what_value what }) l counting.new.server.instances }
{
    let occurrence = occurrence_in(&what);
    let event = Event {
        moment,
        instance,
        what,
    };
    match counting.server.step(event) {
        Ok(orders) => {
            carry_out(&counting.server, runs, instance, &orders);
            count_accepted(&mut counting.counts, instance, occurrence, &orders);
            Ok(())
        }
        Err(refusal) => {
            counting.cut = cut_with(counting.cut, refusal);
            count_refusal(&mut counting.counts, instance, occurrence, refusal);
            Err(refusal)
        }
    }
}
