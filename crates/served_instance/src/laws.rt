//! What follows from the definitions alone.

ghost use Rattle.std.specs.Prelude.{◌≡◌, ℕ, List};
ghost use Rattle.job_queue.specs.Jobs.{jobs_without};
ghost use Rattle.run_calls.specs.Outcomes.{OutcomeValue};
ghost use Rattle.instance_core.specs.Room.{LosesForRoom};
ghost use Rattle.instance_core.specs.State.{IsInstanceWithin};
ghost use Rattle.instance_core.specs.Visible.{Blob};
ghost use Rattle.server_events.specs.Events.{LoneEvent, ended};
ghost use Rattle.served_instance.specs.Lone.{LoneInstance, lone_at_moment};
ghost use Rattle.served_instance.specs.Losses.{IsNoOutcome, KeepsJobs, LosesByRules, events_of};
ghost use Rattle.served_instance.specs.Room.{touched_at};
ghost use Rattle.served_instance.specs.Short.{Short};

/// An event that was refused for want of memory loses blobs, results and uploads only as any event
/// does: of the calls that it brings those of a front were answered, and of the next a front of its
/// changes was made; and each of these is by rule.
pub fn want_of_memory_loses_by_rules()
    ensures { (parent : List Blob) (e : LoneEvent) (l m : LoneInstance) → Short parent e l m
        → LosesByRules (events_of e.what (lone_at_moment e.moment parent l))
        (lone_at_moment e.moment parent l).state m.state }
{}

/// No job is started, timed out or lost by an event that was refused for want of memory, but the
/// one whose outcome it brought. Jobs that its bytes asked for may wait behind the others.
pub fn want_of_memory_keeps_jobs()
    ensures kept { (parent : List Blob) (e : LoneEvent) (l m : LoneInstance)
        → IsNoOutcome e.what → Short parent e l m → KeepsJobs l.state.jobs m.state.jobs }
    ensures outcome { (parent : List Blob) (e : LoneEvent) (l m : LoneInstance) (job : ℕ)
        (outcome : OutcomeValue) → e.what ≡ ended job outcome → Short parent e l m
        → m.state.jobs ≡ jobs_without job l.state.jobs }
{}

/// An event that was refused for want of memory loses a blob only as any event does: it stood
/// behind others, each of which stood before it already or was used or admitted by the calls that
/// the event brings, or left by the run that it tells of; and these have more bytes together with
/// it than the quota, or are more than its limits allow.
pub fn want_of_memory_loses_blobs_for_room()
    ensures { (parent : List Blob) (e : LoneEvent) (l m : LoneInstance) → IsInstanceWithin l.state
        → Short parent e l m
        → LosesForRoom l.state.limits.blobs l.state.quota
        (touched_at e.what (lone_at_moment e.moment parent l)) l.state.visible m.state.visible }
{}
