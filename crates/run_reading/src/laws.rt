//! What holds of every run of an instance, and of its parent if it has one, by themselves.

ghost use Rattle.std.specs.Prelude.{◌≡◌, ◌++◌, ◌∷◌, [], ℕ, None, Some, List, map};
ghost use Rattle.std.specs.List.{AllByRecursion};
ghost use Rattle.instance_core.specs.Jobs.{IsWholeOrder};
ghost use Rattle.served_instance.specs.Lone.{sent_bytes_on};
ghost use Rattle.served_instance.specs.Narrow.{IsNarrow};
ghost use Rattle.server_events.specs.Configs.{ConfigValue, parent_of};
ghost use Rattle.server_events.specs.Events.{EventValue, LoneEvent};
ghost use Rattle.server_events.specs.Shown.{event_value};
ghost use Rattle.served_instance.specs.Refusals.{refusal_of};
ghost use Rattle.served_instance.specs.StandsFor.{AreSettled};
ghost use Rattle.server_core.specs.Families.{Family, FamilyEvent, AreLimited, event_in, family_events, family_in, own_event};
ghost use Rattle.server_core.specs.Runs.{run_of_family};
ghost use Rattle.server_core.specs.LoneOutput.{config_at, lone_output};
ghost use Rattle.run_reading.specs.Replies.{run_connections, run_given_items, run_state, AreConnectionsRead};
ghost use Rattle.instance_core.specs.NamedReplies.{ServesNamed};
ghost use Rattle.run_reading.specs.Named.{run_answered_events, GivesNamed};
ghost use Rattle.run_reading.specs.GivesWell.{GivesWell};
ghost use Rattle.run_reading.specs.ReadsBlob.{ReadsBlobsAskedFor};

use server_events::{Configs, Event, Outcome, What};

/// What each instance of a server gives in a run (`run`, server_core): its clients read the answers
/// of the instance to what they asked, each blob that it serves is named by the digest that was
/// asked for, what it orders to be run has what it needs, and behind each event that it accepts its
/// connections are settled. Nothing is supposed of configurations and events but their types.
pub fn what_a_run_gives(configs: &Configs, events: &[Event])
    ensures { (i : ℕ) (config : ConfigValue) → config_at i configs.now ≡ Some config
        → GivesWell (family_in configs.now config)
        (family_events i (parent_of configs.now config) (map event_value events.now)) }
{
    let _instances = configs.instances();
    statuses_are_narrow(events);
}

/// The status with which an event says that a run ended is one of 32 bits, as its type says.
pub fn statuses_are_narrow(events: &[Event])
    ensures { AllByRecursion (λ (e : EventValue). IsNarrow e.lone) (map event_value events.now) }
{
    let mut left = events;
    while let [event, rest @ ..] = left {
        status_is_narrow(event);
        left = rest;
    }
}

fn status_is_narrow(event: &Event)
    ensures { IsNarrow (event_value event.now).lone }
{
    if let What::Outcome(_, Outcome::Exited(exited)) = &event.what {
        let _code = exited.code;
    }
}

/// On each connection of a run the client reads what the streams were given: frames as they were
/// meant, HEADERS and DATA on live streams and within the windows, control frames that were caused,
/// and on each stream a beginning of the answers to its request, of which none is dropped while the
/// stream is open.
pub fn replies_are_read()
    ensures sent { (family : Family) (events : List FamilyEvent)
        → (lone_output family events).sent ≡ map sent_bytes_on (run_connections family events) }
    ensures read { (family : Family) (events : List FamilyEvent) → AreLimited family
        → AllByRecursion IsNarrow (map event_in events)
        → AreConnectionsRead family.own.limits.window 0 (run_given_items family events)
        (run_connections family events) }
{}

/// Each accepted event of a run leaves the instance's open connections settled: an error of the
/// connection was met, or as much is untaken as the pump puts, or each live stream waits for a
/// window or has nothing to put.
pub fn runs_are_settled()
    ensures { (family : Family) (events : List FamilyEvent) (e : LoneEvent)
        → refusal_of e (run_of_family family events).own.lone ≡ None
        → AreSettled (run_of_family family (events ++ own_event e ∷ [])).own.lone }
{}

/// The replies of a run are those that the instance gives to the events of its calls, one after
/// another, and to what happens to its jobs, from the state in which it was opened, each at its
/// moment and beside the texts that its parent has then: nothing else makes its state, but that
/// time passes.
pub fn replies_are_the_instances()
    ensures { (family : Family) (events : List FamilyEvent)
        → (run_of_family family events).own.lone.state ≡ run_state family events }
{}

/// Each blob that is served in a run is named by the digest that was asked for: the hash is its
/// SHA-256, or its SHA-512 where that is the digest's function, and the size its length. What a
/// Read is given is a range of the text that the instance sees under the digest in the resource
/// name, from read_offset on and at most read_limit bytes (bytestream.proto). A reply to
/// BatchReadBlobs has a response for each digest asked for, in order, and data with status OK are
/// what that digest says. A message of a reply to GetTree is a page of the tree whose root was
/// asked for, and each directory of it is what a digest of the tree's list names. A reply to
/// GetActionResult is the result that the instance itself has of the action, and each blob that it
/// names is there (remote_execution.proto).
pub fn blobs_served_are_named()
    ensures answers { (family : Family) (events : List FamilyEvent) → AreLimited family
        → AllByRecursion IsNarrow (map event_in events)
        → AllByRecursion ServesNamed (run_answered_events family events) }
    ensures streams { (family : Family) (events : List FamilyEvent) → AreLimited family
        → AllByRecursion IsNarrow (map event_in events)
        → AllByRecursion GivesNamed (run_given_items family events) }
    // What is ordered to be run has what it needs: each file of its plan is empty or has its text
    // there, and each text is what its digest says.
    ensures orders { (family : Family) (events : List FamilyEvent) → AreLimited family
        → AllByRecursion IsNarrow (map event_in events)
        → AllByRecursion (λ o. IsWholeOrder o.1) (lone_output family events).orders }
{}

/// From wire to wire: whoever sends a call of Read reads a beginning of a refusal, or of the bytes
/// that it asks for: those of a text that has the hash and the length of the digest in the resource
/// name, from read_offset on and at most read_limit of them (bytestream.proto). What was sent are
/// the frames that came on the connection, and what is read are those that were put there. It is so
/// on each connection whose number none had before it.
pub fn a_read_gives_its_blob()
    ensures { (family : Family) (events : List FamilyEvent) → AreLimited family
        → AllByRecursion IsNarrow (map event_in events) → ReadsBlobsAskedFor family events }
{}
