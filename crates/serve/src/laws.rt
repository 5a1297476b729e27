//! What follows from the definitions alone.

ghost use Rattle.std.specs.Prelude.{◌≡◌, ◌++◌, ◌∷◌, ℕ, Bool, List, Option, map};
ghost use Rattle.serve.specs.FaultLines.{ToldFault, TellsFaults, WritesWholeLines};
ghost use Rattle.serve.specs.declared.error_lines.Backlog.{Backlog};
ghost use Rattle.server_events.specs.Configs.{ConfigValue};
ghost use Rattle.server_core.specs.Families.{Family};
ghost use Rattle.server_core.specs.LoneOutput.{lone_output};
ghost use Rattle.server_core.specs.Marked.{IsRun, event_of};
ghost use Rattle.server_core.specs.Runs.{Run, FamilyRun, new_family_run, output_of_run};
ghost use Rattle.serve.specs.Closed.{WasClosed};
ghost use Rattle.serve.specs.Happenings.{MarkedHappening, at_sockets, cuts};
ghost use Rattle.serve.specs.SocketEvents.{port, shut};
ghost use Rattle.serve.specs.Served.{IsServed};
ghost use Rattle.serve.specs.Did.{Did, AllDid, AreFronts, marked_from, written_by};

/// Why a connection was closed, as `serve` promises it of what happened: behind all that happened
/// before, its instance had come to something by which it might be closed. What is asked is what
/// happened at this instance's own port, when, and what the instance has come to; nothing else.
pub fn why_connections_are_closed()
    ensures { (configs : List ConfigValue) (h : List MarkedHappening) → IsServed configs h
        → (i c : ℕ) (marked : Bool) (before after : List MarkedHappening)
        → h ≡ before ++ (at_sockets (port i (shut c)), marked) ∷ after
        → WasClosed configs i c before }
{}

/// What a server did, as `serve` promises it of what happened: each instance has a run, which goes
/// by its own events and by those of its parent alone, beside the parent's run, which is one and the
/// same for all that build on it. In it just the marked events were done in part. What is written on
/// a connection is each time what waits there in this run, and the orders that the run gives were
/// carried out, in order.
pub fn what_serve_did()
    ensures did { (configs : List ConfigValue) (h : List MarkedHappening) → IsServed configs h
        → (runs : List Run) × AllDid configs h runs }
    // It is a run as those of `run_on`.
    ensures came { (family : Family) (i : ℕ) (p : Option ℕ) (h : List MarkedHappening)
        (run : FamilyRun) → Did family i p h run
        → IsRun (new_family_run family) (marked_from i p 0 h) run }
    // Where no event is marked, it is the run that `run` gives.
    ensures alone { (family : Family) (i : ℕ) (p : Option ℕ) (h : List MarkedHappening)
        (run : FamilyRun) → cuts h ≡ 0 → Did family i p h run
        → output_of_run run.own ≡ lone_output family (map event_of (marked_from i p 0 h)) }
    // On each connection, in order of acceptance, a front of what the run puts there was written.
    ensures sent { (family : Family) (i : ℕ) (p : Option ℕ) (h : List MarkedHappening)
        (run : FamilyRun) → Did family i p h run
        → AreFronts (written_by i h) (output_of_run run.own).sent }
{}

/// Whatever faults are told, what is written are whole lines, one behind another: each says that
/// the run of one of these faults failed, and why, or how many lines were dropped.
pub fn faults_are_told_by_whole_lines()
    ensures { (configs : List ConfigValue) (told : List ToldFault) (before after : Option (List ℕ))
        (old new : Backlog) → TellsFaults configs told before old after new
        → WritesWholeLines configs told before old after new }
{}
