//! What follows from the definitions alone.

ghost use Rattle.std.specs.Prelude.{◌≡◌, ◌≢◌, ◌++◌, ℕ, List, Option, None, Some, IfSome, map, option_map};
ghost use Rattle.std.specs.List.{AllByRecursion, flat_map};
ghost use Rattle.execution.specs.Job.{TaskValue};
ghost use Rattle.execution.specs.Orders.{task_of};
ghost use Rattle.instance_core.specs.State.{IsInstanceWithin};
ghost use Rattle.server_events.specs.Configs.{ConfigValue, parent_of};
ghost use Rattle.server_events.specs.Events.{EventValue, own_events};
ghost use Rattle.served_instance.specs.Narrow.{IsNarrow};
ghost use Rattle.served_instance.specs.Lone.{LoneInstance};
ghost use Rattle.server_core.specs.Families.{Family, FamilyEvent, AreLimited, without_parent, event_in, family_events, family_in};
ghost use Rattle.server_core.specs.LoneOutput.{config_at, lone_output};
ghost use Rattle.server_core.specs.Runs.{FamilyRun, run_of, run_of_family, output_of_run};
ghost use Rattle.server_core.specs.Outputs.{InstanceOutputValue};
ghost use Rattle.server_core.specs.Marked.{MarkedEvent, IsRun, IsRunOutput, IsNotForMemory};
ghost use Rattle.server_core.specs.StandsFor.{ServerState, AllStand};
ghost use Rattle.server_core.specs.Stored.{texts_held, lone_texts};

/// No instance learns anything of another but its parent, nor which place it has among them. Two
/// servers may have any instances, to which anything happens: where in each an instance and its
/// parent are configured alike, and the same happens to these two at the same moments and in the
/// same order, it gives equal bytes on each connection, equal orders and equal refusals.
pub fn equal_events_give_equal_outputs()
    ensures outputs { (these those : List ConfigValue) (i j : ℕ) (this that : ConfigValue)
        (events others : List EventValue) → config_at i these ≡ Some this
        → config_at j those ≡ Some that → family_in these this ≡ family_in those that
        → family_events i (parent_of these this) events
        ≡ family_events j (parent_of those that) others
        → lone_output (family_in these this) (family_events i (parent_of these this) events)
        ≡ lone_output (family_in those that) (family_events j (parent_of those that) others) }
    // .. so also its state, from which all later answers follow.
    ensures state { (this that : Family) (events others : List FamilyEvent) → this ≡ that
        → events ≡ others → run_of_family this events ≡ run_of_family that others }
{}

/// An instance that builds on no other gives what its own configuration and its own events alone
/// determine.
pub fn without_a_parent_it_is_by_itself()
    ensures { (config : ConfigValue) (i : ℕ) (events : List EventValue)
        → lone_output (without_parent config) (family_events i None events)
        ≡ output_of_run (run_of config (own_events i events)) }
{}

/// Nothing that happens to an instance reaches the one that it builds on: in a run of both the
/// parent comes as far as by its own events alone.
pub fn a_parent_is_by_itself()
    ensures { (family : Family) (i p : ℕ) (events : List EventValue) → p ≢ i
        → (run_of_family family (family_events i (Some p) events)).parent
        ≡ option_map (λ config. run_of config (own_events p events)) family.parent }
{}

/// An instance keeps its limits through every run of it and its parent. So its texts never have
/// more bytes together than its quota, nor have its unfinished uploads, of which there are 64 at
/// most; it has no more blobs and results of actions, and no more bytes of these results, than were
/// chosen for it; no more jobs run than it has slots, and at most 1,000 wait; and each text is what
/// its digest says: the hash is the text's, by SHA-256 or by SHA-512 as its length says, and the
/// size its length. Exit codes of runs are numbers of 32 bits.
pub fn a_run_keeps_its_limits()
    ensures { (family : Family) (events : List FamilyEvent) → AreLimited family
        → AllByRecursion IsNarrow (map event_in events)
        → IsInstanceWithin (run_of_family family events).own.lone.state }
{}

/// A job keeps its task as long as it runs: whatever happens to an instance and to its parent
/// between two moments at which a job of a number runs, that number has the same task at both. So
/// all that a run is lent is of one task.
pub fn a_job_keeps_its_task()
    ensures run { (family : Family) (earlier later : List FamilyEvent) (n : ℕ)
        (task other : TaskValue) → AreLimited family
        → AllByRecursion IsNarrow (map event_in earlier)
        → task_of n (run_of_family family earlier).own.lone.state.jobs ≡ Some task
        → task_of n (run_of_family family (earlier ++ later)).own.lone.state.jobs ≡ Some other
        → other ≡ task }
    // .. so also where some of these events were done in part, for want of memory.
    ensures refused { (before after : FamilyRun) (events : List MarkedEvent) (n : ℕ)
        (task other : TaskValue) → IsInstanceWithin before.own.lone.state
        → IsRun before events after → task_of n before.own.lone.state.jobs ≡ Some task
        → task_of n after.own.lone.state.jobs ≡ Some other → other ≡ task }
{}

/// Where none of an instance's events and none of its parent's is recorded as refused for want of
/// memory, it gives what it gives with its parent alone, whatever others met.
pub fn without_refusals_of_memory_it_is_alone()
    ensures { (family : Family) (events : List FamilyEvent) (output : InstanceOutputValue)
        (parent : Option InstanceOutputValue) → IsRunOutput family events output parent
        → AllByRecursion IsNotForMemory output.refusals
        → IfSome parent (λ p. AllByRecursion IsNotForMemory p.refusals)
        → output ≡ lone_output family events }
{}

/// What the instances of a server hold is what each has by itself: the texts of its blobs, those
/// that its jobs keep which wait or run, and one for each Read of which a message is not wholly
/// put, on a live stream of an open connection of which no error was met; and nothing else.
pub fn what_is_held_is_what_instances_have()
    ensures { (s : ServerState) (ls : List LoneInstance) → AllStand s.instances ls
        → texts_held s ≡ flat_map lone_texts ls }
{}
