//! A whole run, event by event and at once.

ghost use Rattle.std.specs.Prelude.{◌≡◌, ◌+◌, ◌-◌, ◌^◌, ◌<◌, ◌==◌, ◌++◌, ℕ, List, [], ◌∷◌, All, Some, length, map, IfOk, OnOk, if◌then◌else◌};
ghost use Rattle.std.specs.List.{AllByRecursion};
ghost use Rattle.server_events.specs.Configs.{ConfigValue, parent_of};
ghost use Rattle.server_events.specs.Faults.{AreParents};
ghost use Rattle.server_events.specs.Events.{EventValue};
ghost use Rattle.server_events.specs.Shown.{event_value};
ghost use Rattle.instance_core.specs.State.{IsInstanceWithin};
ghost use Rattle.served_instance.specs.StandsFor.{IsServedWithin};
ghost use Rattle.server_core.specs.Families.{family_in, family_events};
ghost use Rattle.server_core.specs.Parents.{parent_texts};
ghost use Rattle.server_core.specs.Runs.{Run, new_run, run_of_family, run_step, output_of_run};
ghost use Rattle.server_core.specs.LoneOutput.{config_at, lone_output, strays, stray_at};
ghost use Rattle.server_core.specs.Shown.{output_at, parent_output_at};
ghost use Rattle.server_core.specs.Marked.{GivesRunOutput};
ghost use Rattle.server_core.specs.RunTo.{IsNotedAt, HasRun, HasGoneOn};
ghost use Rattle.server_core.specs.RunSoFar.{HasTaken, HasPassed};

use crate::outputs::InstanceOutput;
use crate::record::{ConnectionChange, InstanceRecord};
use crate::server::Server;
use keyed_maps::MapKey;
use served_instance::{Broken, EventRefusal};
use server_events::{Configs, Event};
use std::alloc::{AllocError, Global};
use std::marker::Model;

/// What a run gave.
#[derive(Drop)]
pub struct Outputs {
    /// By the instances' numbers.
    pub instances: Vec<InstanceOutput>,
    /// The places of the events that name no instance, among all events and counted from 1.
    pub strays: Vec<u64>,
}

/// A run of a server so far: the server, what it put and what it refused.
pub struct ServerRun {
    server: Server,
    records: Vec<InstanceRecord>,
    strays: Vec<u64>,
    count: u64,
}

// Written out, so that each exit of a function that owns it has one call in place of one for each
// part.
impl Drop for ServerRun {
    fn drop(self) {
        let ServerRun {
            server,
            records,
            strays,
            count: _,
        } = self;
        drop(server);
        drop(records);
        drop(strays);
    }
}

impl Model for ServerRun {
    ghost use Rattle.server_core.specs.RunSoFar.{RunValue, IsRunning};

    ghost Value = { RunValue };

    ghost view = { λ r. record {
      server = r.server;
      records = r.records.items;
      strays = r.strays.items;
      count = r.count;
    } };

    ghost invariant = { λ r. IsRunning (record {
      server = r.server;
      records = r.records.items;
      strays = r.strays.items;
      count = r.count;
    }) };
}

impl ServerRun {
    /// A run to which nothing has happened, with an instance for each configuration.
    pub fn new(alloc: Global, configs: &Configs) -> Result<ServerRun, AllocError>
        ensures { IfOk result (HasTaken configs.now []) }
    {
        let server = Server::new(alloc, MapKey::known(), configs)?;
        let records = new_records(alloc, configs.instances().len())?;
        Ok(ServerRun {
            server,
            records,
            strays: Vec::new(alloc),
            count: 0,
        })
    }

    /// The run after one more event, before which it had fewer than 2^64 - 1. An error is want of
    /// memory, for the event or for the record.
    pub fn step(self, event: Event) -> Result<ServerRun, AllocError>
        requires room { self.count < 2 ^ 64 - 1 }
        ensures { IfOk result (λ run. (configs : List ConfigValue) (events : List EventValue)
            → HasTaken configs events self
            → HasTaken configs (events ++ event_value event ∷ []) run) }
    {
        let ServerRun {
            mut server,
            mut records,
            mut strays,
            count,
        } = self;
        let count = count + 1;
        step_and_note(&mut server, &mut records, &mut strays, event, count)?;
        Ok(ServerRun {
            server,
            records,
            strays,
            count,
        })
    }

    /// The run after one more event, which may be refused for want of memory and is recorded so. An
    /// error is want of memory for the record.
    pub fn step_on(self, event: Event) -> Result<ServerRun, AllocError>
        requires room { self.count < 2 ^ 64 - 1 }
        ensures { IfOk result (λ run. (configs : List ConfigValue) (events : List EventValue)
            → HasPassed configs events self
            → HasPassed configs (events ++ event_value event ∷ []) run) }
    {
        let ServerRun {
            mut server,
            mut records,
            mut strays,
            count,
        } = self;
        let count = count + 1;
        step_on_and_note(&mut server, &mut records, &mut strays, event, count)?;
        Ok(ServerRun {
            server,
            records,
            strays,
            count,
        })
    }

    /// What the run gave. Each instance gives the very bytes on its connections, the orders and the
    /// refusals that it would give with its parent alone; where some of its events or of its
    /// parent's were refused for want of memory, those of a run in which just these were done in
    /// part.
    pub fn outputs(self, alloc: Global) -> Result<Outputs, AllocError>
        ensures alone { IfOk result (λ outputs. (configs : List ConfigValue)
            (events : List EventValue) → HasTaken configs events self
            → (i : ℕ) (config : ConfigValue) → config_at i configs ≡ Some config
            → output_at i outputs.instances.items
            ≡ Some (lone_output (family_in configs config)
            (family_events i (parent_of configs config) events))) }
        ensures may { IfOk result (λ outputs. (configs : List ConfigValue)
            (events : List EventValue) → HasPassed configs events self
            → (i : ℕ) (config : ConfigValue) → config_at i configs ≡ Some config
            → GivesRunOutput (family_in configs config)
            (family_events i (parent_of configs config) events)
            (output_at i outputs.instances.items)
            (parent_output_at (parent_of configs config) outputs.instances.items)) }
        // Each instance keeps its limits.
        ensures within { OnOk result ((configs : List ConfigValue)
            (events : List EventValue) → HasTaken configs events self
            → (i : ℕ) (config : ConfigValue) → config_at i configs ≡ Some config
            → IsInstanceWithin (run_of_family (family_in configs config)
            (family_events i (parent_of configs config) events)).own.lone.state) }
        ensures count { IfOk result (λ outputs. (configs : List ConfigValue)
            (events : List EventValue) → HasTaken configs events self
            → length outputs.instances.items ≡ length configs) }
        ensures may_count { IfOk result (λ outputs. (configs : List ConfigValue)
            (events : List EventValue) → HasPassed configs events self
            → length outputs.instances.items ≡ length configs) }
        ensures strays { IfOk result (λ outputs. (configs : List ConfigValue)
            (events : List EventValue) → HasTaken configs events self
            → outputs.strays.items ≡ strays configs events) }
        ensures may_strays { IfOk result (λ outputs. (configs : List ConfigValue)
            (events : List EventValue) → HasPassed configs events self
            → outputs.strays.items ≡ strays configs events) }
    {
        let ServerRun {
            server,
            records,
            strays,
            count: _,
        } = self;
        drop(server);
        let instances = outputs_of(alloc, records)?;
        Ok(Outputs { instances, strays })
    }
}

/// Runs a server through events. Each instance gives the very bytes on its connections, the orders
/// and the refusals that it would give with its parent alone: they are determined by the
/// configuration and the events of these two.
pub fn run(alloc: Global, configs: &Configs, events: Vec<Event>) -> Result<Outputs, AllocError>
    ensures alone { IfOk result (λ outputs. (i : ℕ) (config : ConfigValue)
        → config_at i configs.now ≡ Some config
        → output_at i outputs.instances.items
        ≡ Some (lone_output (family_in configs.now config)
        (family_events i (parent_of configs.now config) (map event_value events.items)))) }
    // Each instance keeps its limits: each of its texts is what its digest says.
    ensures within { OnOk result ((i : ℕ) (config : ConfigValue)
        → config_at i configs.now ≡ Some config
        → IsInstanceWithin (run_of_family (family_in configs.now config)
        (family_events i (parent_of configs.now config)
        (map event_value events.items))).own.lone.state) }
    ensures count { IfOk result (λ outputs. length outputs.instances.items ≡ length configs.now) }
    ensures strays { IfOk result (λ outputs. outputs.strays.items
        ≡ strays configs.now (map event_value events.items)) }
{
    let mut run = ServerRun::new(alloc, configs)?;
    for event in events {
        run = run.step(event)?;
    }
    run.outputs(alloc)
}

/// Runs a server through events, also past those that are refused for want of memory. What each
/// instance gives is a run of it and its parent by themselves, over the events of both, in which
/// just those that are recorded so, of it and of its parent, were done in part. An error is want of
/// memory for the new server or for the record.
pub fn run_on(alloc: Global, configs: &Configs, events: Vec<Event>) -> Result<Outputs, AllocError>
    ensures may { IfOk result (λ outputs. (i : ℕ) (config : ConfigValue)
        → config_at i configs.now ≡ Some config
        → GivesRunOutput (family_in configs.now config)
        (family_events i (parent_of configs.now config) (map event_value events.items))
        (output_at i outputs.instances.items)
        (parent_output_at (parent_of configs.now config) outputs.instances.items)) }
    ensures count { IfOk result (λ outputs. length outputs.instances.items ≡ length configs.now) }
    ensures strays { IfOk result (λ outputs. outputs.strays.items
        ≡ strays configs.now (map event_value events.items)) }
{
    let mut run = ServerRun::new(alloc, configs)?;
    for event in events {
        run = run.step_on(event)?;
    }
    run.outputs(alloc)
}

/// Gives the server the event of this place, and notes what came of it in the record of its
/// instance, or among the strays.
fn step_and_note(
    server: &mut Server,
    records: &mut [InstanceRecord],
    strays: &mut Vec<u64>,
    event: Event,
    place: u64,
) -> Result<(), AllocError>
    requires count { length records.old ≡ length server.old.instances }
    requires room { All (λ r. r.count < place) records.old }
    ensures count { OnOk result (length server.new.instances ≡ length server.old.instances) }
    ensures parents { server.new.parents ≡ server.old.parents }
    ensures room { OnOk result (All (λ r. r.count < place + 1) records.new) }
    ensures within { AllByRecursion IsServedWithin server.new.instances }
    ensures runs { OnOk result ((i : ℕ) (r : Run) → HasRun i server.old.instances records.old r
        → HasRun i server.new.instances records.new
        (if event.instance == i
        then run_step (parent_texts event.instance server.old) r (event_value event).lone
        else r)) }
    ensures strays { OnOk result (strays.new.items
        ≡ strays.old.items ++ stray_at place (length server.old.instances)
        (event_value event)) }
{
    let instance = event.instance;
    let change = ConnectionChange::made_by(&event.what);
    let outcome = server.step(event);
    if matches!(outcome, Err(EventRefusal::NoMemory)) {
        return Err(AllocError);
    }
    match server.instance_and_pool(instance) {
        None => {
            strays.push(place)?;
            Ok(())
        }
        Some((served, pool)) => records[instance as usize].note(served, pool, change, outcome),
    }
}

/// Gives the server the event of this place, and notes what came of it in the record of its
/// instance, or among the strays, also where memory was refused.
fn step_on_and_note(
    server: &mut Server,
    records: &mut [InstanceRecord],
    strays: &mut Vec<u64>,
    event: Event,
    place: u64,
) -> Result<(), AllocError>
    requires count { length records.old ≡ length server.old.instances }
    requires room { All (λ r. r.count < place) records.old }
    ensures count { OnOk result (length server.new.instances ≡ length server.old.instances) }
    ensures parents { server.new.parents ≡ server.old.parents }
    ensures room { OnOk result (All (λ r. r.count < place + 1) records.new) }
    ensures within { AllByRecursion IsServedWithin server.new.instances }
    ensures runs { OnOk result ((i : ℕ) (r : Run) → HasRun i server.old.instances records.old r
        → HasGoneOn (parent_texts event.instance server.old) (event_value event) r i
        server.new.instances records.new) }
    ensures strays { OnOk result (strays.new.items
        ≡ strays.old.items ++ stray_at place (length server.old.instances)
        (event_value event)) }
{
    let instance = event.instance;
    let change = ConnectionChange::made_by(&event.what);
    let broken = Broken::by(&event.what);
    let outcome = server.step(event);
    match server.instance_and_pool(instance) {
        None => {
            strays.push(place)?;
            Ok(())
        }
        Some((served, pool)) => {
            if matches!(outcome, Err(EventRefusal::NoMemory)) {
                return records[instance as usize].note_short(broken);
            }
            records[instance as usize].note(served, pool, change, outcome)
        }
    }
}

/// As many records, in which nothing was noted.
fn new_records(alloc: Global, count: usize) -> Result<Vec<InstanceRecord>, AllocError>
    ensures count { IfOk result (λ records. length records.items ≡ count) }
    ensures begun { IfOk result (λ records. (i : ℕ) → i < count → (config : ConfigValue)
        → IsNotedAt i records.items (new_run config)) }
    ensures room { IfOk result (λ records. All (λ r. r.count < 1) records.items) }
{
    let mut records = Vec::new(alloc);
    for _ in 0..count {
        records.push(InstanceRecord::new(alloc))?;
    }
    Ok(records)
}

fn outputs_of(
    alloc: Global,
    records: Vec<InstanceRecord>,
) -> Result<Vec<InstanceOutput>, AllocError>
    ensures count { IfOk result (λ outputs. length outputs.items ≡ length records.items) }
    ensures outputs { IfOk result (λ outputs. (i : ℕ) (r : Run) → IsNotedAt i records.items r
        → output_at i outputs.items ≡ Some (output_of_run r)) }
{
    let mut outputs = Vec::new(alloc);
    for record in records {
        outputs.push(record.output())?;
    }
    Ok(outputs)
}
