//! What befell runs, for an operator alone: nothing else depends on it.

use run_calls::{Exited, Output, OutputKind, OutputNode, OutputNodeKind, RunKey};
use runner::RunFault;
use server_events::Configs;
use std::alloc::{AllocError, Global};
use std::cell::Cell;

/// How many faults there are.
pub const FAULTS: usize = 6;

/// Their words, as lines about runs have them, in the order of their counts.
pub const FAULT_WORDS: [&str; FAULTS] = [
    "folder",
    "start",
    "launcher",
    "too large",
    "memory",
    "left",
];

/// The place of a fault among these.
fn place_of(fault: RunFault) -> usize {
    match fault {
        RunFault::Folder => 0,
        RunFault::Start => 1,
        RunFault::Launcher => 2,
        RunFault::TooLarge => 3,
        RunFault::NoMemory => 4,
        RunFault::Left => 5,
    }
}

/// How many bytes the files have that stand in an output directory.
fn bytes_of_nodes(nodes: &[OutputNode]) -> u64 {
    let mut bytes: u64 = 0;
    for node in nodes.iter() {
        if let OutputNodeKind::File { content, .. } = &node.kind {
            bytes = bytes.saturating_add(content.length());
        }
    }
    bytes
}

/// How many bytes an output has.
fn bytes_of_output(output: &Output) -> u64 {
    match &output.kind {
        OutputKind::File { content, .. } => content.length(),
        OutputKind::Tree { nodes } => bytes_of_nodes(nodes),
    }
}

/// How many bytes a run gave, together: as outputs, and as what it wrote.
fn bytes_of_run(exited: &Exited) -> u64 {
    let streams = [&exited.streams.stdout, &exited.streams.stderr];
    let mut bytes: u64 = 0;
    for stream in streams {
        bytes = bytes.saturating_add(stream.length());
    }
    for output in exited.outputs.iter() {
        bytes = bytes.saturating_add(bytes_of_output(output));
    }
    bytes
}

/// What befell runs of an instance.
#[derive(Clone, Copy, Debug, PartialEq, Eq)]
pub struct RunTally {
    /// Those whose job an operator ended.
    pub ended: u64,
    /// Those that came to a fault, at its place.
    pub faults: [u64; FAULTS],
    /// Those that gave more bytes than the quota.
    pub over_quota: u64,
}

/// What befell runs of each instance. A count stays at 2^64 - 1 where it were more.
#[derive(Drop)]
pub struct RunCounts {
    instances: Vec<Cell<RunTally>>,
    quotas: Vec<u64>,
}

impl RunCounts {
    /// None yet, of these instances.
    pub fn new(alloc: Global, configs: &Configs) -> Result<RunCounts, AllocError> {
        let (mut instances, mut quotas) = (Vec::new(alloc), Vec::new(alloc));
        for config in configs.instances() {
            instances.push(Cell::new(RunTally {
                ended: 0,
                faults: [0; FAULTS],
                over_quota: 0,
            }))?;
            quotas.push(config.quota)?;
        }
        Ok(RunCounts { instances, quotas })
    }

    /// Those of an instance, if there is one of that number.
    pub fn of(&self, instance: u32) -> Option<RunTally> {
        let counts = self.instances.get(instance as usize)?;
        Some(counts.get())
    }

    /// A run came to a fault.
    pub(crate) fn add_fault(&self, run: RunKey, fault: RunFault) {
        if let Some(counts) = self.instances.get(run.instance as usize) {
            let mut tally = counts.get();
            if let Some(count) = tally.faults.get_mut(place_of(fault)) {
                *count = count.saturating_add(1);
            }
            counts.set(tally);
        }
    }

    /// A run failed whose job an operator ended.
    pub(crate) fn add_ended(&self, run: RunKey) {
        if let Some(counts) = self.instances.get(run.instance as usize) {
            let mut tally = counts.get();
            tally.ended = tally.ended.saturating_add(1);
            counts.set(tally);
        }
    }

    /// A run came to its end. It is counted where it gave more bytes than the quota.
    pub(crate) fn add_exited(&self, run: RunKey, exited: &Exited) {
        let place = run.instance as usize;
        let (Some(counts), Some(quota)) = (self.instances.get(place), self.quotas.get(place)) else {
            return;
        };
        if bytes_of_run(exited) > *quota {
            let mut tally = counts.get();
            tally.over_quota = tally.over_quota.saturating_add(1);
            counts.set(tally);
        }
    }
}
