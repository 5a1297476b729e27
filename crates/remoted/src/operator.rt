//! What an operator is told of a server while it serves, and how it is ended.

use crate::clock::unix_time;
use crate::ending::EndFile;
use crate::process::{processor_milliseconds, status};
use crate::standard_error::StandardError;
use crate::watching::{MetricsFile, StopFile};
use command_line::Service;
use figures::{Figures, FolderFigures, HostCounts, ProcessFigures, resident_of};
use host_sockets::{HostSockets, SocketCounts};
use host_wires::{ThisHost, TurnClock};
use job_runs::{Oversight, RunTally};
use made_trees::TreeCounts;
use operator_lines::{Notices, tell_begin, tell_choices, tell_instance, tell_turns};
use serve::{ErrorLines, Sight, Watch};
use server_events::Configs;
use std::alloc::{AllocError, Global};
use std::io;
use std::time::Instant;
use work_folders::FolderCounts;

/// How often there may be lines of one kind about one instance, in milliseconds.
const NOTICES: u64 = 1_000;

/// What is counted beside the server: folders, made trees, jobs that were ended, and what the
/// system refuses.
#[derive(Drop)]
pub struct Counts {
    pub folders: FolderCounts,
    pub trees: TreeCounts,
    pub oversight: Oversight,
    pub sockets: SocketCounts,
}

impl Counts {
    /// Nothing yet, of these instances.
    pub fn new(alloc: Global, configs: &Configs) -> Result<Counts, AllocError> {
        let count = configs.instances().len();
        Ok(Counts {
            folders: FolderCounts::new(alloc, count)?,
            trees: TreeCounts::new(alloc, count)?,
            oversight: Oversight::new(alloc, configs)?,
            sockets: SocketCounts::new(),
        })
    }
}

/// The same, and turns.
#[derive(Clone, Copy)]
pub struct Counters<'a> {
    pub counts: &'a Counts,
    pub turns: &'a TurnClock,
}

impl HostCounts for Counters<'_> {
    fn folders(&self, instance: u32) -> FolderFigures {
        let folders = &self.counts.folders;
        FolderFigures {
            left: folders.left(instance),
            held: folders.held(instance),
            links: folders.links(instance),
            last_with_links: folders.last_with_links(instance),
        }
    }

    fn all_links(&self) -> u64 {
        self.counts.folders.all_links()
    }

    fn trees(&self) -> &TreeCounts {
        &self.counts.trees
    }

    fn runs(&self, instance: u32) -> Option<RunTally> {
        self.counts.oversight.counts.of(instance)
    }

    fn unaccepted(&self) -> u64 {
        self.counts.sockets.unaccepted()
    }

    fn unaccepted_reason(&self) -> io::Error {
        self.counts.sockets.reason()
    }

    fn turn_began(&self) -> Option<Instant> {
        self.turns.began()
    }

    fn has_read(&self) -> bool {
        !self.turns.read().is_empty()
    }

    fn has_read_at(&self, instance: u32) -> bool {
        self.turns.read().has(instance as usize)
    }
}

/// Whoever watches a server for its operator.
#[derive(Drop)]
pub struct Operator<'a> {
    rt: &'a HostRuntime,
    configs: &'a Configs,
    counters: Counters<'a>,
    metrics: Option<MetricsFile<'a>>,
    stop: Option<StopFile<'a>>,
    end: Option<EndFile<'a>>,
    notices: Notices,
    lines: ErrorLines<StandardError>,
    figures: Figures,
    /// When it was looked for notices last.
    noticed: u64,
}

impl<'a> Operator<'a> {
    pub fn new(
        rt: &'a HostRuntime,
        configs: &'a Configs,
        counters: Counters<'a>,
        metrics: Option<MetricsFile<'a>>,
        stop: Option<StopFile<'a>>,
        end: Option<EndFile<'a>>,
    ) -> Result<Operator<'a>, AllocError> {
        let count = configs.instances().len();
        Ok(Operator {
            rt,
            configs,
            counters,
            metrics,
            stop,
            end,
            notices: Notices::new(rt.alloc(), count)?,
            lines: ErrorLines::new(rt.alloc(), StandardError::new(rt), count)?,
            figures: Figures::new(rt.alloc(), count, unix_time(rt), Instant::now(rt).ok())?,
            noticed: 0,
        })
    }

    /// Tells that the server begins, with which version, and then of what it serves: each instance
    /// with its limits and its address, where the figures are, and what ends it.
    pub fn tell_start(&mut self, sockets: &HostSockets<'_, ThisHost<'_>>, service: &Service<'_>) {
        let (alloc, lines) = (self.rt.alloc(), &mut self.lines);
        tell_begin(alloc, self.configs, lines);
        for (number, config) in self.configs.instances().iter().enumerate() {
            if let Some(address) = sockets.address(number as u32) {
                tell_instance(alloc, config, address, lines);
            }
        }
        tell_choices(alloc, self.configs, service, lines);
    }

    /// Tells that the server ends, where figures are written, and where it took all the turns that
    /// it may.
    pub fn tell_end(&mut self, service: &Service<'_>) {
        let turns = self.figures.turns().count();
        tell_turns(self.rt.alloc(), turns, service, &mut self.lines);
    }

    /// Writes the file of figures, where it is due.
    fn write_figures(&mut self, sight: &Sight<'_>) {
        let Some(metrics) = &mut self.metrics else {
            return;
        };
        if !metrics.is_due(sight.moment) {
            return;
        }
        let process = ProcessFigures {
            resident: status(self.rt).and_then(|text| resident_of(text.as_str())),
            processor_milliseconds: processor_milliseconds(),
        };
        let (alloc, path) = (self.rt.alloc(), metrics.path());
        let text = self
            .figures
            .text(alloc, self.configs, sight, &self.counters, process, path);
        // Where memory is refused the file stays as it is until the next time.
        if let Ok(text) = text {
            if let Some(line) = metrics.write(&text, sight.moment) {
                self.lines.write_line(line.as_str());
            }
        }
    }

    /// Has jobs ended where the operator wants that, and tells of it, line by line.
    fn end_jobs(&mut self, sight: &Sight<'_>) {
        let Some(end) = &mut self.end else {
            return;
        };
        for line in end.look(sight).iter() {
            self.lines.write_line(line.as_str());
        }
    }

    /// Tells what an operator should know, once a second.
    fn tell_notices(&mut self, sight: &Sight<'_>) {
        if sight.moment.saturating_sub(self.noticed) < NOTICES {
            return;
        }
        self.noticed = sight.moment;
        self.notices.tell(
            self.rt.alloc(),
            self.configs,
            (sight, self.figures.turns()),
            &self.counters,
            &mut self.lines,
        );
    }
}

impl Watch for Operator<'_> {
    fn look(&mut self, sight: &Sight<'_>) -> bool {
        let now = Instant::now(self.rt).ok();
        self.figures.add_turn(now, sight, &self.counters);
        self.notices.note_links(sight, &self.counters);
        self.end_jobs(sight);
        self.tell_notices(sight);
        self.write_figures(sight);
        match &mut self.stop {
            Some(stop) => !stop.ends(sight.moment),
            None => true,
        }
    }
}
