//! What an operator is told when a server begins, and when it ends.

use crate::lines::tell_line;
use command_line::{Service, VERSION};
use serve::{ErrorLines, Tally};
use server_events::{Configs, InstanceConfig, Limits};
use std::alloc::{AllocError, Global};
use std::io::Write;
use std::net::SocketAddr;

/// Tells that the server begins, with which version, and how many instances it serves.
pub fn tell_begin<E: Write>(alloc: Global, configs: &Configs, lines: &mut ErrorLines<E>) {
    let count = configs.instances().len();
    tell_line(
        lines,
        format!(in alloc; "remoted: {VERSION} begins with {count} instances\n"),
    );
}

/// Tells of an instance, and on which address it is served.
pub fn tell_instance<E: Write>(
    alloc: Global,
    config: &InstanceConfig,
    address: SocketAddr,
    lines: &mut ErrorLines<E>,
) {
    let (name, quota, slots) = (&config.name, config.quota, config.slots);
    let line = match &config.parent {
        None => format!(in alloc; "remoted: {name}: {quota} bytes, {slots} slots, on {address}\n"),
        Some(parent) => format!(in alloc;
            "remoted: {name}: {quota} bytes, {slots} slots, on {address}, reads {parent}\n"
        ),
    };
    tell_line(lines, line);
}

/// Whether these are the numbers that instances have where none are chosen.
fn are_usual(limits: Limits) -> bool {
    let usual = Limits::usual();
    limits.blobs() == usual.blobs()
        && limits.results() == usual.results()
        && limits.result_bytes() == usual.result_bytes()
        && limits.window() == usual.window()
}

/// The line on the numbers of all instances.
fn numbers_line(alloc: Global, limits: Limits) -> Result<String, AllocError> {
    let (blobs, results) = (limits.blobs(), limits.results());
    let (bytes, window) = (limits.result_bytes(), limits.window());
    format!(in alloc;
        "remoted: each keeps {blobs} blobs, and {results} results of {bytes} bytes, and has windows \
         of {window} bytes\n"
    )
}

/// What starts the programs of actions.
fn programs_line(alloc: Global, launcher: Option<&str>) -> Result<String, AllocError> {
    match launcher {
        Some(program) => format!(in alloc; "remoted: programs are started by {program}\n"),
        None => format!(in alloc; "remoted: programs are started without a launcher\n"),
    }
}

/// Tells what was chosen for all instances: their limits, what starts programs, where the figures
/// are, and what ends jobs and the server.
pub fn tell_choices<E: Write>(
    alloc: Global,
    configs: &Configs,
    service: &Service<'_>,
    lines: &mut ErrorLines<E>,
) {
    if !are_usual(service.limits) {
        tell_line(lines, numbers_line(alloc, service.limits));
    }
    if configs.instances().iter().any(|config| config.slots > 0) {
        tell_line(lines, programs_line(alloc, service.launcher));
        if service.made_trees > 0 {
            let most = service.made_trees;
            tell_line(
                lines,
                format!(in alloc;
                    "remoted: each instance keeps made trees of {most} bytes at most\n"
                ),
            );
        }
    }
    if let Some(path) = service.metrics {
        tell_line(
            lines,
            format!(in alloc; "remoted: figures are written to {path}\n"),
        );
    }
    if let Some(path) = service.stop {
        tell_line(
            lines,
            format!(in alloc; "remoted: ends once {path} is there\n"),
        );
    }
    if let Some(path) = service.end {
        tell_line(
            lines,
            format!(in alloc; "remoted: jobs are ended by the lines of {path}\n"),
        );
    }
    if service.turns != u64::MAX {
        let turns = service.turns;
        tell_line(
            lines,
            format!(in alloc; "remoted: ends after {turns} turns at the latest\n"),
        );
    }
}

/// Tells after how many turns the server ends, where figures are written, and where these are all
/// that it may take.
pub fn tell_turns<E: Write>(
    alloc: Global,
    turns: u64,
    service: &Service<'_>,
    lines: &mut ErrorLines<E>,
) {
    if service.metrics.is_some() || turns >= service.turns {
        tell_line(
            lines,
            format!(in alloc; "remoted: ends after {turns} turns\n"),
        );
    }
}

/// Tells how many events were cut short, and how many lines were dropped, if any were.
pub fn tell_end<E: Write>(
    alloc: Global,
    served: Result<Tally, AllocError>,
    lines: &mut ErrorLines<E>,
) -> Result<(), AllocError> {
    let cut = served?.cut;
    if cut > 0 {
        let line = format!(in alloc; "remoted: cut short for want of memory: {cut}\n")?;
        lines.write_line(line.as_str());
    } else if lines.dropped() > 0 {
        lines.write_line("");
    }
    Ok(())
}
