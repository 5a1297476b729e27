//! The figures of an instance. Each is written down here, once: its name, what is said of it, and
//! its number.

use crate::host_counts::HostCounts;
use crate::job_times::{JobTime, JobTimes};
use crate::jobs::abandoned_jobs;
use crate::prometheus::{Kind, Label, Metrics, Value};
use crate::refusals::{CAUSES, REFUSALS};
use crate::tree_figures::tree_metrics;
use crate::turns::Turns;
use instance_core::{CallCounts, Instance, InstanceSizes, MethodCounts};
use job_runs::{FAULT_WORDS, RunTally};
use rpc::Method;
use serve::{InstanceCounts, Sight};
use std::alloc::{AllocError, Global};

/// How many methods there are.
pub(crate) const METHOD_COUNT: usize = 12;

/// The methods, with their names.
pub(crate) const METHODS: [(Method, &str); METHOD_COUNT] = [
    (Method::GetActionResult, "GetActionResult"),
    (Method::UpdateActionResult, "UpdateActionResult"),
    (Method::FindMissingBlobs, "FindMissingBlobs"),
    (Method::BatchUpdateBlobs, "BatchUpdateBlobs"),
    (Method::BatchReadBlobs, "BatchReadBlobs"),
    (Method::GetTree, "GetTree"),
    (Method::Read, "Read"),
    (Method::Write, "Write"),
    (Method::QueryWriteStatus, "QueryWriteStatus"),
    (Method::Execute, "Execute"),
    (Method::WaitExecution, "WaitExecution"),
    (Method::GetCapabilities, "GetCapabilities"),
];

/// The gRPC status codes, by their numbers.
const STATUSES: [&str; 17] = [
    "OK",
    "CANCELLED",
    "UNKNOWN",
    "INVALID_ARGUMENT",
    "DEADLINE_EXCEEDED",
    "NOT_FOUND",
    "ALREADY_EXISTS",
    "PERMISSION_DENIED",
    "RESOURCE_EXHAUSTED",
    "FAILED_PRECONDITION",
    "ABORTED",
    "OUT_OF_RANGE",
    "UNIMPLEMENTED",
    "INTERNAL",
    "UNAVAILABLE",
    "DATA_LOSS",
    "UNAUTHENTICATED",
];

/// The places of some of them.
const OK: usize = 0;

const NOT_FOUND: usize = 5;

pub(crate) const RESOURCE_EXHAUSTED: usize = 8;

/// The error codes of HTTP/2, by their numbers.
pub const ERROR_CODES: [&str; 14] = [
    "NO_ERROR",
    "PROTOCOL_ERROR",
    "INTERNAL_ERROR",
    "FLOW_CONTROL_ERROR",
    "SETTINGS_TIMEOUT",
    "STREAM_CLOSED",
    "FRAME_SIZE_ERROR",
    "REFUSED_STREAM",
    "CANCEL",
    "COMPRESSION_ERROR",
    "CONNECT_ERROR",
    "ENHANCE_YOUR_CALM",
    "INADEQUATE_SECURITY",
    "HTTP_1_1_REQUIRED",
];

/// What stands of an instance now, beside its limits, and what was dropped for these.
fn store_metrics(metrics: &mut Metrics<'_>, instance: &Instance) -> Result<(), AllocError> {
    let (sizes, limits) = (instance.sizes(), instance.limits());
    let (blobs, results) = (sizes.blobs as u64, sizes.results as u64);
    metrics.gauge("remoted_blobs", "Blobs that are stored.", blobs)?;
    metrics.gauge(
        "remoted_blobs_limit",
        "The most blobs that are stored.",
        limits.blobs(),
    )?;
    metrics.gauge(
        "remoted_blob_bytes",
        "Bytes of the blobs that are stored.",
        sizes.bytes,
    )?;
    metrics.gauge(
        "remoted_quota_bytes",
        "The most bytes of blobs that are stored.",
        sizes.quota,
    )?;
    let uploads = sizes.uploads as u64;
    metrics.gauge(
        "remoted_uploads",
        "Uploads that are not finished; 64 at most.",
        uploads,
    )?;
    metrics.gauge(
        "remoted_results",
        "Results of actions that are kept.",
        results,
    )?;
    metrics.gauge(
        "remoted_results_limit",
        "The most results that are kept.",
        limits.results(),
    )?;
    let most = limits.result_bytes();
    metrics.gauge(
        "remoted_result_bytes_limit",
        "The most bytes of results that are kept.",
        most,
    )?;
    drop_metrics(metrics, &sizes)
}

fn drop_metrics(metrics: &mut Metrics<'_>, sizes: &InstanceSizes) -> Result<(), AllocError> {
    metrics.counter(
        "remoted_results_dropped_number_total",
        "Results that the limit of results drove out.",
        sizes.dropped_results.for_number,
    )?;
    metrics.counter(
        "remoted_results_dropped_bytes_total",
        "Results that the limit of their bytes drove out.",
        sizes.dropped_results.for_bytes,
    )?;
    metrics.counter(
        "remoted_blobs_dropped_total",
        "Blobs that were driven out by newer ones.",
        sizes.dropped.count,
    )?;
    metrics.counter(
        "remoted_blobs_dropped_number_total",
        "Blobs that the limit of blobs drove out, and not the quota.",
        sizes.dropped.for_number,
    )?;
    metrics.one(
        Kind::Gauge,
        "remoted_blob_dropped_age_seconds",
        "Seconds since the last use of the youngest blob of those driven out last, in two minutes.",
        Value::Milliseconds(sizes.dropped.youngest_age),
    )
}

/// What its Reads alone hold.
fn read_metrics(metrics: &mut Metrics<'_>, held: u128) -> Result<(), AllocError> {
    let bytes = u64::try_from(held).unwrap_or(u64::MAX);
    metrics.gauge(
        "remoted_read_bytes_held",
        "Bytes of texts that this instance's Reads hold, and nobody else, until they are answered.",
        bytes,
    )
}

fn connection_metrics(
    metrics: &mut Metrics<'_>,
    open: usize,
    counts: &InstanceCounts,
) -> Result<(), AllocError> {
    metrics.gauge(
        "remoted_connections",
        "Connections that are open; 64 at most.",
        open as u64,
    )?;
    metrics.counter(
        "remoted_connections_opened_total",
        "Connections that were opened.",
        counts.opened,
    )?;
    metrics.counter(
        "remoted_connections_refused_total",
        "Clients that were refused, as 64 were connected.",
        counts.refused,
    )?;
    metrics.counter(
        "remoted_connections_closed_silent_total",
        "Connections that were closed, as nothing came for long.",
        counts.silent,
    )?;
    metrics.counter(
        "remoted_connections_closed_memory_total",
        "Connections that were closed, or refused, for want of memory.",
        counts.broken.saturating_add(counts.refused_for_memory),
    )?;
    metrics.counter(
        "remoted_connections_closed_client_total",
        "Connections that the client closed.",
        counts.gone,
    )
}

fn hit_metrics(metrics: &mut Metrics<'_>, counts: &CallCounts) -> Result<(), AllocError> {
    let found = counts.of(Method::GetActionResult);
    metrics.counter(
        "remoted_action_cache_hits_total",
        "Calls of GetActionResult that found a result.",
        found.ended[OK],
    )?;
    metrics.counter(
        "remoted_action_cache_misses_total",
        "Calls of GetActionResult that found none.",
        found.ended[NOT_FOUND],
    )?;
    metrics.counter(
        "remoted_execute_hits_total",
        "Calls of Execute that were answered at once: by a stored result, or a fault.",
        counts.executions_from_cache,
    )?;
    metrics.counter(
        "remoted_execute_queued_total",
        "Calls of Execute whose action went into the queue.",
        counts.executions_queued,
    )
}

fn job_metrics(
    metrics: &mut Metrics<'_>,
    sizes: &InstanceSizes,
    time: JobTime,
    folders_left: u64,
) -> Result<(), AllocError> {
    metrics.gauge(
        "remoted_jobs_waiting",
        "Actions that wait; 1000 at most.",
        sizes.waiting as u64,
    )?;
    metrics.gauge(
        "remoted_jobs_running",
        "Actions that run.",
        sizes.running as u64,
    )?;
    metrics.one(
        Kind::Counter,
        "remoted_jobs_waited_seconds_total",
        "How long actions have waited, together.",
        Value::Milliseconds(time.waited),
    )?;
    metrics.one(
        Kind::Counter,
        "remoted_jobs_ran_seconds_total",
        "How long actions have run, together.",
        Value::Milliseconds(time.ran),
    )?;
    metrics.gauge(
        "remoted_folders_left",
        "Folders of actions that are still to be removed; at 64 no other action begins.",
        folders_left,
    )
}

pub(crate) fn label(name: &'static str, value: &'static str) -> Label<'static> {
    Label { name, value }
}

fn fault_metrics(metrics: &mut Metrics<'_>, counts: &InstanceCounts) -> Result<(), AllocError> {
    metrics.family(
        Kind::Counter,
        "remoted_connections_closed_fault_total",
        "Connections that were closed for a fault, by its HTTP/2 error code.",
    )?;
    for (code, count) in ERROR_CODES.iter().zip(counts.faulty.iter()) {
        if *count > 0 {
            metrics.sample(&[label("code", *code)], Value::Whole(*count))?;
        }
    }
    Ok(())
}

/// The methods of which each figure stands, also where none was called. So a rate of them is known
/// from the start.
const ALWAYS: [Method; 4] = [
    Method::GetActionResult,
    Method::Execute,
    Method::Read,
    Method::Write,
];

fn always_stands(method: Method) -> bool {
    ALWAYS.contains(&method)
}

/// The methods of which refusals stand, also where there was none: the first is a rise then.
const REFUSED: [Method; 2] = [Method::Execute, Method::Write];

/// Whether there is a sample of how often calls of a method ended with the status of this code.
fn stands(method: Method, code: usize, count: u64) -> bool {
    match code {
        OK => count > 0 || always_stands(method),
        RESOURCE_EXHAUSTED => count > 0 || REFUSED.contains(&method),
        _ => count > 0,
    }
}

fn was_called(counts: &MethodCounts) -> bool {
    counts.bytes_received > 0
        || counts.bytes_sent > 0
        || counts.ended.iter().any(|count| *count > 0)
}

fn call_metrics(metrics: &mut Metrics<'_>, counts: &CallCounts) -> Result<(), AllocError> {
    metrics.family(
        Kind::Counter,
        "remoted_calls_total",
        "Calls that ended, by method and gRPC status.",
    )?;
    for (method, name) in METHODS {
        let statuses = STATUSES.iter().zip(counts.of(method).ended.iter());
        for (code, (status, count)) in statuses.enumerate() {
            if stands(method, code, *count) {
                let labels = [label("method", name), label("status", *status)];
                metrics.sample(&labels, Value::Whole(*count))?;
            }
        }
    }
    Ok(())
}

/// Which way bytes went.
#[derive(Clone, Copy)]
enum Way {
    Received,
    Sent,
}

fn byte_metrics(
    metrics: &mut Metrics<'_>,
    counts: &CallCounts,
    way: Way,
) -> Result<(), AllocError> {
    for (method, name) in METHODS {
        let counts = counts.of(method);
        if was_called(counts) || always_stands(method) {
            let bytes = match way {
                Way::Received => counts.bytes_received,
                Way::Sent => counts.bytes_sent,
            };
            metrics.sample(&[label("method", name)], Value::Whole(bytes))?;
        }
    }
    Ok(())
}

fn both_ways(metrics: &mut Metrics<'_>, counts: &CallCounts) -> Result<(), AllocError> {
    metrics.family(
        Kind::Counter,
        "remoted_received_bytes_total",
        "Bytes of messages that clients sent, by method.",
    )?;
    byte_metrics(metrics, counts, Way::Received)?;
    metrics.family(
        Kind::Counter,
        "remoted_sent_bytes_total",
        "Bytes of messages that clients were sent, by method.",
    )?;
    byte_metrics(metrics, counts, Way::Sent)
}

/// How an instance's actions ended. Each of these has a sample.
fn ending_metrics(metrics: &mut Metrics<'_>, counts: &InstanceCounts) -> Result<(), AllocError> {
    metrics.family(
        Kind::Counter,
        "remoted_jobs_ended_total",
        "Actions that ended, by how they did.",
    )?;
    let endings = [
        ("succeeded", counts.succeeded),
        ("failed", counts.failed),
        ("timed_out", counts.killed),
        ("not_run", counts.not_run),
    ];
    for (how, count) in endings {
        metrics.sample(&[label("how", how)], Value::Whole(count))?;
    }
    Ok(())
}

/// What a limit ended, by cause. Each has a sample.
fn refusal_metrics(metrics: &mut Metrics<'_>, refused: [u64; CAUSES]) -> Result<(), AllocError> {
    metrics.family(
        Kind::Counter,
        "remoted_refused_total",
        "Calls of Write and Execute that a limit ended, by cause.",
    )?;
    for (cause, count) in REFUSALS.iter().zip(refused.iter()) {
        let labels = [
            label("method", cause.method),
            label("cause", cause.refusal.text()),
        ];
        metrics.sample(&labels, Value::Whole(*count))?;
    }
    Ok(())
}

/// What befell runs. Each word of a fault has a sample.
fn run_metrics(metrics: &mut Metrics<'_>, runs: &RunTally) -> Result<(), AllocError> {
    metrics.family(
        Kind::Counter,
        "remoted_run_faults_total",
        "Runs that failed with a line, by its word.",
    )?;
    for (word, count) in FAULT_WORDS.iter().zip(runs.faults.iter()) {
        metrics.sample(&[label("word", *word)], Value::Whole(*count))?;
    }
    metrics.counter(
        "remoted_jobs_ended_by_operator_total",
        "Actions that an operator ended, and that were told so.",
        runs.ended,
    )?;
    metrics.counter(
        "remoted_runs_over_quota_total",
        "Runs that gave more bytes than the quota.",
        runs.over_quota,
    )
}

/// What is told of the instance of a number, if there is one.
pub(crate) fn instance_metrics<C: HostCounts>(
    alloc: Global,
    number: u32,
    sight: &Sight<'_>,
    times: &JobTimes,
    host: &C,
    turns: &Turns,
) -> Result<Option<Metrics<'static>>, AllocError> {
    let Some(served) = sight.server.instance(number) else {
        return Ok(None);
    };
    let Some(counts) = sight.counts.instances().get(number as usize) else {
        return Ok(None);
    };
    let Some(runs) = host.runs(number) else {
        return Ok(None);
    };
    let (instance, mut metrics) = (served.instance(), Metrics::new(alloc));
    let (sizes, calls) = (instance.sizes(), instance.call_counts());
    let (time, folders) = (times.of(number as usize), host.folders(number));
    store_metrics(&mut metrics, instance)?;
    let held = served.read_bytes(sight.server.stored_texts().pool)?;
    read_metrics(&mut metrics, held)?;
    connection_metrics(&mut metrics, served.connection_count(), counts)?;
    hit_metrics(&mut metrics, calls)?;
    job_metrics(&mut metrics, &sizes, time, folders.left)?;
    metrics.gauge(
        "remoted_jobs_abandoned",
        "Actions that wait or run, and of which no client waits for the end.",
        abandoned_jobs(alloc, instance)?,
    )?;
    metrics.counter(
        "remoted_runs_links_total",
        "Runs whose output directories had symbolic links.",
        folders.links,
    )?;
    tree_metrics(&mut metrics, number, host.trees())?;
    metrics.counter(
        "remoted_events_cut_total",
        "Events that were cut short for want of memory.",
        counts.cut,
    )?;
    fault_metrics(&mut metrics, counts)?;
    call_metrics(&mut metrics, calls)?;
    both_ways(&mut metrics, calls)?;
    refusal_metrics(&mut metrics, turns.refused(number))?;
    ending_metrics(&mut metrics, counts)?;
    run_metrics(&mut metrics, &runs)?;
    Ok(Some(metrics))
}
