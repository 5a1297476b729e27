//! What is told of a server, as Prometheus reads it.

use crate::tests::metrics_text_wanted::WANTED;
use figures::*;
use std::alloc::{AllocError, Global};
use std::test::*;

fn label(name: &'static str, value: &'static str) -> Label<'static> {
    Label { name, value }
}

/// An instance of which so many calls ended, by their status.
fn instance(
    alloc: Global,
    name: &'static str,
    blobs: u64,
    calls: &[(&'static str, u64)],
) -> Result<InstanceMetrics<'static>, AllocError> {
    let mut metrics = Metrics::new(alloc);
    metrics.gauge("remoted_blobs", "Blobs that are stored.", blobs)?;
    metrics.family(Kind::Counter, "remoted_calls_total", "Calls that ended.")?;
    for (status, count) in calls {
        let labels = [label("method", "Read"), label("status", *status)];
        metrics.sample(&labels, Value::Whole(*count))?;
    }
    let passed = Value::Milliseconds(1_005);
    metrics.one(
        Kind::Counter,
        "remoted_jobs_ran_seconds_total",
        "Together.",
        passed,
    )?;
    Ok(InstanceMetrics { name, metrics })
}

fn server(alloc: Global) -> Result<Metrics<'static>, AllocError> {
    let mut metrics = Metrics::new(alloc);
    metrics.counter("remoted_turns_total", "Turns.", 27)?;
    metrics.family(Kind::Histogram, "remoted_turn_seconds", "Of calls.")?;
    let method = label("method", "Read");
    metrics.named_sample(
        "remoted_turn_seconds_bucket",
        &[method, label("le", "+Inf")],
        Value::Whole(3),
    )?;
    metrics.named_sample(
        "remoted_turn_seconds_sum",
        &[method],
        Value::Milliseconds(28),
    )?;
    metrics.named_sample("remoted_turn_seconds_count", &[method], Value::Whole(3))?;
    Ok(metrics)
}

fn shown(alloc: Global) -> Result<Vec<u8>, AllocError> {
    let red = instance(
        alloc,
        "re\"d\\\n",
        1,
        &[("OK", 18_446_744_073_709_551_615), ("NOT_FOUND", 4)],
    )?;
    let blue = instance(alloc, "blue", 0, &[])?;
    let instances = vec![in alloc; red, blue]?;
    metrics_text(alloc, "/run/\"r\".prom", &server(alloc)?, &instances)
}

fn is_shown_as_wanted(alloc: Global) -> bool {
    match shown(alloc) {
        Ok(text) => text.as_slice() == WANTED.as_bytes(),
        Err(_) => false,
    }
}

#[test]
fn the_whole_text(rt: HostRuntime) {
    assert!(rt; is_shown_as_wanted(rt.alloc()));
}
