//! The figures of the made trees of an instance.

use crate::prometheus::Metrics;
use made_trees::TreeCounts;
use std::alloc::AllocError;

/// How many there are now, and what became of those that actions had.
pub(crate) fn tree_metrics(
    metrics: &mut Metrics<'_>,
    instance: u32,
    trees: &TreeCounts,
) -> Result<(), AllocError> {
    metrics.gauge(
        "remoted_made_trees",
        "Made trees on the disk, with those that are still to be removed.",
        trees.trees(instance),
    )?;
    metrics.gauge(
        "remoted_made_tree_bytes",
        "Bytes of these, with 4096 for each file, directory and link.",
        trees.bytes(instance),
    )?;
    metrics.counter(
        "remoted_made_tree_hits_total",
        "Input directories of actions that were bound.",
        trees.hits(instance),
    )?;
    metrics.counter(
        "remoted_made_tree_misses_total",
        "Input directories of actions that could be made trees, and were not bound.",
        trees.misses(instance),
    )?;
    metrics.counter(
        "remoted_made_trees_dropped_total",
        "Made trees that went to make room for others.",
        trees.dropped(instance),
    )
}
