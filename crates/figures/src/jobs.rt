//! The jobs of an instance that run or wait, and those of them for which nobody waits.

use digest::Digest;
use instance_core::Instance;
use std::alloc::{AllocError, Global};

/// The numbers of the jobs that calls watch, in rising order.
pub fn watched_jobs(alloc: Global, instance: &Instance) -> Result<Vec<u64>, AllocError> {
    let mut numbers = instance.watched(alloc)?;
    numbers.sort_unstable();
    Ok(numbers)
}

/// The jobs of an instance that run or wait: each with its number, and the digest of its action.
pub fn open_jobs(alloc: Global, instance: &Instance) -> Result<Vec<(u64, Digest)>, AllocError> {
    let queue = instance.jobs();
    let mut jobs = Vec::new(alloc);
    for (number, running) in queue.running() {
        jobs.push((*number, running.job.task.action))?;
    }
    for place in 0..queue.waiting_count() {
        if let Some((number, job)) = queue.waiting_at(place) {
            jobs.push((*number, job.task.action))?;
        }
    }
    Ok(jobs)
}

/// How many jobs of an instance no call watches.
pub fn abandoned_jobs(alloc: Global, instance: &Instance) -> Result<u64, AllocError> {
    let watched = watched_jobs(alloc, instance)?;
    let jobs = open_jobs(alloc, instance)?;
    let abandoned = jobs
        .iter()
        .filter(|(number, _)| watched.binary_search(number).is_err());
    Ok(abandoned.count() as u64)
}
