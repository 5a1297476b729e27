//! Jobs that an operator ends.

use run_calls::RunKey;
use std::alloc::{AllocError, Global};
use std::cell::RefCell;

/// The jobs that an operator ends, by instance: whoever reads what the operator wants notes them
/// here, and whoever asks runs ([`crate::OperatedRuns`]) looks here.
#[derive(Drop)]
pub struct EndedJobs {
    /// The numbers of those that are to be ended, of each instance. A number stands here until its
    /// run is asked or killed.
    instances: Vec<RefCell<Vec<u64>>>,
}

impl EndedJobs {
    /// None are to be ended, of so many instances.
    pub fn new(alloc: Global, instances: usize) -> Result<EndedJobs, AllocError> {
        let mut jobs = Vec::with_capacity(alloc, instances)?;
        for _ in 0..instances {
            jobs.push(RefCell::new(Vec::new(alloc)))?;
        }
        Ok(EndedJobs { instances: jobs })
    }

    /// One job more is to be ended, which waits or runs.
    ///
    /// Err: a request for memory was refused, and it is not.
    pub fn end(&self, run: RunKey) -> Result<(), AllocError> {
        let Some(jobs) = self.instances.get(run.instance as usize) else {
            return Ok(());
        };
        let Ok(mut numbers) = jobs.try_borrow_mut() else {
            return Err(AllocError);
        };
        numbers.push(run.job)?;
        Ok(())
    }

    /// Whether a job is to be ended, which waits or runs.
    pub fn has(&self, run: RunKey) -> bool {
        let Some(jobs) = self.instances.get(run.instance as usize) else {
            return false;
        };
        match jobs.try_borrow() {
            Ok(numbers) => numbers.contains(&run.job),
            Err(_) => false,
        }
    }

    /// Whether no job is to be ended.
    pub(crate) fn is_empty(&self) -> bool {
        self.instances.iter().all(|jobs| match jobs.try_borrow() {
            Ok(numbers) => numbers.is_empty(),
            Err(_) => false,
        })
    }

    /// Whether a job is to be ended. Its number is forgotten: a job is told once that it failed.
    pub(crate) fn take(&self, run: RunKey) -> bool {
        let Some(jobs) = self.instances.get(run.instance as usize) else {
            return false;
        };
        let is_ended = self.has(run);
        if let Ok(mut numbers) = jobs.try_borrow_mut() {
            numbers.retain(|number| *number != run.job);
        }
        is_ended
    }
}
