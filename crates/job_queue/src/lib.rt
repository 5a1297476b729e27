//! The jobs of an instance (remote_execution.proto, Execution): they wait, run and end, each under
//! a number of its own. What a job is does not matter here.
#![tactic(auto)]

mod entries;
mod error;
mod laws;
mod queue;

pub use error::JobError;
pub use laws::{
    a_job_is_in_one_stage, a_job_stays_the_same, a_number_is_given_once, jobs_hold_what_they_keep,
    jobs_stay_in_order, limits_of_jobs, the_least_numbered_starts,
};
pub use queue::{LAST_NUMBER, MOST_ENDED, MOST_RUNNING, MOST_WAITING, Queue, Running, Stage};
