//! The figures of a server: what each of them is, how it is counted, and how all are written.
#![tactic(auto)]

mod host_counts;
mod in_words;
mod instance_figures;
mod job_times;
mod jobs;
mod prometheus;
mod refusals;
mod server_figures;
mod tree_figures;
mod turns;

pub use host_counts::{FolderFigures, HostCounts, ProcessFigures, resident_of};
pub use in_words::tell_in_words;
pub use instance_figures::ERROR_CODES;
pub use jobs::{abandoned_jobs, open_jobs, watched_jobs};
pub use prometheus::{InstanceMetrics, Kind, Label, Metrics, Value, metrics_text};
pub use refusals::{CAUSES, QUOTA, REFUSALS};
pub use server_figures::Figures;
pub use turns::Turns;
