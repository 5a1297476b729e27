//! What a server is started with and what happens to it: the configurations of its instances, which
//! names, quotas, slot counts and parents these may have, and the events of its connections and its
//! clock, and of the runs of jobs.
#![tactic(auto)]

mod configs;
mod event;
mod fault;
mod instance;
pub mod laws;

pub use crate::configs::{Configs, INSTANCE_LIMIT, InstanceConfig, has_bad_parent, own_fault};
pub use crate::event::{Event, What};
pub use crate::fault::ConfigFault;
pub use crate::instance::{QUOTA_LIMIT, SLOTS_LIMIT, is_instance_name, is_quota, is_slot_count};
pub use instance_limits::Limits;
pub use run_calls::{Content, Exited, Outcome, Output, OutputKind, OutputNode, OutputNodeKind};
