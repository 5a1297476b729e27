//! Figures in the text form that Prometheus reads.

mod families;
mod metrics;
mod page;

pub use families::{InstanceMetrics, metrics_text};
pub use metrics::Metrics;
pub use page::{Kind, Label, Value};
