//! What a server tells a monitor: the metrics of a log, of its caches and of their clients; and their text, version
//! 0.0.4 of the text format of Prometheus.
#![tactic(auto)]

mod caches;
mod families;
mod lines;
mod mirrors;
mod served;
mod text;

pub use caches::{CacheMetrics, Metrics};
pub use served::{Mirrored, RequestCount, Served, Verb};
pub use text::metrics_text;
