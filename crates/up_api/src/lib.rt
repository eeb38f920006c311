//! What a cache follows and what it fills: the upstream of a watch cache as a trait, and the cache that is fed from it.
//!
//! Upstream has one log for all resources. A reader of it carries a pass of that log, and each call is one section:
//! afterwards the pass knows the whole log as it was in that section. Feeds are read poll by poll, as a watch of the
//! Kubernetes API is ("Efficient detection of changes" of the API concepts); where a feed was cut or compacted away,
//! the history is read anew.
#![tactic(auto)]

mod feeds;
mod held;
mod named;
mod refusals;
mod settings;
mod upstream;

pub use feeds::{Feed, History, Polled};
pub use held::Held;
pub use named::LogFacts;
pub use refusals::UpNo;
pub use settings::Settings;
pub use upstream::{News, Pass, Upstream, logs_grow, polls_join};
