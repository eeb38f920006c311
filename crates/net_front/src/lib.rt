//! Many connections at once: threads that accept and serve them, over clients of one log, or of one for each resource,
//! and count for monitors what these answer.
#![tactic(auto)]

mod caches;
mod clock;
mod cluster;
mod cluster_following;
mod cluster_verdicts;
mod codes;
mod counting;
mod counts;
mod disconnects;
mod doorbell;
mod end;
mod followed;
mod followers;
mod following;
mod helpers;
mod host;
mod house;
mod intake;
mod mirror;
mod opened;
mod pace;
mod probes;
mod pump;
mod redial;
mod replicas;
mod rests;
mod ringing;
mod schedule;
mod server;
mod serving;
mod shared;
mod standing;
mod tables;
mod tally;
mod verdicts;
mod visitor;

pub use cluster::{Cluster, Lists, Manner, Unserved, serve_cluster};
pub use cluster_verdicts::ClusterWhy;
pub use intake::Served;
pub use mirror::serve_mirror;
pub use redial::{ClusterNews, News, Redial};
pub use server::{serve_all, serve_open};
pub use shared::Host;
