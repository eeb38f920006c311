//! A resource of a cluster, followed: all of its objects at a revision, listed in pages, and a mirror whose log follows
//! the cluster's watch from there. The cluster is a Kubernetes API server, which isn't asked for what only a server of
//! ours answers, and whose texts are read by their values.
#![tactic(auto)]

mod crossing;
mod finding;
mod heard;
mod laws;
mod lines;
mod list;
mod mirror;
mod naming;
mod pages;
mod readers;
mod refusal;
mod refusals;
mod uid;

pub use finding::Finding;
pub use heard::Heard;
pub use laws::cluster_lines_are_heard;
pub use list::ClusterList;
pub use mirror::ClusterMirror;
pub use refusal::ClusterNo;
pub use uid::read_uid;
