//! That a mirror may go to another thread wherever its name may. Nothing calls this: it is here to be proved.

use crate::{ClusterList, ClusterMirror};
use std::sync::Wait;
use up_api::LogFacts;

fn crosses<T: Send>() {}

pub(crate) fn mirrors_cross<N: LogFacts + Send, R: Wait + Copy + Send + Sync>() {
    crosses::<ClusterMirror<N, R>>();
    crosses::<ClusterList>();
}
