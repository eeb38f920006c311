//! That caches may be shared among threads wherever their log's name may. Nothing calls this: it is here to be proved.

use crate::Cacher;
use std::sync::Wait;
use up_api::LogFacts;

fn crosses<T: Send + Sync>() {}

pub(crate) fn cachers_cross<N: LogFacts + Send, R: Wait + Copy + Send + Sync>() {
    crosses::<Cacher<N, R>>();
}
