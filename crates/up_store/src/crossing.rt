//! That doors may go to other threads, and be shared among them, wherever their name may. Nothing calls this: it is
//! here to be proved.

use crate::{ReadDoor, StoreDoor};
use std::sync::Wait;
use up_api::LogFacts;

fn crosses<T: Send + Sync>() {}

pub(crate) fn doors_cross<N: LogFacts + Send, R: Wait + Copy + Send + Sync>() {
    crosses::<StoreDoor<N, R>>();
    crosses::<ReadDoor<N, R>>();
}
