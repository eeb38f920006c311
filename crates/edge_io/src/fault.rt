//! That an end failed.

/// An end failed. Its own count of faults rose in the call that answers this, and nothing else is said of the cause.
#[derive(Clone, Copy, Debug, PartialEq, Eq)]
pub struct Failed;
