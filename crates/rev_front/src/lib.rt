//! One log for all threads, and passes that know a beginning of it.
//!
//! A log has entries and a first revision: the entry at place i, from 0, has revision `first + 1 + i`. No code keeps
//! the entries. What threads share is a table of three words, the revision that the log has reached, the generation
//! of its feeds and its compaction floor; the entries stand in contracts alone. One [`Pen`] writes the log, and any
//! number of [`Front`]s are passes: each knows a beginning of the log, which grows as the pass makes loads and meets
//! other passes. Each revision is committed by an [`Author`], and counted for it: authors that together have all parts
//! of the right to commit have committed the whole log.
//!
//! In the terms of the Kubernetes API, a revision is a `resourceVersion`, and a `look` is the read of the current
//! revision that a consistent read from the cache makes (KEP-2340).
#![tactic(auto)]

mod author;
mod blanks;
mod crossing;
mod entry;
mod front;
mod laws;
mod made;
mod name;
mod news;
mod pen;
mod sight;
mod steps;

pub use author::{Author, Commits, Orders};
pub use blanks::{Blank, start};
pub use entry::Entry;
pub use front::Front;
pub use laws::{loads_are_seen, looks_stand};
pub use made::blank;
pub use name::LogName;
pub use news::News;
pub use pen::{Pen, Words};
pub use std::alloc::AllocError as Memory;
