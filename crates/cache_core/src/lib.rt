//! The cache of one resource: its objects as they stand, and the last events, from which watches catch up and earlier
//! states are found. It stands for a beginning of the log, and whole revisions are taken in or none.
#![tactic(auto)]

mod cache;
mod making;
mod refusals;
mod replay;
mod writing;

pub use cache::Cache;
pub use refusals::AtNo;
