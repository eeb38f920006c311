//! The log of what an API server accepted, as revisions of changes, and the state of a resource at a
//! revision of it.
#![tactic(auto)]

mod changes;
mod laws;
mod rows;
mod states;

pub use changes::{Change, Revision};
pub use laws::{
    fitting_logs_are_logs, fitting_logs_are_numbered, last_changes_decide, rows_stay,
    states_are_unique, states_exist, states_stay,
};
pub use rows::{Rows, make_changes, rows_in_order};
pub use states::state;
