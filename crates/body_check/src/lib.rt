//! The judges of recorded watch bodies: whether the lines of a record are those of a lawful body of its watch over its
//! log; and, where the log isn't known, whether there is one of which all that is known is true.
#![tactic(auto)]

mod following;
mod found;
mod held;
mod judging;
mod lists;
mod losses;
mod moves;
mod openings;
mod same;
mod spans;
mod stand;
mod turns;
mod verdict;
mod walk;

pub(crate) use found::Found;
pub use judging::{Checked, check, judgements_are_one};
pub use lists::{check_lists, list_judgements_are_one};
pub use verdict::Verdict;
