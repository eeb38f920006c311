//! Records of watches: the log that an API server accepted, what was asked for, and the lines that came; or, where the
//! log is unknown, lists in its place.
#![tactic(auto)]

mod asking;
mod between;
mod between_lists;
mod between_parts;
mod between_reading;
mod between_refusal;
mod header;
mod heading;
mod laws;
mod parts;
mod reading;
mod records;
mod refusals;
mod revisions;
mod texts;
mod values;
mod watched;
mod writing;

pub use between::{Between, LaterList};
pub use between_reading::read_between;
pub use between_refusal::BetweenNo;
pub use header::Header;
pub use laws::lines_are_read_back;
pub use reading::read_record;
pub use records::Record;
pub use refusals::RecordNo;
pub use writing::log_lines;
