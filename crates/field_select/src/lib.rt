//! Field selectors, as the Kubernetes API concepts define them, read from text.
#![tactic(auto)]

mod reader;
mod reading;
mod refusal;
mod selector;
mod terms;

pub use refusal::FieldNo;
pub use selector::FieldSel;
