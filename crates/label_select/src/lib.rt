//! Label selectors, as the Kubernetes API concepts define them, read from text.
#![tactic(auto)]

mod cursor;
mod lexer;
mod reading;
mod refusal;
mod requirements;
mod selector;

pub use lexer::Tokens;
pub use refusal::LabelNo;
pub use selector::LabelSel;
