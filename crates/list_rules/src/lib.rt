//! What the options of lists and gets ask for: at which revision, how much, and from which key on;
//! the continue tokens of pages; and that pages, joined, are the whole list.
#![tactic(auto)]

mod ask;
mod get;
mod laws;
mod left;
mod options;
mod refusal;
mod tokens;

pub use ask::ListAsk;
pub use get::GetAsk;
pub use laws::{lefts_are_counted, pages_join};
pub use left::remaining;
pub use refusal::{AskNo, TokenNo};
pub use tokens::{read_token, token};
