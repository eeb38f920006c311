//! Replies: what each answer of a session that isn't a stream is written as, and writing it, from the head to the line
//! feed and the flush. An object and a list are written as the pieces that they are kept in, one after the other.
#![tactic(auto)]

mod body;
mod broken;
mod described;
mod document_texts;
mod documents;
mod faults;
mod form;
mod items;
mod lists;
mod metered;
mod reads;
mod refusals;
mod writes;

pub use body::send_on;
pub use broken::Broken;
pub use described::send_described;
pub use form::form_of;
pub use metered::{send_metered, send_unready};
pub use reads::{send_got, send_listed, send_unwatched};
pub use refusals::{send_bad_upgrade, send_request_refusal, send_unrouted};
pub use writes::{send_operated, send_transacted, send_unoperated, send_written};
