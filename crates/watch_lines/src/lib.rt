//! The lines of a watch as texts: what a line of whole objects is by its text, and a peer's lines, read back by theirs.
//! And lines and pages of lists as any API server may write them, read by their values.
#![tactic(auto)]

mod events;
mod laws;
mod lines;
mod objects;
mod pages;
mod peer_line;
mod pieces;
mod plain;
mod readers;
mod shown;
mod statuses;
mod told;
mod trouble;
mod value_laws;
mod values;

pub use laws::{lines_are_one, lines_read_back, shown_texts_tell_apart, texts_have_no_line_feed};
pub use lines::read_line;
pub use pages::{Page, tell_page};
pub use peer_line::PeerLine;
pub use readers::{bookmark_in, loss_in};
pub use told::{event_type, tells};
pub use trouble::{BadText, Trouble, trouble_of};
pub use value_laws::{
    items_show_the_same, own_lines_tell, pages_are_kept, texts_are_one_page, texts_tell_one_line,
    what_is_told_is_kept,
};
pub use values::tell_line;
