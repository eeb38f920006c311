//! Lines in chunks: the head of an HTTP/1.1 response (RFC 9112), the chunked data behind it, and the lines in that
//! data, out of any [`Source`](edge_io::Source), in pieces of any size. The grammar of heads and of chunks is that of
//! `httparse`.
//!
//! And replies whole, in chunks or counted; and the requests that such replies answer, written to any
//! [`Sink`](edge_io::Sink): watches of pods of a server as this one, and lists and watches of a cluster.
#![tactic(auto)]

mod asking;
mod bodies;
mod chunks;
mod cluster_asking;
mod framing;
mod head;
mod laws;
mod lines;
mod look;
mod place;
mod refusal;
mod start;

pub use asking::{AskNo, ask_watch};
pub use cluster_asking::{ask_changes, ask_namespace, ask_page};
pub use laws::{
    bodies_are_read_in_one_way, lines_are_read_in_one_way, outcomes_agree, readings_agree,
    streams_are_read_back,
};
pub use lines::{LineReader, MOST_LINE, Step};
pub use place::Place;
pub use refusal::LineNo;
pub use start::Start;
