//! Replies out: the heads of HTTP/1.1 replies and the frames of chunked streams (RFC 9112), written piece by piece to
//! any [`Sink`] with no copy of the body.
#![tactic(auto)]

mod hexadecimal;
mod pieces;
mod replies;

pub use pieces::{part, parts};
pub use replies::{
    ContentType, begin_chunk, begin_reply, begin_stream, begin_typed_reply, end_chunk, end_stream,
};
