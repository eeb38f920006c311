//! Requests in: HTTP/1.1 requests (RFC 9112) out of any [`Source`](edge_io::Source), one after the other, each whole or
//! refused with the reason. The grammar of heads is that of `httparse`.
#![tactic(auto)]

mod body;
mod fields;
mod head;
mod laws;
mod params;
mod pieces;
mod places;
mod plain;
mod reader;
mod refusal;
mod request;
mod segments;
mod sites;
mod unread;

pub use body::Body;
pub use fields::is_named;
pub use head::{MOST_FIELDS, MOST_HEAD, front_of};
pub use laws::{endings_are_determined, requests_agree, requests_are_read_in_one_way};
pub use params::Params;
pub use reader::Reader;
pub use refusal::ReqNo;
pub use request::{Req, Upgrade};
pub use segments::Segments;
pub use unread::{FillNo, Unread};
