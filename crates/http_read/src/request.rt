//! A request that was read.

use crate::body::Body;
use crate::params::Params;
use crate::segments::Segments;
use kube_meta::Text;

/// What a head that asks for a WebSocket says (RFC 6455, section 4.1). A field that is absent is an empty text.
#[derive(Debug, Drop)]
pub struct Upgrade {
    /// The first Sec-WebSocket-Key.
    pub key: Text,
    /// The first Sec-WebSocket-Version.
    pub version: Text,
}

/// A whole request.
#[derive(Debug, Drop)]
pub struct Req {
    /// The method, as it was sent.
    pub method: Text,
    /// The segments of the target's path after the first `/`, decoded.
    pub path: Segments,
    /// The pairs of the target's query.
    pub params: Params,
    /// The body, empty where the head gives no length.
    pub body: Body,
    /// Whether the connection ends with the reply: Connection has `close`, or the method is HEAD, whose clients take no
    /// body.
    pub close: bool,
    /// Whether it was made for another site: Host has a dot and is no address of the loopback; or a browser made it,
    /// since Origin or Sec-Fetch-Site is there, and either of them tells another site, or Host isn't a loopback name or
    /// address.
    pub foreign: bool,
    /// Whether Content-Type names protobuf, YAML or CBOR, so that a body can't be read.
    pub unreadable: bool,
    /// The first Accept field.
    pub accept: Option<Text>,
    /// The upgrade to a WebSocket that is asked for.
    pub upgrade: Option<Upgrade>,
}
