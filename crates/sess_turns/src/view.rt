//! How a stream shows what it tells.

use kube_meta::Text;
use meta_view::Form;

/// How the lines of a stream are framed.
#[derive(Debug, Drop)]
pub enum Framing {
    /// Each line is a chunk of an HTTP/1.1 body (RFC 9112, section 7.1).
    Chunks,
    /// Each line is a message of the WebSocket that was asked for by this key (RFC 6455).
    Messages(Text),
}

/// What is shown of objects, and how lines are framed.
#[derive(Debug, Drop)]
pub struct View {
    pub form: Form,
    pub framing: Framing,
}
