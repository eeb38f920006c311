//! What was served.

use kube_meta::Resource;

/// What a server has served since it began, and serves now.
#[derive(Debug, Drop)]
pub struct Served {
    /// How many connections are open.
    pub connections: u64,
    /// How many events were told to watches.
    pub events: u64,
    /// How many requests were answered, those of one kind and code together; kinds and codes of which there was none
    /// may be left out.
    pub requests: Vec<RequestCount>,
    /// Of a mirror, what it tells of each resource that it mirrors; of any other server there are none.
    pub mirrors: Vec<Mirrored>,
}

/// What the mirror of one resource tells.
#[derive(Clone, Copy, Debug, PartialEq, Eq)]
pub struct Mirrored {
    pub resource: Resource,
    /// Whether it follows its peer.
    pub following: bool,
    /// The revision up to which it has heard its peer.
    pub revision: u64,
    /// How many seconds ago the last line or whole reply came from its peer.
    pub heard_seconds: u64,
    /// How often it began anew from all that its peer had.
    pub began_anew: u64,
    /// How many lines of its peer's watches it has heard.
    pub lines: u64,
}

/// How many requests of one kind were answered by one code.
#[derive(Clone, Copy, Debug, PartialEq, Eq)]
pub struct RequestCount {
    pub verb: Verb,
    /// Of what; a transaction or an operation is of none.
    pub resource: Option<Resource>,
    /// The HTTP status code.
    pub code: u16,
    pub count: u64,
}

/// What a request asks for.
#[derive(Clone, Copy, Debug, PartialEq, Eq)]
pub enum Verb {
    Get,
    List,
    Watch,
    Create,
    Replace,
    Remove,
    Transact,
    Operate,
}
