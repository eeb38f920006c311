//! What a line of a watch is.

use kube_meta::Obj;
use select_all::Kind;

/// What a line of a peer's watch is.
#[derive(Debug, Drop)]
pub enum PeerLine {
    /// An object at a revision: ADDED, MODIFIED or DELETED.
    Told { kind: Kind, obj: Obj, rev: u64 },
    /// A bookmark at a revision, which closes the initial events or doesn't.
    Bookmark { at: u64, closing: bool },
    /// An ERROR, by the code of its Status.
    Error { code: u16 },
}
