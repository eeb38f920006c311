//! What is told beside a refusal.

use kube_meta::{Key, Resource};
use std::alloc::Global;
use watch_lines::{BadText, trouble_of};

/// What is told beside a refusal, for who has to find its reason. Nothing is decided by it.
#[derive(Debug, Drop)]
pub enum Finding {
    /// A text is no line or no page.
    Text(BadText),
    /// The row of this key isn't the one that stands.
    Row(Key),
}

/// Notes why a text is no line or no page.
pub(crate) fn find(alloc: Global, resource: Resource, text: &[u8], finding: &mut Option<Finding>) {
    match trouble_of(alloc, resource, text) {
        Ok(bad) => *finding = Some(Finding::Text(bad)),
        Err(_) => {}
    }
}
