//! Where watches begin.

ghost use Rattle.std.specs.Prelude.{◌≡◌, [], IfOk};
ghost use Rattle.select_all.specs.Listings.{listing};
ghost use Rattle.cached_client.specs.Starts.{start_refusal};

use crate::walks::{first, in_question};
use client_api::{Begun, ListNo, too_large};
use kube_meta::Memory;
use obj_tree::Snapshot;
use select_all::Selection;
use std::alloc::Global;
use watch_rules::Start;

/// The refusal of a start that names a revision above what a load gave.
pub(crate) fn unreached(start: Start, loaded: u64) -> Option<ListNo>
    ensures { result ≡ start_refusal start loaded }
{
    match start {
        Start::FromState(meaning) | Start::FromHere(meaning) => too_large(meaning, loaded),
        Start::FromRevision(_) => None,
    }
}

/// A start with the selected objects of a state.
pub(crate) fn opened(
    alloc: Global,
    selection: &Selection,
    at: u64,
    state: &Snapshot,
) -> Result<Begun, Memory>
    ensures { IfOk result (λ begun. begun ≡ record { at = at; rows = listing selection.now state.now }) }
{
    let mut rows = in_question(state, selection, None);
    let initial = first(alloc, selection, 0, &mut rows)?;
    Ok(Begun { at, initial })
}

/// A start with no initial objects.
pub(crate) fn bare(alloc: Global, at: u64) -> Begun
    ensures { result ≡ record { at = at; rows = [] } }
{
    Begun {
        at,
        initial: Vec::new(alloc),
    }
}
