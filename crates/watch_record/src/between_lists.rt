//! The lists of a record of an unknown log.

ghost use Rattle.std.specs.Prelude.{◌≡◌, ◌≢◌, ◌≤◌, ℕ, List, IfOk, IfErr, OnOk, MatchOption, map, length, nat_lt};
ghost use Rattle.std.specs.List.{position_or_len};
ghost use Rattle.kube_meta.specs.Rows.{RowData};
ghost use Rattle.watch_record.specs.Between.{AreLaterRead, IsBadLater, IsLaterRead, IsListRead, IsSomeLater, IsFullList, put};

use crate::between::LaterList;
use crate::between_refusal::BetweenNo;
use kube_meta::{Memory, Resource, Row};
use std::alloc::Global;
use watch_lines::{pages_are_kept, tell_page, texts_are_one_page};

// The rows of the whole list that a text is, and the revision at which they stand, if it is one.
pub(crate) fn list_of(
    alloc: Global,
    resource: Resource,
    text: &[u8],
) -> Result<Option<(Vec<Row>, u64)>, Memory>
    ensures { IfOk result (λ found. MatchOption found ((rows : List RowData) (at : ℕ) → ¬ (IsFullList resource text.now rows at))
        (λ list. IsListRead resource text.now list.0.items list.1)) }
{
    texts_are_one_page();
    pages_are_kept();
    let Some(page) = tell_page(alloc, resource, text)? else {
        return Ok(None);
    };
    if page.token.as_str().is_empty() {
        Ok(Some((page.rows, page.at)))
    } else {
        Ok(None)
    }
}

// The later lists that texts are, in the order of their revisions.
pub(crate) fn later_of(
    alloc: Global,
    resource: Resource,
    from: u64,
    texts: &[&[u8]],
) -> Result<Vec<LaterList>, BetweenNo>
    ensures read { IfOk result (λ later. AreLaterRead resource from (map (λ text. text.now) texts.now) later.items) }
    ensures refused { IfErr result (λ why. why ≢ BetweenNo.Memory →
        (place : ℕ) × (why ≡ BetweenNo.BadList place) × IsBadLater resource from (map (λ text. text.now) texts.now) place) }
{
    let mut later = Vec::new(alloc);
    for (n, text) in texts.iter().enumerate() {
        let list = later_at(alloc, resource, from, n as u64 + 1, text)?;
        put_list(&mut later, list)?;
    }
    Ok(later)
}

// The list at this place, which stands at the revision of the watch or a later one.
fn later_at(
    alloc: Global,
    resource: Resource,
    from: u64,
    place: u64,
    text: &[u8],
) -> Result<LaterList, BetweenNo>
    requires { 1 ≤ place }
    ensures is { IfOk result (λ list. IsFullList resource text.now list.rows list.at) }
    ensures place { IfOk result (λ list. list.place ≡ place) }
    ensures read { IfOk result (IsLaterRead from) }
    ensures refused { IfErr result (λ why. why ≢ BetweenNo.Memory → (why ≡ BetweenNo.BadList place) × ¬ (IsSomeLater resource from text.now)) }
{
    let Some((rows, at)) = list_of(alloc, resource, text)? else {
        return Err(BetweenNo::BadList { list: place });
    };
    if at < from {
        return Err(BetweenNo::BadList { list: place });
    }
    Ok(LaterList { rows, at, place })
}

// Puts a list behind those that don't stand later.
fn put_list(later: &mut Vec<LaterList>, list: LaterList) -> Result<(), Memory>
    ensures { OnOk result (later.new.items ≡ put list later.old.items) }
{
    let at = place_in(later.as_slice(), list.at);
    later.insert(at, list)?;
    Ok(())
}

// How many lists stand before the first one that stands later than this revision.
fn place_in(later: &[LaterList], at: u64) -> usize
    ensures place { result ≡ position_or_len (λ other. nat_lt at other.at) later.now }
    ensures within { result ≤ length later.now }
{
    for (n, other) in later.iter().enumerate() {
        if at < other.at {
            return n;
        }
    }
    later.len()
}
