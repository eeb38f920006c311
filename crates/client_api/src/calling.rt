//! That the contract is one that callers can use. Nothing calls this: it is here to be proved.

ghost use Rattle.std.specs.Prelude.{◌≡◌, ◌≤◌, ℕ, List, Some, None, IfOk, IfErr, OnOk, IfSome};
ghost use Rattle.rev_front.specs.Passes.{IsPass, end_from, last_of};
ghost use Rattle.rev_log.specs.Logs.{Fits};
ghost use Rattle.up_api.specs.Sections.{log_of};
ghost use Rattle.select_all.specs.declared.selection.Meaning.TheVariants.{MostRecent};
ghost use Rattle.select_all.specs.Listings.{IsListing};
ghost use Rattle.watch_rules.specs.Bodies.{Line, TellsBody};
ghost use Rattle.client_api.specs.Facts.{IsOnward, HasLoaded};
ghost use Rattle.client_api.specs.Calling.{IsTurned, StandsAfter};

use crate::answers::{ListNo, Listed, Took};
use crate::client::Client;
use kube_meta::Memory;
use list_rules::ListAsk;
use up_store::WriteAsk;
use watch_rules::WatchAsk;

/// A current list that isn't paged: it is refused for want of memory alone. It holds exactly the selected rows at its
/// revision, which is at least what the log had reached in this call, and the log's end where nobody else holds it.
pub(crate) fn newest<C: Client>(client: &mut C, ask: &ListAsk) -> Result<Listed, ListNo>
    requires current { ask.now.meaning ≡ MostRecent }
    requires limit { ask.now.limit ≡ 0 }
    requires after { ask.now.after ≡ None }
    requires lawful { IsPass Fits (C.pass client.old) }
    ensures onward { IsOnward (C.pass client.old) (C.pass client.new) }
    ensures loaded { OnOk result (HasLoaded (C.pass client.old) (C.pass client.new)) }
    ensures current { IfOk result (λ listed. last_of (C.pass client.new) ≤ listed.rev) }
    ensures rows { IfOk result (λ listed. IsListing (log_of C.base (C.pass client.new)) ask.now.selection listed.rev listed.rows) }
    ensures no_more { IfOk result (λ listed. listed.more ≡ None) }
    ensures refused { IfErr result (λ no. no ≡ ListNo.Memory) }
    ensures sole { C.whole client.old → IfOk result (λ listed. listed.rev ≡ end_from (C.pass client.new).first (C.pass client.new).seen) }
    ensures kept { C.whole client.old → OnOk result (C.whole client.new) }
{
    client.list(ask)
}

/// A write and then a current list, which has the write; of a sole client it is at the write's revision.
pub(crate) fn written_and_listed<C: Client>(
    client: &mut C,
    write: &WriteAsk,
    ask: &ListAsk,
) -> Option<(u64, Listed)>
    requires current { ask.now.meaning ≡ MostRecent }
    requires lawful { IsPass Fits (C.pass client.old) }
    ensures onward { IsOnward (C.pass client.old) (C.pass client.new) }
    ensures own_write { IfSome result (λ both. both.0 ≤ both.1.rev) }
    ensures sole { C.whole client.old → IfSome result (λ both. both.1.rev ≡ both.0) }
{
    let Ok(written) = client.write(write) else {
        return None;
    };
    let Ok(listed) = client.list(ask) else {
        return None;
    };
    Some((written.rev, listed))
}

/// What came of a turn.
#[derive(Debug, Drop)]
pub(crate) enum Turned {
    /// The time of the watch is over.
    Late,
    /// The program is asked to stop.
    Stopped,
    Took(Took),
}

/// One turn of a watch that stands at `position`, at the time `now`.
pub(crate) fn turn<C: Client>(
    client: &mut C,
    ask: &WatchAsk,
    position: u64,
    limit: Option<u64>,
    now: u64,
    stop: bool,
    max: usize,
) -> Result<Turned, Memory>
    requires watching { (C.facts client.old).watching ≡ Some (record { selection = ask.now.selection; position = position }) }
    requires max { 1 ≤ max }
    ensures onward { IsOnward (C.pass client.old) (C.pass client.new) }
    ensures turned { IfOk result (IsTurned C.base (C.facts client.old).window (C.pass client.old) (record { selection = ask.now.selection; position = position }) (C.pass client.new)) }
    ensures stands { IfOk result (StandsAfter (record { selection = ask.now.selection; position = position }) (C.facts client.new).watching) }
    ensures heard { now ≤ (C.facts client.new).heard }
    ensures same { C.facts client.new ≡ record (C.facts client.old) { watching = (C.facts client.new).watching; heard = (C.facts client.new).heard } }
    ensures kept { C.whole client.old → OnOk result (C.whole client.new) }
{
    client.tick(now);
    if let Some(limit) = limit {
        if now >= limit {
            return Ok(Turned::Late);
        }
    }
    if stop {
        return Ok(Turned::Stopped);
    }
    let took = client.take(max)?;
    Ok(Turned::Took(took))
}

/// Watches for so many turns, or until it is lost. The lines of the opening and of the turns are those of a lawful
/// body, which has reached the answered position.
pub(crate) fn follow<C: Client>(
    client: &mut C,
    ask: &WatchAsk,
    turns: u32,
    max: usize,
) -> Result<u64, ListNo>
    requires idle { (C.facts client.old).watching ≡ None }
    requires max { 1 ≤ max }
    ensures onward { IsOnward (C.pass client.old) (C.pass client.new) }
    ensures told { IfOk result (λ reached. (at : ℕ) × (lines : List Line) × TellsBody (log_of C.base (C.pass client.new)) (C.pass client.new).floor (C.facts client.old).window ask.now at lines reached) }
    ensures ended { OnOk result ((C.facts client.new).watching ≡ None) }
{
    let begun = client.watch(ask)?;
    let mut position = begun.at;
    for _ in 0..turns {
        match client.take(max)? {
            Took::Events { upto, .. } => position = upto,
            Took::Quiet { upto, .. } => position = upto,
            Took::Lost { .. } => return Ok(position),
        }
    }
    client.end_watch();
    Ok(position)
}
