//! Commits, and the floor that follows them.

ghost use Rattle.std.specs.Prelude.{◌≡◌, ℕ, ◌+◌, ◌-◌, ◌^◌, ◌<◌, ◌≤◌, [], ◌∷◌, ◌++◌, length, OnOk};
ghost use Rattle.rev_front.specs.Passes.{credited, quiets, revision as reached};
ghost use Rattle.rev_log.specs.Logs.{Fits, quiet_at};
ghost use Rattle.up_store.specs.Hearing.{AreAscending, filled};
ghost use Rattle.up_store.specs.Kept.{Keeps, HasRoom};
ghost use Rattle.up_store.specs.Stores.{accepted, log_in, obeyed, IsCutAnswer, IsCompactionAnswer};

use crate::OpNo;
use crate::kept::Kept;
use crate::revisions::SharedRevision;
use crate::store::LAST;
use kube_meta::Memory;
use rev_front::{Author, Pen};
use rev_log::Revision;
use up_api::LogFacts;

/// Raises the generation of feeds, unless it is the last one.
pub fn cut<N: LogFacts>(pen: &mut Pen<Revision, N>, author: &mut Author<N>) -> Result<u64, OpNo>
    requires { pen.old.gen ≤ 2 ^ 62 }
    ensures answer { IsCutAnswer pen.old pen.new result }
    ensures author { author.new ≡ obeyed result author.old }
    ensures fits { pen.new.gen ≤ 2 ^ 62 }
{
    if pen.generation() == LAST {
        return Err(OpNo::UsedUp { at: LAST });
    }
    Ok(pen.cut(author))
}

/// Raises the floor to this revision, unless it is below the floor or above the log's end.
pub fn compact<N: LogFacts>(
    pen: &mut Pen<Revision, N>,
    author: &mut Author<N>,
    kept: &mut Kept,
    at: u64,
) -> Result<u64, OpNo>
    requires keeps { Keeps (log_in N.base pen.old) pen.old.floor kept.old }
    ensures answer { IsCompactionAnswer at pen.old pen.new result }
    ensures author { author.new ≡ obeyed result author.old }
    ensures generation { pen.new.gen ≡ pen.old.gen }
    ensures keeps { Keeps (log_in N.base pen.new) pen.new.floor kept.new }
{
    let floor = pen.floor();
    if at < floor {
        return Err(OpNo::Compacted { asked: at, floor });
    }
    let current = pen.revision();
    if current < at {
        return Err(OpNo::Future { asked: at, current });
    }
    let _ = raise(pen, kept, at);
    pen.obey(author);
    Ok(at)
}

/// Raises the floor to a revision that the log has reached. What falls below it is given up as far as there is memory
/// for that.
pub fn raise<N: LogFacts>(
    pen: &mut Pen<Revision, N>,
    kept: &mut Kept,
    floor: u64,
) -> Result<(), Memory>
    requires above { pen.old.floor ≤ floor }
    requires reached { floor ≤ reached pen.old }
    requires keeps { Keeps (log_in N.base pen.old) pen.old.floor kept.old }
    ensures floor { pen.new ≡ record pen.old { floor = floor } }
    ensures keeps { Keeps (log_in N.base pen.new) pen.new.floor kept.new }
    ensures done { OnOk result (kept.new.from ≡ floor) }
{
    lift(pen, floor);
    kept.settle(floor)
}

// Stores a floor that is a new one.
fn lift<N: LogFacts>(pen: &mut Pen<Revision, N>, floor: u64)
    requires above { pen.old.floor ≤ floor }
    requires reached { floor ≤ reached pen.old }
    ensures { pen.new ≡ record pen.old { floor = floor } }
{
    if pen.floor() < floor {
        pen.compact(floor);
    }
}

/// Adds a revision, for which there is room, to the log, and lets the floor follow.
pub fn commit<N: LogFacts>(
    pen: &mut Pen<Revision, N>,
    author: &mut Author<N>,
    kept: &mut Kept,
    history: u64,
    revision: SharedRevision,
) -> Result<(), Memory>
    requires last { reached pen.old < 2 ^ 62 }
    requires fits { Fits (reached pen.old + 1) revision }
    requires history { 1 ≤ history }
    requires room { HasRoom 1 kept.old }
    requires keeps { Keeps (log_in N.base pen.old) pen.old.floor kept.old }
    ensures log { pen.new ≡ accepted history pen.old revision }
    ensures author { author.new ≡ credited author.old 1 }
    ensures keeps { Keeps (log_in N.base pen.new) pen.new.floor kept.new }
    ensures done { OnOk result (kept.new.from ≡ pen.new.floor) }
{
    let end = put(pen, author, kept, revision);
    let floor = pen.floor().max(end.saturating_sub(history));
    raise(pen, kept, floor)
}

/// Adds revisions, for which there is room, to the log, and passes over all others up to a number, at which nothing
/// changes. The floor stays.
pub fn put_all<N: LogFacts>(
    pen: &mut Pen<Revision, N>,
    author: &mut Author<N>,
    kept: &mut Kept,
    revisions: Vec<SharedRevision>,
    to: u64,
)
    requires last { to ≤ 2 ^ 62 }
    requires rising { AreAscending (reached pen.old) revisions.items to }
    requires room { HasRoom (length revisions.items) kept.old }
    requires keeps { Keeps (log_in N.base pen.old) pen.old.floor kept.old }
    ensures log { pen.new ≡ record pen.old { log = pen.old.log ++ filled (reached pen.old) revisions.items to } }
    ensures author { author.new ≡ credited author.old (to - reached pen.old) }
    ensures keeps { Keeps (log_in N.base pen.new) pen.new.floor kept.new }
{
    for revision in revisions {
        let before = revision.get().rev - 1;
        pass_over(pen, author, kept, before);
        put(pen, author, kept, revision);
    }
    pass_over(pen, author, kept, to);
}

// Passes over revisions, up to this one, at which nothing changes. The floor stays.
fn pass_over<N: LogFacts>(
    pen: &mut Pen<Revision, N>,
    author: &mut Author<N>,
    kept: &mut Kept,
    upto: u64,
)
    requires onward { reached pen.old ≤ upto }
    requires last { upto ≤ 2 ^ 62 }
    requires keeps { Keeps (log_in N.base pen.old) pen.old.floor kept.old }
    ensures log { pen.new ≡ record pen.old { log = pen.old.log ++ quiets quiet_at (reached pen.old) (upto - reached pen.old) } }
    ensures author { author.new ≡ credited author.old (upto - reached pen.old) }
    ensures room { (count : ℕ) → HasRoom count kept.old → HasRoom count kept.new }
    ensures keeps { Keeps (log_in N.base pen.new) pen.new.floor kept.new }
{
    pen.pass_over(author, upto);
    kept.end = upto;
}

// Adds a revision, for which there is room, to the log, and answers its number. The floor stays.
fn put<N: LogFacts>(
    pen: &mut Pen<Revision, N>,
    author: &mut Author<N>,
    kept: &mut Kept,
    revision: SharedRevision,
) -> u64
    requires last { reached pen.old < 2 ^ 62 }
    requires fits { Fits (reached pen.old + 1) revision }
    requires room { HasRoom 1 kept.old }
    requires keeps { Keeps (log_in N.base pen.old) pen.old.floor kept.old }
    ensures answer { result ≡ reached pen.old + 1 }
    ensures log { pen.new ≡ record pen.old { log = pen.old.log ++ revision ∷ [] } }
    ensures author { author.new ≡ credited author.old 1 }
    ensures room { (count : ℕ) → HasRoom (count + 1) kept.old → HasRoom count kept.new }
    ensures keeps { Keeps (log_in N.base pen.new) pen.new.floor kept.new }
{
    let end = pen.commit(author, revision.get());
    kept.push(revision);
    end
}
