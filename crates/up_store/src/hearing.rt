//! The store of a mirror: its log begins with pods, and its revisions come from a peer.

ghost use Rattle.std.specs.Prelude.{◌≡◌, ◌+◌, ◌-◌, ◌^◌, ◌<◌, ◌≤◌, All, IfOk, true};
ghost use Rattle.kube_meta.specs.Rows.{AreRising};
ghost use Rattle.rev_front.specs.Passes.{Covers, empty_log, idle_author, revision as reached, whole_right};
ghost use Rattle.rev_log.specs.Logs.{Fits};
ghost use Rattle.up_api.specs.Sections.{Learns};
ghost use Rattle.up_store.specs.Hearing.{AreAscending, IsHeard, IsHearAnswer, IsHearReply, IsAddAnswer, IsFollowAnswer, IsFollowReply, IsAnewAnswer, IsAnewReply, extended, filled};
ghost use Rattle.up_store.specs.Kept.{Keeps};
ghost use Rattle.up_store.specs.Stores.{KnowsAll, log_in, paid, paid_for, usual_bytes};

use crate::Store;
use crate::committing::{commit, put_all, raise};
use crate::kept::Kept;
use crate::revisions::{SharedRevision, shared};
use crate::store::meet;
use kube_meta::{Memory, Row};
use rev_front::{Author, Blank, Pen};
use rev_log::Revision;
use std::alloc::Global;
use up_api::{LogFacts, Pass};

/// Why a revision of the peer's log isn't added.
#[derive(Clone, Copy, Debug, PartialEq, Eq)]
pub enum HearNo {
    /// It isn't the one after `at`, the revision of the log's end.
    Passed { at: u64 },
    /// There was no memory. The log is then as it was.
    Memory,
}

impl From<Memory> for HearNo {
    ghost use Rattle.std.specs.Prelude.{◌≡◌};
    ghost use Rattle.up_store.specs.declared.hearing.HearNo.TheVariants as refusals;

    ghost from_gives = { λ _ refusal. refusal ≡ refusals.Memory };

    fn from(_: Memory) -> HearNo {
        HearNo::Memory
    }
}

impl<N: LogFacts> Store<N> {
    /// The store of a mirror's log, which begins with these pods.
    pub fn from_base(
        alloc: Global,
        blank: Blank<Revision>,
        rows: Vec<Row>,
        history: u64,
    ) -> Result<(Store<N>, Author<N>), Memory>
        requires name { blank ≡ N.log }
        requires base { N.base ≡ rows.items }
        requires mirror { N.mirror ≡ true }
        requires rising { AreRising rows.items }
        requires old { All (λ row. row.rev ≤ blank.first) rows.items }
        requires history { 1 ≤ history }
        ensures store { IfOk result (λ r. r.0 ≡ record { whole = empty_log N.log.first; history = history; bytes = usual_bytes; reads = 0 }) }
        ensures author { IfOk result (λ r. r.1 ≡ idle_author whole_right) }
    {
        Store::open(alloc, blank, rows, true, history)
    }

    /// Adds the next revision of the peer's log, and answers its number.
    pub fn hear(
        &mut self,
        revision: Revision,
        told: &mut Pass<N>,
        author: &mut Author<N>,
    ) -> Result<u64, Memory>
        requires mirror { N.mirror ≡ true }
        requires next { revision.rev ≡ reached self.old.whole + 1 }
        requires last { revision.rev ≤ 2 ^ 62 }
        ensures covered { Covers self.old.whole told.old }
        ensures learns { Learns told.old told.new }
        ensures tells { KnowsAll self.new.whole told.new }
        ensures answer { IsHearAnswer self.old.history revision self.old.whole self.new.whole result }
        ensures reply { IfOk result (λ rev. IsHeard N.base told.old revision rev told.new) }
        ensures author { author.new ≡ paid result author.old }
        ensures rest { self.new ≡ record self.old { whole = self.new.whole } }
    {
        meet(&mut self.pen, told);
        let answer = append(
            self.alloc,
            &mut self.pen,
            author,
            &mut self.kept,
            self.history,
            revision,
        );
        meet(&mut self.pen, told);
        answer
    }

    /// Adds a revision of the peer's log, if it is the next one.
    pub fn hear_next(
        &mut self,
        revision: Revision,
        told: &mut Pass<N>,
        author: &mut Author<N>,
    ) -> Result<u64, HearNo>
        requires mirror { N.mirror ≡ true }
        requires last { revision.rev ≤ 2 ^ 62 }
        ensures covered { Covers self.old.whole told.old }
        ensures learns { Learns told.old told.new }
        ensures tells { KnowsAll self.new.whole told.new }
        ensures answer { IsHearAnswer self.old.history revision self.old.whole self.new.whole result }
        ensures reply { IsHearReply N.base told.old revision result told.new }
        ensures author { author.new ≡ paid result author.old }
        ensures rest { self.new ≡ record self.old { whole = self.new.whole } }
    {
        let at = self.pen.revision();
        if revision.rev != at + 1 {
            meet(&mut self.pen, told);
            return Err(HearNo::Passed { at });
        }
        match self.hear(revision, told, author) {
            Ok(rev) => Ok(rev),
            Err(_) => Err(HearNo::Memory),
        }
    }

    /// Adds the revisions of the peer's log that follow `from`, if that is the log's end, up to `to`: these, and all
    /// others between them and behind them, at which nothing changes, in one step for each run. It adds all of them or
    /// none. The floor follows: no more than `history` revisions with changes are above it, and those at which nothing
    /// changes don't count. Answers the log's end.
    pub fn follow(
        &mut self,
        from: u64,
        revisions: Vec<Revision>,
        to: u64,
        told: &mut Pass<N>,
        author: &mut Author<N>,
    ) -> Result<u64, HearNo>
        requires mirror { N.mirror ≡ true }
        requires rising { AreAscending from revisions.items to }
        requires last { to ≤ 2 ^ 62 }
        ensures covered { Covers self.old.whole told.old }
        ensures learns { Learns told.old told.new }
        ensures tells { KnowsAll self.new.whole told.new }
        ensures answer { IsFollowAnswer self.old.history from revisions.items to self.old.whole self.new.whole result }
        ensures reply { IsFollowReply N.base told.old from revisions.items to result told.new }
        ensures author { author.new ≡ paid_for (to - from) result author.old }
        ensures rest { self.new ≡ record self.old { whole = self.new.whole } }
    {
        meet(&mut self.pen, told);
        let answer = append_following(
            self.alloc,
            &mut self.pen,
            author,
            &mut self.kept,
            self.history,
            from,
            revisions,
            to,
        );
        meet(&mut self.pen, told);
        answer
    }

    /// Adds the revisions of the peer's log that follow `from`, as `follow` does, and raises the floor to the last of
    /// them: from then on states and feeds below it are refused.
    pub fn begin_anew(
        &mut self,
        from: u64,
        revisions: Vec<Revision>,
        to: u64,
        told: &mut Pass<N>,
        author: &mut Author<N>,
    ) -> Result<u64, HearNo>
        requires mirror { N.mirror ≡ true }
        requires rising { AreAscending from revisions.items to }
        requires last { to ≤ 2 ^ 62 }
        ensures covered { Covers self.old.whole told.old }
        ensures learns { Learns told.old told.new }
        ensures tells { KnowsAll self.new.whole told.new }
        ensures answer { IsAnewAnswer from revisions.items to self.old.whole self.new.whole result }
        ensures reply { IsAnewReply N.base told.old from revisions.items to result told.new }
        ensures author { author.new ≡ paid_for (to - from) result author.old }
        ensures rest { self.new ≡ record self.old { whole = self.new.whole } }
    {
        meet(&mut self.pen, told);
        let answer = append_anew(
            self.alloc,
            &mut self.pen,
            author,
            &mut self.kept,
            from,
            revisions,
            to,
        );
        meet(&mut self.pen, told);
        answer
    }
}

// Adds the next revision to the log, if there is memory to keep it.
fn append<N: LogFacts>(
    alloc: Global,
    pen: &mut Pen<Revision, N>,
    author: &mut Author<N>,
    kept: &mut Kept,
    history: u64,
    revision: Revision,
) -> Result<u64, Memory>
    requires last { reached pen.old < 2 ^ 62 }
    requires fits { Fits (reached pen.old + 1) revision }
    requires history { 1 ≤ history }
    requires keeps { Keeps (log_in N.base pen.old) pen.old.floor kept.old }
    ensures answer { IsHearAnswer history revision pen.old pen.new result }
    ensures keeps { Keeps (log_in N.base pen.new) pen.new.floor kept.new }
    ensures author { author.new ≡ paid result author.old }
    ensures generation { pen.new.gen ≡ pen.old.gen }
{
    let rev = revision.rev;
    let entry = SharedRevision::new(alloc, revision)?;
    kept.reserve(1)?;
    let _ = commit(pen, author, kept, history, entry);
    Ok(rev)
}

// Adds the revisions that follow the log's end, if there is memory to keep them all. The floor stays.
fn append_all<N: LogFacts>(
    alloc: Global,
    pen: &mut Pen<Revision, N>,
    author: &mut Author<N>,
    kept: &mut Kept,
    from: u64,
    revisions: Vec<Revision>,
    to: u64,
) -> Result<u64, HearNo>
    requires rising { AreAscending from revisions.items to }
    requires last { to ≤ 2 ^ 62 }
    requires keeps { Keeps (log_in N.base pen.old) pen.old.floor kept.old }
    ensures answer { IsAddAnswer from to pen.old (extended pen.old (filled from revisions.items to) pen.old.floor) pen.new result }
    ensures keeps { Keeps (log_in N.base pen.new) pen.new.floor kept.new }
    ensures author { author.new ≡ paid_for (to - from) result author.old }
    ensures generation { pen.new.gen ≡ pen.old.gen }
{
    let at = pen.revision();
    if from != at {
        return Err(HearNo::Passed { at });
    }
    let entries = shared(alloc, revisions)?;
    kept.reserve(entries.len())?;
    put_all(pen, author, kept, entries, to);
    Ok(to)
}

// The same, and the floor follows.
fn append_following<N: LogFacts>(
    alloc: Global,
    pen: &mut Pen<Revision, N>,
    author: &mut Author<N>,
    kept: &mut Kept,
    history: u64,
    from: u64,
    revisions: Vec<Revision>,
    to: u64,
) -> Result<u64, HearNo>
    requires rising { AreAscending from revisions.items to }
    requires last { to ≤ 2 ^ 62 }
    requires keeps { Keeps (log_in N.base pen.old) pen.old.floor kept.old }
    ensures answer { IsFollowAnswer history from revisions.items to pen.old pen.new result }
    ensures keeps { Keeps (log_in N.base pen.new) pen.new.floor kept.new }
    ensures author { author.new ≡ paid_for (to - from) result author.old }
    ensures generation { pen.new.gen ≡ pen.old.gen }
{
    let end = append_all(alloc, pen, author, kept, from, revisions, to)?;
    let floor = pen.floor().max(kept.floor_behind(history));
    let _ = raise(pen, kept, floor);
    Ok(end)
}

// The same, and the floor is raised to the end.
fn append_anew<N: LogFacts>(
    alloc: Global,
    pen: &mut Pen<Revision, N>,
    author: &mut Author<N>,
    kept: &mut Kept,
    from: u64,
    revisions: Vec<Revision>,
    to: u64,
) -> Result<u64, HearNo>
    requires rising { AreAscending from revisions.items to }
    requires last { to ≤ 2 ^ 62 }
    requires keeps { Keeps (log_in N.base pen.old) pen.old.floor kept.old }
    ensures answer { IsAnewAnswer from revisions.items to pen.old pen.new result }
    ensures keeps { Keeps (log_in N.base pen.new) pen.new.floor kept.new }
    ensures author { author.new ≡ paid_for (to - from) result author.old }
    ensures generation { pen.new.gen ≡ pen.old.gen }
{
    let end = append_all(alloc, pen, author, kept, from, revisions, to)?;
    let _ = raise(pen, kept, end);
    Ok(end)
}
