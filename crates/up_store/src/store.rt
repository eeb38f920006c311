//! The store.

ghost use Rattle.std.specs.Prelude.{◌≡◌, ◌≤◌, ◌^◌, [], false, length, IfOk};
ghost use Rattle.kube_meta.specs.Rows.{AreRising};
ghost use Rattle.rev_front.specs.Passes.{Covers, IsWhole, empty_log, idle_author, ordered, pass_from, revision, whole_right};
ghost use Rattle.rev_log.specs.Logs.{Fits};
ghost use Rattle.up_api.specs.Sections.{Learns};
ghost use Rattle.up_store.specs.Replies.{IsCutReply, IsCompactionReply};
ghost use Rattle.up_store.specs.Stores.{HasMet, KnowsAll, obeyed, trimmed_to, usual_bytes, IsCutAnswer, IsCompactionAnswer};

use crate::OpNo;
use crate::committing::{compact, cut, raise};
use crate::kept::Kept;
use crate::tables::Tables;
use kube_meta::{Memory, Row};
use rev_front::{Author, Blank, Pen, start};
use rev_log::Revision;
use std::alloc::Global;
use std::collections::VecDeque;
use std::marker::Model;
use up_api::{LogFacts, Pass};

/// The greatest revision, and the greatest generation of feeds: 2 ^ 62.
pub(crate) const LAST: u64 = 1 << 62;

// The bytes to which a store is trimmed unless it is told others: 256 MiB.
const USUAL_BYTES: u64 = 1 << 28;

/// The store of an API server: one log of what was accepted. Contracts see the whole log; the code keeps the rows at
/// the compaction floor and at the log's end, and the revisions with changes after the floor. Each call that takes a
/// pass is one section, after which the pass knows the whole log.
#[derive(Drop)]
pub struct Store<N: LogFacts> {
    pub(crate) alloc: Global,
    pub(crate) pen: Pen<Revision, N>,
    pub(crate) kept: Kept,
    // Whether the log is a mirror's, which takes its revisions from its peer alone.
    pub(crate) mirror: bool,
    // How many revisions the floor is behind the log's end at most, once the log is longer than that. Where the log
    // follows a peer's, those at which nothing changes don't count.
    pub(crate) history: u64,
    // How many bytes those carry at most, once `trim` was called.
    pub(crate) bytes: u64,
    pub(crate) reads: u64,
}

impl<N: LogFacts> Model for Store<N> {
    ghost use Rattle.up_store.specs.Stores.{StoreData, IsStore};

    ghost Value = { StoreData };

    ghost view = { λ s. record { whole = s.pen; history = s.history; bytes = s.bytes; reads = s.reads } };

    ghost invariant = { λ s. IsStore N.base N.mirror s.pen s.kept s.mirror s.history s.reads };
}

impl<N: LogFacts> Store<N> {
    /// The store of a new log, whose floor follows its end `history` revisions behind, and the right to commit to it.
    pub fn new(
        alloc: Global,
        blank: Blank<Revision>,
        history: u64,
    ) -> Result<(Store<N>, Author<N>), Memory>
        requires name { blank ≡ N.log }
        requires base { N.base ≡ [] }
        requires own { N.mirror ≡ false }
        requires history { 1 ≤ history }
        ensures store { IfOk result (λ r. r.0 ≡ record { whole = empty_log N.log.first; history = history; bytes = usual_bytes; reads = 0 }) }
        ensures author { IfOk result (λ r. r.1 ≡ idle_author whole_right) }
    {
        Store::open(alloc, blank, Vec::new(alloc), false, history)
    }

    // The store of a new log that begins with these pods, and the right to commit to it.
    pub(crate) fn open(
        alloc: Global,
        blank: Blank<Revision>,
        pods: Vec<Row>,
        mirror: bool,
        history: u64,
    ) -> Result<(Store<N>, Author<N>), Memory>
        requires name { blank ≡ N.log }
        requires base { N.base ≡ pods.items }
        requires rising { AreRising pods.items }
        requires mirror { mirror ≡ N.mirror }
        requires history { 1 ≤ history }
        ensures store { IfOk result (λ r. r.0 ≡ record { whole = empty_log N.log.first; history = history; bytes = usual_bytes; reads = 0 }) }
        ensures author { IfOk result (λ r. r.1 ≡ idle_author whole_right) }
    {
        let floor_rows = Tables::of_pods(alloc, pods)?;
        let last_rows = floor_rows.copy()?;
        let (pen, author): (Pen<Revision, N>, Author<N>) = start(blank);
        let first = pen.revision();
        let kept = Kept {
            from: first,
            revisions: VecDeque::new(alloc),
            bytes: 0,
            end: first,
            floor_rows,
            last_rows,
            last_at: first,
        };
        let store = Store {
            alloc,
            pen,
            kept,
            mirror,
            history,
            bytes: USUAL_BYTES,
            reads: 0,
        };
        Ok((store, author))
    }

    /// A pass that knows the whole log.
    pub fn pass(&mut self) -> Result<Pass<N>, Memory>
        ensures same { self.new ≡ self.old }
        ensures pass { IfOk result (λ p. p ≡ pass_from self.old.whole p.seat) }
    {
        Ok(self.pen.front()?)
    }

    /// Tells a pass the whole log.
    pub fn tell(&mut self, told: &mut Pass<N>)
        ensures same { self.new ≡ self.old }
        ensures covered { Covers self.old.whole told.old }
        ensures learns { Learns told.old told.new }
        ensures tells { KnowsAll self.new.whole told.new }
    {
        meet(&mut self.pen, told);
    }

    /// Tells a pass the whole log, and shows that the author that has all parts of the right to commit has committed
    /// all of it, and no other more than there is.
    pub fn audit(&mut self, told: &mut Pass<N>, author: &mut Author<N>)
        ensures same { self.new ≡ self.old }
        ensures learns { Learns told.old told.new }
        ensures tells { KnowsAll self.new.whole told.new }
        ensures author { author.new ≡ author.old }
        ensures within { author.old.own ≤ length told.new.seen }
        ensures all { author.old.parts ≡ whole_right → author.old.own ≡ length told.new.seen }
    {
        meet(&mut self.pen, told);
        self.pen.audit(author);
    }

    /// The revision that the log has reached.
    pub fn revision(&self) -> u64
        ensures answer { result ≡ revision self.now.whole }
        ensures lawful { IsWhole Fits self.now.whole }
        ensures name { self.now.whole.first ≡ N.log.first }
    {
        self.pen.revision()
    }

    /// How many times states and histories were read, refused calls included, up to 2 ^ 62.
    pub fn reads(&self) -> u64
        ensures answer { result ≡ self.now.reads }
        ensures fits { result ≤ 2 ^ 62 }
    {
        self.reads
    }

    /// Bounds the bytes that the revisions above the floor carry, behind each `trim`. It is an order.
    pub fn bound_bytes(&mut self, bytes: u64, author: &mut Author<N>)
        ensures bytes { self.new ≡ record self.old { bytes = bytes } }
        ensures author { author.new ≡ ordered author.old }
    {
        self.pen.obey(author);
        self.bytes = bytes;
    }

    /// Lets the floor follow the bytes, as far as the bound asks for it; the last revision with changes stays above it.
    /// What falls below it is given up as far as there is memory for that.
    pub fn trim(&mut self)
        ensures { self.new ≡ record self.old { whole = trimmed_to self.old.bytes self.old.whole } }
    {
        let floor = self.pen.floor().max(self.kept.floor_within(self.bytes));
        let _ = raise(&mut self.pen, &mut self.kept, floor);
    }

    /// Cuts all feeds: their next polls are refused. Answers the new generation of feeds. It takes no memory.
    pub fn drop_feeds(&mut self, told: &mut Pass<N>, author: &mut Author<N>) -> Result<u64, OpNo>
        ensures covered { Covers self.old.whole told.old }
        ensures learns { Learns told.old told.new }
        ensures tells { KnowsAll self.new.whole told.new }
        ensures answer { IsCutAnswer self.old.whole self.new.whole result }
        ensures reply { IsCutReply told.old result told.new }
        ensures author { author.new ≡ obeyed result author.old }
        ensures rest { self.new ≡ record self.old { whole = self.new.whole } }
    {
        meet(&mut self.pen, told);
        let answer = cut(&mut self.pen, author);
        meet(&mut self.pen, told);
        answer
    }

    /// Compacts the log: states and feeds below the revision `at` are refused from then on. Answers the floor. That
    /// needs no memory; what falls below the floor is given up as far as there is memory for that.
    pub fn compact(
        &mut self,
        at: u64,
        told: &mut Pass<N>,
        author: &mut Author<N>,
    ) -> Result<u64, OpNo>
        ensures covered { Covers self.old.whole told.old }
        ensures learns { Learns told.old told.new }
        ensures tells { KnowsAll self.new.whole told.new }
        ensures answer { IsCompactionAnswer at self.old.whole self.new.whole result }
        ensures reply { IsCompactionReply at told.old result told.new }
        ensures author { author.new ≡ obeyed result author.old }
        ensures rest { self.new ≡ record self.old { whole = self.new.whole } }
    {
        meet(&mut self.pen, told);
        let answer = compact(&mut self.pen, author, &mut self.kept, at);
        meet(&mut self.pen, told);
        answer
    }
}

/// One section's learning: the pen learns what the pass knows, and the pass what the pen does.
pub(crate) fn meet<N: LogFacts>(pen: &mut Pen<Revision, N>, told: &mut Pass<N>)
    ensures same { pen.new ≡ pen.old }
    ensures met { HasMet pen.old told.old told.new }
{
    pen.meet(told);
}
