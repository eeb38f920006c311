//! What is kept of one lane.

ghost use Rattle.std.specs.Prelude.{◌≡◌, ◌≢◌, ◌≤◌, ◌⊎◌, ◌↔◌, Bool, false, Some, [], ◌∷◌, ◌++◌, map, IfOk, IfSome, IsTrue, is_some, option_map, option_copied};
ghost use Rattle.std.specs.List.{list_any};
ghost use Rattle.rev_front.specs.Passes.{end_from};
ghost use Rattle.select_all.specs.Streams.{transitions};
ghost use Rattle.up_api.specs.Sections.{log_of};
ghost use Rattle.cache_world.specs.Lanes.{unsent, opened_lane};
ghost use Rattle.watch_lane.specs.Batches.{Begins};
ghost use Rattle.cache_hub.specs.Due.{IsPiece, IsPieceIn, IsPieceOf, IsReady, IsWaiting, all_due, due, missed, transition_of};
ghost use Rattle.cache_hub.specs.OpenLanes.{GetsAll, GoesAlong, batch_from, batch_of, told_lane, left_behind, caught_up};

use crate::sleeper::Sleeper;
use bells::{Bell, Calls};
use encode_once::Shown;
use event_ring::Event;
use kube_meta::{Memory, Obj};
use select_all::Selection;
use std::alloc::Global;
use std::marker::Model;
use std::sync::Arc;
use up_api::{LogFacts, Pass};
use watch_lane::{Batch, LaneIn, Line, Piece};

/// A watcher's selection, which other lanes may share, the revision up to which it was told everything, whether it is
/// behind and so gets nothing until it has caught up, the end of its queue, and whom to call, if anybody may rest at
/// the lane.
#[derive(Drop)]
pub(crate) struct OpenLane<N: LogFacts> {
    selection: Arc<Selection>,
    mark: u64,
    behind: bool,
    queue: LaneIn<N>,
    sleeper: Option<Sleeper>,
}

impl<N: LogFacts> Model for OpenLane<N> {
    ghost use Rattle.std.specs.Prelude.{map};
    ghost use Rattle.cache_hub.specs.OpenLanes.{OpenLaneData, batch_of};

    ghost Value = { OpenLaneData };

    ghost view = { λ l. record { lane = record { selection = l.selection.value; mark = l.mark; behind = l.behind }; room = l.queue.capacity; sent = map batch_of l.queue.sent } };
}

impl<N: LogFacts> OpenLane<N> {
    /// A lane that is opened at a position of a cache with this end.
    pub fn new(selection: Arc<Selection>, at: u64, end: u64, queue: LaneIn<N>) -> OpenLane<N>
        ensures { result ≡ record { lane = opened_lane selection.value at end; room = queue.capacity; sent = map batch_of queue.sent } }
    {
        let behind = at < end;
        queue.set_behind(behind);
        OpenLane {
            selection,
            mark: at,
            behind,
            queue,
            sleeper: None,
        }
    }

    /// Calls its watcher by this bell from now on, or nobody. `id` is the lane's number.
    pub fn ring_by(&mut self, id: u64, bell: Option<Arc<Bell>>)
        ensures { self.new ≡ self.old }
    {
        self.sleeper = bell.map(|bell| Sleeper::new(id, bell));
    }

    /// Whether its watcher is called.
    pub fn is_called(&self) -> bool {
        match &self.sleeper {
            Some(sleeper) => sleeper.is_called(),
            None => false,
        }
    }

    /// Hands the bell of its watcher to who rings.
    pub fn hand_over(&mut self, calls: &mut Calls)
        ensures { self.new ≡ self.old }
    {
        if let Some(sleeper) = &mut self.sleeper {
            sleeper.hand_over(calls);
        }
    }

    /// What it has to be told of an event: nothing while it is behind, or where it was told already.
    pub fn due(&self, event: &Event) -> Result<Option<Line>, Memory>
        ensures { IfOk result (λ line. line ≡ due self.now.lane event.entry.now) }
    {
        if self.behind || event.rev <= self.mark {
            return Ok(None);
        }
        line_of(&self.selection, event)
    }

    /// Is told of events, all that came up to `end`: where one concerns the lane, that gets a batch, or is behind.
    /// `last` is the last piece that was made of them for a lane. A lane that goes on with it is told it too, and
    /// nothing is made for that lane; for any other one a piece is made, which is the last one then.
    pub fn tell(
        &mut self,
        alloc: Global,
        events: &[Event],
        end: u64,
        last: &mut Option<Arc<Piece>>,
        told: &mut Pass<N>,
        called: &mut Vec<u64>,
    )
        requires within { end ≤ end_from told.old.first told.old.seen }
        requires ready { IsReady (log_of N.base told.old) end events.now self.old }
        requires last { IsPieceIn (log_of N.base told.old) end (option_map (λ p. p.value) last.old) }
        ensures told { told.new ≡ told.old }
        ensures last { IsPieceIn (log_of N.base told.old) end (option_map (λ p. p.value) last.new) }
        ensures sent { (falls : Bool) × (self.new ≡ told_lane (log_of N.base told.old) end falls self.old) }
    {
        if let Some(piece) = &*last
            && !self.selection.same(&piece.selection)
        {
            *last = None;
        }
        self.tell_along(alloc, events, end, last, told, called);
    }

    /// The same where the last piece is of the lane's selection, which isn't looked at then: with fewer steps from lane
    /// to lane a processor has the next lane's memory at hand in time.
    pub fn tell_along(
        &mut self,
        alloc: Global,
        events: &[Event],
        end: u64,
        last: &mut Option<Arc<Piece>>,
        told: &mut Pass<N>,
        called: &mut Vec<u64>,
    )
        requires within { end ≤ end_from told.old.first told.old.seen }
        requires ready { IsReady (log_of N.base told.old) end events.now self.old }
        requires last { IsPieceOf (log_of N.base told.old) end self.old.lane.selection (option_map (λ p. p.value) last.old) }
        ensures told { told.new ≡ told.old }
        ensures last { IsPieceOf (log_of N.base told.old) end self.old.lane.selection (option_map (λ p. p.value) last.new) }
        ensures sent { (falls : Bool) × (self.new ≡ told_lane (log_of N.base told.old) end falls self.old) }
    {
        if let Some(piece) = &*last
            && self.is_at(piece.from)
        {
            return self.hand(piece, end, told, called);
        }
        let own = self.tell_anew(alloc, events, end, told, called);
        if own.is_some() {
            *last = own;
        }
    }

    // Whether it gets what comes behind a revision.
    fn is_at(&self, from: u64) -> bool
        ensures { IsTrue result ↔ ((self.now.lane.behind ≡ false) × (from ≡ self.now.lane.mark)) }
    {
        !self.behind && from == self.mark
    }

    // Is told of events by a piece of its own, which is the answer.
    fn tell_anew(
        &mut self,
        alloc: Global,
        events: &[Event],
        end: u64,
        told: &mut Pass<N>,
        called: &mut Vec<u64>,
    ) -> Option<Arc<Piece>>
        requires within { end ≤ end_from told.old.first told.old.seen }
        requires ready { IsReady (log_of N.base told.old) end events.now self.old }
        ensures told { told.new ≡ told.old }
        ensures piece { IsPieceOf (log_of N.base told.old) end self.old.lane.selection (option_map (λ p. p.value) result) }
        ensures sent { (falls : Bool) × (self.new ≡ told_lane (log_of N.base told.old) end falls self.old) }
    {
        match self.lines(alloc, events) {
            Ok(lines) => self.take(alloc, lines, end, told, called),
            Err(Memory) => {
                self.miss(events, called);
                None
            }
        }
    }

    // All that it has to be told of events.
    fn lines(&self, alloc: Global, events: &[Event]) -> Result<Vec<Line>, Memory>
        ensures { IfOk result (λ lines. lines.items ≡ all_due self.now.lane events.now) }
    {
        let mut lines = Vec::new(alloc);
        for event in events {
            if let Some(line) = self.due(event)? {
                lines.push(line)?;
            }
        }
        Ok(lines)
    }

    /// Sends what waits for the lane, if anything does. The answer is the piece that was made of it.
    pub fn take(
        &mut self,
        alloc: Global,
        lines: Vec<Line>,
        end: u64,
        told: &mut Pass<N>,
        called: &mut Vec<u64>,
    ) -> Option<Arc<Piece>>
        requires within { end ≤ end_from told.old.first told.old.seen }
        requires waiting { IsWaiting (log_of N.base told.old) end lines.items (Some self.old) }
        ensures told { told.new ≡ told.old }
        ensures piece { IsPieceOf (log_of N.base told.old) end self.old.lane.selection (option_map (λ p. p.value) result) }
        ensures sent { (falls : Bool) × (self.new ≡ told_lane (log_of N.base told.old) end falls self.old) }
    {
        if lines.is_empty() {
            return None;
        }
        self.send(alloc, lines, end, told, called)
    }

    // Sends what came up to `end` as one piece. Where there is no memory for it, the lane is behind.
    fn send(
        &mut self,
        alloc: Global,
        lines: Vec<Line>,
        end: u64,
        told: &mut Pass<N>,
        called: &mut Vec<u64>,
    ) -> Option<Arc<Piece>>
        requires within { end ≤ end_from told.old.first told.old.seen }
        requires in_step { self.old.lane.behind ≡ false }
        requires lines { lines.items ≡ unsent (log_of N.base told.old) end self.old.lane }
        requires some { lines.items ≢ [] }
        ensures told { told.new ≡ told.old }
        ensures piece { IsPieceOf (log_of N.base told.old) end self.old.lane.selection (option_map (λ p. p.value) result) }
        ensures sent { (falls : Bool) × (self.new ≡ told_lane (log_of N.base told.old) end falls self.old) }
    {
        match self.piece(alloc, lines, end) {
            Ok(piece) => {
                self.hand(&piece, end, told, called);
                Some(piece)
            }
            Err(Memory) => {
                self.fall_behind(called);
                None
            }
        }
    }

    // The piece of these lines, from the mark to the end.
    fn piece(&self, alloc: Global, lines: Vec<Line>, end: u64) -> Result<Arc<Piece>, Memory>
        ensures { IfOk result (λ piece. piece.value ≡ record { from = self.now.lane.mark; to = end; selection = self.now.lane.selection; lines = lines.items }) }
    {
        let selection = self.selection.copy(alloc)?;
        let piece = Piece {
            from: self.mark,
            to: end,
            selection,
            lines,
        };
        Ok(Arc::new(alloc, piece)?)
    }

    // Hands a piece over as a batch. Where the queue is full, or there is no memory for the batch, the lane is behind.
    fn hand(&mut self, piece: &Arc<Piece>, end: u64, told: &mut Pass<N>, called: &mut Vec<u64>)
        requires within { end ≤ end_from told.old.first told.old.seen }
        requires in_step { self.old.lane.behind ≡ false }
        requires piece { IsPiece (log_of N.base told.old) end piece.now.value }
        requires begins { Begins piece.now.value self.old.lane.selection self.old.lane.mark }
        ensures told { told.new ≡ told.old }
        ensures sent { (falls : Bool) × (self.new ≡ told_lane (log_of N.base told.old) end falls self.old) }
    {
        match batch_for(piece, told) {
            Ok(batch) => self.push(batch, end, called),
            Err(Memory) => self.fall_behind(called),
        }
    }

    // Pushes a batch that goes to `end`, which is the mark then; or, where the queue is full, the lane is behind. All
    // that is pushed is pushed here. The watcher is called behind the push: one that is rung earlier could find
    // nothing, rest again and sleep beside its batch.
    fn push(&mut self, batch: Batch<N>, end: u64, called: &mut Vec<u64>)
        ensures { (self.new ≡ record self.old { lane = record self.old.lane { mark = end }; sent = self.old.sent ++ batch_of batch ∷ [] }) ⊎ (self.new ≡ left_behind self.old) }
    {
        match self.queue.push(batch) {
            Ok(()) => {
                self.mark = end;
                self.call(called);
            }
            Err(_) => self.fall_behind(called),
        }
    }

    // Is behind. Each lane that is left behind is so by this function. Its watcher is called behind the sign: one that
    // is rung earlier could take its lane for one that has told all, rest again, and be told nothing any more.
    fn fall_behind(&mut self, called: &mut Vec<u64>)
        ensures { self.new ≡ left_behind self.old }
    {
        self.set_behind(true);
        self.call(called);
    }

    // Whether the lane is behind, for those who have the cache's lock, and by the sign for its watcher, who hasn't.
    fn set_behind(&mut self, behind: bool)
        ensures { self.new ≡ record self.old { lane = record self.old.lane { behind = behind } } }
    {
        self.behind = behind;
        self.queue.set_behind(behind);
    }

    // Calls the watcher, if it may rest.
    fn call(&mut self, called: &mut Vec<u64>)
        ensures { self.new ≡ self.old }
    {
        if let Some(sleeper) = &mut self.sleeper {
            sleeper.call(called);
        }
    }

    /// Is behind, if one of the events concerns it.
    pub fn miss(&mut self, events: &[Event], called: &mut Vec<u64>)
        ensures { self.new ≡ missed events.now self.old }
    {
        if self.is_concerned(events) {
            self.fall_behind(called);
        }
    }

    fn is_concerned(&self, events: &[Event]) -> bool
        ensures { result ≡ list_any (λ event. is_some (due self.now.lane event)) events.now }
    {
        for event in events {
            if self.is_due(event) {
                return true;
            }
        }
        false
    }

    fn is_due(&self, event: &Event) -> bool
        ensures { result ≡ is_some (due self.now.lane event.entry.now) }
    {
        !self.behind && self.mark < event.rev && concerns(&self.selection, event)
    }

    /// Is behind.
    pub fn lag(&mut self, called: &mut Vec<u64>)
        ensures { self.new ≡ left_behind self.old }
    {
        self.fall_behind(called);
    }

    /// Whether it is behind.
    pub fn is_behind(&self) -> bool
        ensures { result ≡ self.now.lane.behind }
    {
        self.behind
    }

    /// Whether it is for this selection.
    pub fn is_for(&self, selection: &Selection) -> bool
        ensures { IsTrue result ↔ (self.now.lane.selection ≡ selection.now) }
    {
        self.selection.same(selection)
    }

    /// Its selection, shared once more, where it is this one.
    pub fn share(&self, selection: &Selection) -> Option<Arc<Selection>>
        ensures { IfSome result (λ shared. shared.value ≡ selection.now) }
    {
        if self.is_for(selection) {
            return Arc::try_clone(&self.selection).ok();
        }
        None
    }

    /// Whether the lane is for this selection and isn't behind.
    pub fn gets_all(&self, selection: &Selection) -> bool
        ensures { IsTrue result ↔ GetsAll selection.now (Some self.now) }
    {
        !self.behind && self.is_for(selection)
    }

    /// Whether its watcher, at a position, misses nothing.
    pub fn goes_along(&self, selection: &Selection, at: u64) -> bool
        ensures { IsTrue result ↔ GoesAlong selection.now at (Some self.now) }
    {
        self.mark <= at && self.gets_all(selection)
    }

    /// Takes note that the watcher has caught up to a revision. At the cache's end it isn't behind any longer.
    pub fn catch_up(&mut self, to: u64, end: u64)
        ensures { self.new ≡ caught_up to end self.old }
    {
        if end <= to {
            self.mark = to;
            self.set_behind(false);
        }
    }
}

// The batch of a piece, which is shared once more, with what the pass tells.
fn batch_for<N: LogFacts>(piece: &Arc<Piece>, told: &mut Pass<N>) -> Result<Batch<N>, Memory>
    requires within { piece.now.value.to ≤ end_from told.old.first told.old.seen }
    requires lines_are { piece.now.value.lines ≡ transitions (log_of N.base told.old) piece.now.value.selection piece.now.value.from piece.now.value.to }
    requires some { piece.now.value.lines ≢ [] }
    ensures told { told.new ≡ told.old }
    ensures batch { IfOk result (λ batch. batch_of batch ≡ batch_from piece.now.value) }
{
    let shared = Arc::try_clone(piece)?;
    Ok(Batch::new(shared, told.tell()))
}

/// The line that tells a watch of an event, if it concerns it: the object now, or where that isn't selected the one
/// before, with the revision of the change. The object is shared.
pub(crate) fn line_of(selection: &Selection, event: &Event) -> Result<Option<Line>, Memory>
    ensures { IfOk result (λ line. line ≡ transition_of selection.now event.entry.now) }
{
    let Some(kind) = selection.passes(object(&event.before), object(&event.now)) else {
        return Ok(None);
    };
    match kind.told(event.left.as_ref(), event.now.as_ref()) {
        Some(shown) => Ok(Some(Line {
            kind,
            shown: Arc::try_clone(shown)?,
        })),
        None => Ok(None),
    }
}

// Whether an event concerns a watch.
pub(crate) fn concerns(selection: &Selection, event: &Event) -> bool
    ensures { result ≡ is_some (transition_of selection.now event.entry.now) }
{
    selection
        .passes(object(&event.before), object(&event.now))
        .is_some()
}

/// The object, if there is one.
pub(crate) fn object(shown: &Option<Arc<Shown>>) -> Option<&Obj>
    ensures { option_copied result ≡ option_map (λ s. s.value.obj) shown.now }
{
    match shown {
        Some(shown) => Some(&shown.row().obj),
        None => None,
    }
}
