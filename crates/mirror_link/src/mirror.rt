//! Mirrors.

ghost use Rattle.std.specs.Prelude.{◌≡◌, ◌++◌, ℕ, ◌≤◌, List, [], IsNone, IfOk, IfSome, OnOk, None, true};
ghost use Rattle.rev_front.specs.Passes.{idle_author};
ghost use Rattle.line_stream.specs.AskAnswers.{Asks};
ghost use Rattle.edge_io.specs.Sent.{sent_through};
ghost use Rattle.edge_io.specs.Told.{prepended};
ghost use Rattle.line_stream.specs.Readers.{HoldsLine};
ghost use Rattle.mirror_law.specs.Mirrors.{IsMirrorOf};
ghost use Rattle.mirror_link.specs.Beginning.{Begins, IsBegun, resume_request};
ghost use Rattle.mirror_link.specs.Hearing.{FollowsIn, Hears};
ghost use Rattle.mirror_link.specs.Peers.{IsAskOf, IsPeer};
ghost use Rattle.mirror_link.specs.Refusals as refusals;
ghost use Rattle.mirror_link.specs.Reopening.{Reopens, TakesOpening, opening_request};
ghost use Rattle.mirror_link.specs.Views.{IsMoved};
ghost use Rattle.mirror_link.specs.Asking.{CountsReads, IsAsked};
ghost use Rattle.mirror_link.specs.Openings.{IsOpeningOf, opened_lines};
ghost use Rattle.mirror_link.specs.Reading.{Opens};
ghost use Rattle.rev_log.specs.Changes.{RevisionData};
ghost use Rattle.rev_log.specs.Logs.{IsLog, Log, end_of, grown};
ghost use Rattle.up_api.specs.Sections.{Learns, log_upto};
ghost use Rattle.watch_rules.specs.Bodies.{BeginsBody};
ghost use Rattle.watch_rules.specs.declared.ask.WatchAsk.{WatchAsk as Ask};

use crate::Heard;
use crate::lines::take_line;
use crate::link_refusal::LinkNo;
use crate::opening::{Opening, Parts};
use crate::refusals::{kept_answer, rebasing_refusal};
use edge_io::{Sink, Source};
use kube_meta::{Memory, Text};
use line_stream::{AskNo, LineReader, MOST_LINE, Start, Step, ask_watch};
use mirror_log::MirrorLog;
use rev_front::{Author, Blank};
use rev_log::Revision;
use std::alloc::Global;
use std::marker::Model;
use std::sync::Wait;
use up_api::LogFacts;
use up_store::StoreDoor;
use watch_lines::lines_read_back;

/// The most revisions without a line before one.
const MOST_GAP: u64 = 1_000_000;

/// A mirror of a peer's pods: a store of its own, whose log is what the peer's watch tells.
#[derive(Drop)]
pub struct Mirror<N: LogFacts, R: Wait + Copy> {
    alloc: Global,
    label: Text,
    field: Text,
    log: MirrorLog<N, R>,
    reader: LineReader,
    answer: Option<Result<Heard, LinkNo>>,
}

impl<N: LogFacts, R: Wait + Copy> Model for Mirror<N, R> {
    ghost use Rattle.mirror_link.specs.Views.{MirrorData, IsMirror};

    ghost Value = { MirrorData };

    ghost view = { λ m. record {
      selection = m.log.selection;
      most_gap = m.log.most_gap;
      label = m.label;
      field = m.field;
      told = m.log.told;
      log = m.log.log;
      kept = m.log.kept;
      reading = m.reader.at;
      answer = m.answer;
    } };

    ghost invariant = { λ m. IsMirror (record {
      selection = m.log.selection;
      most_gap = m.log.most_gap;
      label = m.label;
      field = m.field;
      told = m.log.told;
      log = m.log.log;
      kept = m.log.kept;
      reading = m.reader.at;
      answer = m.answer;
    }) };
}

impl<N: LogFacts, R: Wait + Copy> Mirror<N, R> {
    /// Lets the mirror go, and with it the door to its log.
    pub fn close(self) {
        drop(self);
    }

    /// A mirror that begins with an opening. Its store keeps `history` revisions at least.
    pub fn new(
        rt: R,
        alloc: Global,
        opening: Opening,
        blank: Blank<Revision>,
        history: u64,
    ) -> Result<Mirror<N, R>, Memory>
        requires name { blank ≡ N.log }
        requires first { blank.first ≡ opening.base }
        requires base { N.base ≡ opening.rows }
        requires mirror { N.mirror ≡ true }
        requires history { 1 ≤ history }
        ensures begins { IfOk result (IsBegun opening) }
        ensures follows { IfOk result (λ m. (peer : Log) (ask : Ask) (log_floor low : ℕ) →
            IsPeer peer m.selection → IsAskOf m.selection ask opening.base (opened_lines opening) →
            BeginsBody peer log_floor low ask opening.base (opened_lines opening) →
            FollowsIn peer opening.base opening.base (opened_lines opening) m) }
    {
        let base = opening.base();
        let Parts {
            selection,
            label,
            field,
            rows,
            reader,
        } = opening.into_parts();
        let log = MirrorLog::new(rt, alloc, selection, rows, base, blank, history, MOST_GAP)?;
        Ok(Mirror {
            alloc,
            label,
            field,
            log,
            reader,
            answer: None,
        })
    }

    /// Another door to the mirror's store.
    pub fn door(&self) -> Result<StoreDoor<N, R>, Memory> {
        self.log.door()
    }

    /// So many parts of the right to change the mirror's log, for its clients. None where there are no more.
    pub fn author(&mut self, parts: u64) -> Option<Author<N>>
        requires { 1 ≤ parts }
        ensures author { IfSome result (λ author. author ≡ idle_author parts) }
        ensures same { self.new ≡ self.old }
    {
        self.log.author(parts)
    }

    /// The end of the mirror's log, which is the base and the revisions that this mirror has committed.
    pub fn to(&self) -> u64
        ensures answer { result ≡ end_of self.now.log }
        ensures seen { self.now.log ≡ log_upto N.base self.now.told result }
        ensures lawful { IsLog self.now.log }
    {
        self.log.to()
    }

    // Hears one line.
    fn hear<S: Source>(&mut self, source: &mut S) -> Result<Heard, LinkNo>
        ensures hears { (taken : List ℕ) × (S.left source.old ≡ prepended taken (S.left source.new))
            × Hears self.old taken (S.left source.new) result self.new }
        ensures idle { HoldsLine self.old.reading → source.new ≡ source.old }
        ensures moved { IsMoved self.old self.new }
        ensures counted { CountsReads result (S.faults source.old) (S.faults source.new) }
    {
        lines_read_back();
        match self.reader.next_line(source) {
            Ok(Step::Line) => take_line(self.alloc, &mut self.log, self.reader.line()),
            Ok(Step::Over) => Ok(Heard::Ended { to: self.log.to() }),
            Err(fault) => Err(LinkNo::from(fault)),
        }
    }

    /// Hears one line of the peer's stream. After a refusal, or the stream's end, it gives that answer again until
    /// [`Mirror::resume`].
    pub fn next<S: Source>(&mut self, source: &mut S) -> Result<Heard, LinkNo>
        ensures repeats { IfSome self.old.answer (λ answer. (result ≡ answer) × (self.new ≡ self.old) × (source.new ≡ source.old)) }
        ensures hears { IsNone self.old.answer → (taken : List ℕ) × (S.left source.old ≡ prepended taken (S.left source.new))
            × Hears self.old taken (S.left source.new) result self.new }
        ensures keeps { IsNone self.old.answer → self.new.answer ≡ refusals.kept_answer result }
        ensures idle { HoldsLine self.old.reading → source.new ≡ source.old }
        ensures onward { (more : List RevisionData) × (self.new.log ≡ grown self.old.log more) }
        ensures counted { IsNone self.old.answer → CountsReads result (S.faults source.old) (S.faults source.new) }
    {
        if let Some(answer) = self.answer {
            return answer;
        }
        let heard = self.hear(source);
        self.answer = kept_answer(heard);
        heard
    }

    // Writes the request for what follows the log.
    fn send_request<K: Sink>(&self, sink: &mut K) -> Result<(), AskNo>
        ensures { Asks result (resume_request self.now) (sent_through K.written K.settled K.faults sink.old sink.new) }
    {
        let start = Start::Revision(self.log.to());
        ask_watch(
            self.alloc,
            &self.log.selection().ns,
            start,
            self.label.as_str(),
            self.field.as_str(),
            sink,
        )
    }

    // Asks for the stream again, and reads up to its body.
    fn ask<S: Source, K: Sink>(&mut self, source: &mut S, sink: &mut K) -> Result<(), LinkNo>
        requires kept { (self.old.reading.kept ≡ []) × (self.old.reading.room ≡ None) }
        ensures asks { IsAsked result (resume_request self.old) (sent_through K.written K.settled K.faults sink.old sink.new) }
        ensures reads { (taken : List ℕ) × (S.left source.old ≡ prepended taken (S.left source.new))
            × Begins taken (S.left source.new) result self.new.reading }
        ensures rest { self.new ≡ record self.old { reading = self.new.reading } }
        ensures read_faults { CountsReads result (S.faults source.old) (S.faults source.new) }
    {
        match self.send_request(sink) {
            Ok(()) => {}
            Err(fault) => return Err(LinkNo::from(fault)),
        }
        match self.reader.read_head(source) {
            Ok(()) => {}
            Err(fault) => return Err(LinkNo::from(fault)),
        }
        Ok(())
    }

    /// Asks for the stream again over a new connection: a watch from the end of the mirror's log. What was read beyond,
    /// an unfinished line and the lines that are kept are forgotten, since the peer sends what is above that end again.
    pub fn resume<S: Source, K: Sink>(&mut self, source: &mut S, sink: &mut K) -> Result<(), LinkNo>
        ensures asks { IsAsked result (resume_request self.old) (sent_through K.written K.settled K.faults sink.old sink.new) }
        ensures reads { (taken : List ℕ) × (S.left source.old ≡ prepended taken (S.left source.new))
            × Begins taken (S.left source.new) result self.new.reading }
        ensures log { self.new.log ≡ self.old.log }
        ensures forgets { self.new.kept ≡ [] }
        ensures same { (self.new.selection ≡ self.old.selection) × (self.new.label ≡ self.old.label)
            × (self.new.field ≡ self.old.field) × (self.new.told ≡ self.old.told) }
        ensures answer { self.new.answer ≡ refusals.asked_answer result }
        ensures follows { OnOk result ((peer : Log) (b : ℕ) → IsMirrorOf peer self.old.selection b self.old.log →
            FollowsIn peer b (end_of self.old.log) [] self.new) }
        ensures read_faults { CountsReads result (S.faults source.old) (S.faults source.new) }
    {
        self.log.forget();
        self.reader = LineReader::open(self.alloc, 0, MOST_LINE);
        self.reader.unbound();
        let asked = self.ask(source, sink);
        self.answer = match asked {
            Ok(()) => None,
            Err(why) => Some(Err(why)),
        };
        asked
    }

    // Reads the peer's opening, for the mirror's own selection.
    fn read_opening<S: Source, K: Sink>(
        &self,
        source: &mut S,
        sink: &mut K,
    ) -> Result<Opening, LinkNo>
        ensures asks { IsAsked result (opening_request self.now) (sent_through K.written K.settled K.faults sink.old sink.new) }
        ensures reads { (taken : List ℕ) × (S.left source.old ≡ prepended taken (S.left source.new))
            × Opens self.now.selection taken (S.left source.new) result }
        ensures kept { IfOk result (λ o. o.selection ≡ self.now.selection) }
        ensures read_faults { CountsReads result (S.faults source.old) (S.faults source.new) }
    {
        let Ok(selection) = self.log.selection().copy(self.alloc) else {
            return Err(LinkNo::Memory);
        };
        let (label, field) = (self.label.as_str(), self.field.as_str());
        Opening::read(self.alloc, selection, label, field, source, sink)
    }

    // Goes on from an opening of its selection.
    fn take_opening(&mut self, opening: Opening) -> Result<(), LinkNo>
        requires { opening.selection ≡ self.old.selection }
        ensures lawful { IsOpeningOf opening }
        ensures learns { Learns self.old.told self.new.told }
        ensures takes { TakesOpening self.old opening result self.new }
        ensures answer { self.new.answer ≡ refusals.asked_answer result }
    {
        let base = opening.base();
        let parts = opening.into_parts();
        let to = self.log.to();
        match self.log.rebase(&parts.rows, base) {
            Ok(_) => {
                // That this is a log, the proof learns where it reads the end.
                self.log.to();
                self.reader = parts.reader;
                self.answer = None;
                Ok(())
            }
            Err(why) => {
                let why = rebasing_refusal(to, why);
                self.answer = Some(Err(why));
                Err(why)
            }
        }
    }

    /// Begins anew over a new connection: asks the peer for its pods as they are now, takes the log to them in one
    /// step, and goes on behind them. What the log has in between was never served, and nothing below the new base is
    /// any more. An opening that is behind the log's end, or doesn't fit what stands there, is of another log:
    /// [`LinkNo::OtherLog`].
    pub fn reopen<S: Source, K: Sink>(&mut self, source: &mut S, sink: &mut K) -> Result<(), LinkNo>
        ensures asks { IsAsked result (opening_request self.old) (sent_through K.written K.settled K.faults sink.old sink.new) }
        ensures reads { (taken : List ℕ) × (S.left source.old ≡ prepended taken (S.left source.new))
            × Reopens self.old taken (S.left source.new) result self.new }
        ensures learns { Learns self.old.told self.new.told }
        ensures answer { self.new.answer ≡ refusals.asked_answer result }
        ensures read_faults { CountsReads result (S.faults source.old) (S.faults source.new) }
    {
        match self.read_opening(source, sink) {
            Ok(opening) => self.take_opening(opening),
            Err(why) => {
                self.answer = Some(Err(why));
                Err(why)
            }
        }
    }
}
