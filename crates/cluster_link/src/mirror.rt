//! Mirrors of clusters.

ghost use Rattle.std.specs.Prelude.{◌≡◌, ◌++◌, ◌≤◌, ℕ, List, [], IsNone, IfOk, IfSome, MatchResult, OnOk, true};
ghost use Rattle.rev_front.specs.Passes.{idle_author};
ghost use Rattle.edge_io.specs.Sent.{sent_through};
ghost use Rattle.edge_io.specs.Told.{prepended};
ghost use Rattle.line_stream.specs.AskAnswers.{Asks};
ghost use Rattle.line_stream.specs.Readers.{HoldsLine};
ghost use Rattle.mirror_law.specs.Mirrors.{IsMirrorOf};
ghost use Rattle.rev_log.specs.Changes.{RevisionData};
ghost use Rattle.rev_log.specs.Logs.{IsLog, Log, end_of, grown};
ghost use Rattle.up_api.specs.Sections.{Learns, log_upto};
ghost use Rattle.cluster_link.specs.Counting.{CountsSource, IsRequested};
ghost use Rattle.cluster_link.specs.Lists.{AnswersList, IsClusterList};
ghost use Rattle.cluster_link.specs.Mirroring.{FollowsCluster, unread};
ghost use Rattle.cluster_link.specs.Refusals as refusals;
ghost use Rattle.cluster_link.specs.Relisting.{IsBegunWith, IsEmptyFor, IsNotBegun, Relists, TakesList};
ghost use Rattle.cluster_link.specs.Resuming.{BeginsStream, stream_request};
ghost use Rattle.cluster_link.specs.Telling.{HearsCluster, HearsOnward};

use crate::finding::{Finding, find};
use crate::lines::hear_text;
use crate::naming::named;
use crate::readers::new_reader;
use crate::refusals::{reply_refusal, request_refusal, resumed_answer, standing_answer};
use crate::{ClusterList, ClusterNo, Heard};
use edge_io::{Sink, Source};
use kube_meta::Memory;
use line_stream::{AskNo, LineReader, Step, ask_changes};
use mirror_log::MirrorLog;
use rev_front::{Author, Blank};
use rev_log::Revision;
use std::alloc::Global;
use std::marker::Model;
use std::sync::Wait;
use up_api::LogFacts;
use up_store::StoreDoor;
use watch_lines::texts_tell_one_line;

/// The most revisions without a line before one: as many as there are.
const MOST_GAP: u64 = 4_611_686_018_427_387_904;

/// The first revision of its log.
const FIRST: u64 = 1;

/// A mirror of a resource of a cluster: a store of its own, whose log is what the cluster's lists and watches tell.
#[derive(Drop)]
pub struct ClusterMirror<N: LogFacts, R: Wait + Copy> {
    alloc: Global,
    log: MirrorLog<N, R>,
    reader: LineReader,
    answer: Option<Result<Heard, ClusterNo>>,
    finding: Option<Finding>,
}

impl<N: LogFacts, R: Wait + Copy> Model for ClusterMirror<N, R> {
    ghost use Rattle.cluster_link.specs.Mirroring.{ClusterData, IsClusterMirror};

    ghost Value = { ClusterData };

    ghost view = { λ m. record {
      selection = m.log.selection;
      most_gap = m.log.most_gap;
      told = m.log.told;
      log = m.log.log;
      kept = m.log.kept;
      reading = m.reader.at;
      answer = m.answer;
    } };

    ghost invariant = { λ m. IsClusterMirror (record {
      selection = m.log.selection;
      most_gap = m.log.most_gap;
      told = m.log.told;
      log = m.log.log;
      kept = m.log.kept;
      reading = m.reader.at;
      answer = m.answer;
    }) };
}

impl<N: LogFacts, R: Wait + Copy> ClusterMirror<N, R> {
    /// Lets the mirror go, and with it the door to its log.
    pub fn close(self) {
        drop(self);
    }

    /// A mirror that begins with a list: its log is empty at revision 1, and is taken to the list. Its store keeps
    /// `history` revisions at least. No stream was asked for yet: that is for [`ClusterMirror::resume`].
    pub fn new(
        rt: R,
        alloc: Global,
        list: &ClusterList,
        blank: Blank<Revision>,
        history: u64,
    ) -> Result<ClusterMirror<N, R>, ClusterNo>
        requires name { blank ≡ N.log }
        requires first { blank.first ≡ 1 }
        requires base { N.base ≡ [] }
        requires mirror { N.mirror ≡ true }
        requires history { 1 ≤ history }
        ensures { MatchResult result (IsBegunWith list.now) (IsNotBegun list.now) }
    {
        let Ok(mut mirror) = ClusterMirror::<N, R>::empty(rt, alloc, list, blank, history) else {
            return Err(ClusterNo::Memory);
        };
        match mirror.take(list) {
            Ok(()) => Ok(mirror),
            Err(why) => Err(why),
        }
    }

    // One of an empty log.
    fn empty(
        rt: R,
        alloc: Global,
        list: &ClusterList,
        blank: Blank<Revision>,
        history: u64,
    ) -> Result<ClusterMirror<N, R>, Memory>
        requires name { blank ≡ N.log }
        requires first { blank.first ≡ 1 }
        requires base { N.base ≡ [] }
        requires mirror { N.mirror ≡ true }
        requires history { 1 ≤ history }
        ensures { IfOk result (IsEmptyFor list.now) }
    {
        let selection = list.selection().copy(alloc)?;
        let rows = Vec::new(alloc);
        let log = MirrorLog::new(rt, alloc, selection, rows, FIRST, blank, history, MOST_GAP)?;
        Ok(ClusterMirror {
            alloc,
            log,
            reader: new_reader(alloc),
            answer: Some(Ok(Heard::Ended { to: FIRST })),
            finding: None,
        })
    }

    /// Another door to the mirror's store.
    pub fn door(&self) -> Result<StoreDoor<N, R>, Memory> {
        self.log.door()
    }

    /// So many parts of the right to change the mirror's log, for its clients. None where there are no more.
    pub fn author(&mut self, parts: u64) -> Option<Author<N>>
        requires { 1 ≤ parts }
        ensures author { IfSome result (λ author. author ≡ idle_author parts) }
        ensures same { self.new ≡ self.old }
    {
        self.log.author(parts)
    }

    /// The end of the mirror's log, which is the base and the revisions that this mirror has committed.
    pub fn to(&self) -> u64
        ensures answer { result ≡ end_of self.now.log }
        ensures seen { self.now.log ≡ log_upto N.base self.now.told result }
        ensures lawful { IsLog self.now.log }
    {
        self.log.to()
    }

    /// What was found in the last line or page that was none, or the row that isn't the one that stands.
    pub fn finding(&self) -> Option<&Finding> {
        self.finding.as_ref()
    }

    // Hears one line.
    fn hear<S: Source>(&mut self, source: &mut S) -> Result<Heard, ClusterNo>
        ensures hears { (taken : List ℕ) × (S.left source.old ≡ prepended taken (S.left source.new))
            × HearsCluster self.old taken (S.left source.new) result self.new }
        ensures idle { HoldsLine self.old.reading → source.new ≡ source.old }
        ensures onward { HearsOnward self.old self.new }
        ensures counted { CountsSource result (S.faults source.old) (S.faults source.new) }
    {
        texts_tell_one_line();
        match self.reader.next_line(source) {
            Ok(Step::Line) => hear_text(self.alloc, &mut self.log, self.reader.line()),
            Ok(Step::Over) => Ok(Heard::Ended { to: self.log.to() }),
            Err(fault) => Err(reply_refusal(fault)),
        }
    }

    // Notes what is found in a line that is none.
    fn note(&mut self, heard: Result<Heard, ClusterNo>)
        ensures { self.new ≡ self.old }
    {
        match heard {
            Err(ClusterNo::BadLine) => {
                let resource = self.log.selection().resource;
                find(self.alloc, resource, self.reader.line(), &mut self.finding);
            }
            _ => {}
        }
    }

    /// Hears one line of the cluster's stream: an event commits its own revision. After a refusal, or the stream's
    /// end, it gives that answer again until [`ClusterMirror::resume`].
    pub fn next<S: Source>(&mut self, source: &mut S) -> Result<Heard, ClusterNo>
        ensures repeats { IfSome self.old.answer (λ answer. (result ≡ answer) × (self.new ≡ self.old) × (source.new ≡ source.old)) }
        ensures hears { IsNone self.old.answer → (taken : List ℕ) × (S.left source.old ≡ prepended taken (S.left source.new))
            × HearsCluster self.old taken (S.left source.new) result self.new }
        ensures keeps { IsNone self.old.answer → self.new.answer ≡ refusals.standing_answer result }
        ensures idle { HoldsLine self.old.reading → source.new ≡ source.old }
        ensures onward { (more : List RevisionData) × (self.new.log ≡ grown self.old.log more) }
        ensures counted { IsNone self.old.answer → CountsSource result (S.faults source.old) (S.faults source.new) }
    {
        if let Some(answer) = self.answer {
            return answer;
        }
        let heard = self.hear(source);
        self.answer = standing_answer(heard);
        self.note(heard);
        heard
    }

    // Writes the request for what follows the log.
    fn send_request<K: Sink>(&self, sink: &mut K) -> Result<(), AskNo>
        ensures { Asks result (stream_request self.now) (sent_through K.written K.settled K.faults sink.old sink.new) }
    {
        let selection = self.log.selection();
        ask_changes(
            self.alloc,
            selection.resource,
            &selection.ns,
            self.log.to(),
            sink,
        )
    }

    // Asks for the stream, and reads up to its body.
    fn ask<S: Source, K: Sink>(&mut self, source: &mut S, sink: &mut K) -> Result<(), ClusterNo>
        requires { self.old.reading ≡ unread }
        ensures asks { IsRequested result (stream_request self.old) (sent_through K.written K.settled K.faults sink.old sink.new) }
        ensures reads { (taken : List ℕ) × (S.left source.old ≡ prepended taken (S.left source.new))
            × BeginsStream taken (S.left source.new) result self.new.reading }
        ensures rest { self.new ≡ record self.old { reading = self.new.reading } }
        ensures counted { CountsSource result (S.faults source.old) (S.faults source.new) }
    {
        match self.send_request(sink) {
            Ok(()) => {}
            Err(fault) => return Err(request_refusal(fault)),
        }
        match self.reader.read_head(source) {
            Ok(()) => {}
            Err(fault) => return Err(reply_refusal(fault)),
        }
        Ok(())
    }

    /// Asks for the stream over a new connection: a watch from the end of the mirror's log. What was read beyond, an
    /// unfinished line and a line that is kept are forgotten, since the cluster sends what is above that end again.
    pub fn resume<S: Source, K: Sink>(
        &mut self,
        source: &mut S,
        sink: &mut K,
    ) -> Result<(), ClusterNo>
        ensures asks { IsRequested result (stream_request self.old) (sent_through K.written K.settled K.faults sink.old sink.new) }
        ensures reads { (taken : List ℕ) × (S.left source.old ≡ prepended taken (S.left source.new))
            × BeginsStream taken (S.left source.new) result self.new.reading }
        ensures log { self.new.log ≡ self.old.log }
        ensures forgets { self.new.kept ≡ [] }
        ensures same { (self.new.selection ≡ self.old.selection) × (self.new.told ≡ self.old.told) }
        ensures answer { self.new.answer ≡ refusals.resumed_answer result }
        ensures follows { OnOk result ((peer : Log) (b : ℕ) → IsMirrorOf peer self.old.selection b self.old.log →
            FollowsCluster peer b (end_of self.old.log) [] self.new) }
        ensures counted { CountsSource result (S.faults source.old) (S.faults source.new) }
    {
        self.log.forget();
        self.reader = new_reader(self.alloc);
        let asked = self.ask(source, sink);
        self.answer = resumed_answer(asked);
        asked
    }

    // Reads a list, for the mirror's own selection.
    fn read_list<S: Source, K: Sink>(
        &mut self,
        source: &mut S,
        sink: &mut K,
    ) -> Result<ClusterList, ClusterNo>
        ensures reads { (taken : List ℕ) × (S.left source.old ≡ prepended taken (S.left source.new))
            × AnswersList self.old.selection taken (S.left source.new) (sent_through K.written K.settled K.faults sink.old sink.new) result }
        ensures same { self.new ≡ self.old }
        ensures counted { CountsSource result (S.faults source.old) (S.faults source.new) }
    {
        match self.log.selection().copy(self.alloc) {
            Ok(selection) => ClusterList::read(
                self.alloc,
                selection,
                source,
                sink,
                &mut self.finding,
            ),
            Err(_) => Err(ClusterNo::Memory),
        }
    }

    // Goes on from a list of its selection.
    fn take(&mut self, list: &ClusterList) -> Result<(), ClusterNo>
        requires { list.now.selection ≡ self.old.selection }
        ensures lawful { IsClusterList list.now }
        ensures learns { Learns self.old.told self.new.told }
        ensures takes { TakesList self.old list.now result self.new }
    {
        let (to, at) = (self.log.to(), list.at());
        match self.log.rebase(list.rows(), at) {
            Ok(_) => {
                // That this is a log, the proof learns where it reads the end.
                self.log.to();
                self.reader = new_reader(self.alloc);
                self.answer = Some(Ok(Heard::Ended { to: at }));
                Ok(())
            }
            Err(why) => {
                let why = named(&mut self.log, list.rows(), to, at, why, &mut self.finding);
                self.answer = Some(Err(why));
                Err(why)
            }
        }
    }

    /// Begins anew: asks the cluster for its objects as they are now, over a new connection, and takes the log to them
    /// in one step. What the log has in between was never served, and nothing below the list's revision is any more.
    /// No stream was asked for then: that is for [`ClusterMirror::resume`]. A list that is behind the log's end is
    /// refused, and so is one that doesn't fit what stands there.
    pub fn take_list<S: Source, K: Sink>(
        &mut self,
        source: &mut S,
        sink: &mut K,
    ) -> Result<(), ClusterNo>
        ensures reads { (taken : List ℕ) × (S.left source.old ≡ prepended taken (S.left source.new))
            × Relists self.old taken (S.left source.new) (sent_through K.written K.settled K.faults sink.old sink.new) result self.new }
        ensures learns { Learns self.old.told self.new.told }
        ensures counted { CountsSource result (S.faults source.old) (S.faults source.new) }
    {
        match self.read_list(source, sink) {
            Ok(list) => self.take(&list),
            Err(why) => {
                self.answer = Some(Err(why));
                Err(why)
            }
        }
    }
}
