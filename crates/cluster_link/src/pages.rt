//! The pages of a list.

ghost use Rattle.std.specs.Prelude.{◌≡◌, ◌++◌, ℕ, List, IfSome, MatchBool};
ghost use Rattle.std.specs.String.{string_bytes};
ghost use Rattle.edge_io.specs.Sent.{sent_through};
ghost use Rattle.edge_io.specs.Told.{prepended};
ghost use Rattle.watch_lines.specs.Stored.{IsToldAt};
ghost use Rattle.cluster_link.specs.Counting.{CountsSource};
ghost use Rattle.cluster_link.specs.Pages.{AddsPage, IsOfRevision, IsOfOtherRevision, NextPage, TakesPage, no_pages};
ghost use Rattle.cluster_link.specs.Lists.{AnswersPages};

use crate::ClusterNo;
use crate::finding::{Finding, find};
use crate::readers::new_reader;
use crate::refusals::{reply_refusal, request_refusal};
use edge_io::{Sink, Source};
use kube_meta::{Resource, Row};
use line_stream::{LineReader, ask_page};
use select_all::Selection;
use std::alloc::Global;
use std::marker::Model;
use watch_lines::{Page, pages_are_kept, tell_page};

/// The most bytes of a page.
const MOST_PAGE: u64 = 268_435_456;

/// The most pages of a list.
const MOST_PAGES: u64 = 1_000_000;

/// The pages of a list so far: their rows, their revision, and the token by which the next is asked for.
#[derive(Drop)]
pub(crate) struct Gathered {
    pub(crate) rows: Vec<Row>,
    pub(crate) at: Option<u64>,
    token: String,
}

impl Model for Gathered {
    ghost use Rattle.std.specs.Prelude.{IfSome};
    ghost use Rattle.watch_lines.specs.Stored.{IsToldAt};
    ghost use Rattle.std.specs.String.{string_bytes};
    ghost use Rattle.cluster_link.specs.Pages.{GatheredData};

    ghost Value = { GatheredData };

    ghost view = { λ g. record { rows = g.rows.items; at = g.at; token = string_bytes g.token } };

    ghost invariant = { λ g. IfSome g.at IsToldAt };
}

impl Gathered {
    /// Before the first page.
    pub(crate) fn new(alloc: Global) -> Gathered
        ensures { result ≡ no_pages }
    {
        Gathered {
            rows: Vec::new(alloc),
            at: None,
            token: String::new(alloc),
        }
    }

    /// Its rows and its revision.
    pub(crate) fn into_parts(self) -> (Vec<Row>, Option<u64>)
        ensures parts { (result.0.items ≡ self.rows) × (result.1 ≡ self.at) }
        ensures bounded { IfSome result.1 IsToldAt }
    {
        let Gathered { rows, at, token: _ } = self;
        (rows, at)
    }

    // Whether a page of a revision may follow.
    fn is_of(&self, at: u64) -> bool
        ensures { MatchBool result (IsOfRevision self.now.at at) (IsOfOtherRevision self.now.at at) }
    {
        match self.at {
            Some(before) => before == at,
            None => true,
        }
    }

    // Adds a page, and answers whether more are to come.
    fn add(&mut self, page: Page) -> Result<bool, ClusterNo>
        requires { IsToldAt page.at }
        ensures { AddsPage self.old page.rows.items page.at (string_bytes page.token) result self.new }
    {
        if !self.is_of(page.at) {
            return Err(ClusterNo::MixedPages);
        }
        let Page {
            mut rows,
            at,
            token,
        } = page;
        if self.rows.append(&mut rows).is_err() {
            return Err(ClusterNo::Memory);
        }
        let more = !token.is_empty();
        self.at = Some(at);
        self.token = token;
        Ok(more)
    }
}

// Takes the text of a page, and answers whether more are to come.
fn take_page(
    alloc: Global,
    resource: Resource,
    gathered: &mut Gathered,
    text: &[u8],
    finding: &mut Option<Finding>,
) -> Result<bool, ClusterNo>
    ensures { TakesPage resource gathered.old text.now result gathered.new }
{
    pages_are_kept();
    match tell_page(alloc, resource, text) {
        Ok(Some(page)) => gathered.add(page),
        Ok(None) => {
            find(alloc, resource, text, finding);
            Err(ClusterNo::BadLine)
        }
        Err(_) => Err(ClusterNo::Memory),
    }
}

// Asks for one more page, reads and takes it, and answers whether more are to come.
fn next_page<S: Source, K: Sink>(
    alloc: Global,
    selection: &Selection,
    gathered: &mut Gathered,
    reader: &mut LineReader,
    source: &mut S,
    sink: &mut K,
    finding: &mut Option<Finding>,
) -> Result<bool, ClusterNo>
    ensures reads { (taken : List ℕ) × (S.left source.old ≡ prepended taken (S.left source.new))
        × NextPage selection.now.resource selection.now.ns gathered.old reader.old.at.kept taken (S.left source.new) (sent_through K.written K.settled K.faults sink.old sink.new)
        result gathered.new reader.new.at.kept }
    ensures counted { CountsSource result (S.faults source.old) (S.faults source.new) }
{
    let token = gathered.token.as_str();
    match ask_page(alloc, selection.resource, &selection.ns, token, sink) {
        Ok(()) => {}
        Err(fault) => return Err(request_refusal(fault)),
    }
    match reader.read_body(source, MOST_PAGE) {
        Ok(text) => take_page(
            alloc,
            selection.resource,
            gathered,
            text.as_slice(),
            finding,
        ),
        Err(fault) => Err(reply_refusal(fault)),
    }
}

/// Asks for all pages of a list over a new connection, and reads them.
pub(crate) fn read_pages<S: Source, K: Sink>(
    alloc: Global,
    selection: &Selection,
    gathered: &mut Gathered,
    source: &mut S,
    sink: &mut K,
    finding: &mut Option<Finding>,
) -> Result<(), ClusterNo>
    requires { gathered.old ≡ no_pages }
    ensures reads { (taken : List ℕ) × (S.left source.old ≡ prepended taken (S.left source.new))
        × AnswersPages selection.now taken (S.left source.new) (sent_through K.written K.settled K.faults sink.old sink.new) result gathered.new }
    ensures counted { CountsSource result (S.faults source.old) (S.faults source.new) }
{
    let mut reader = new_reader(alloc);
    for _ in 0..MOST_PAGES {
        match next_page(
            alloc,
            selection,
            gathered,
            &mut reader,
            source,
            sink,
            finding,
        ) {
            Ok(true) => {}
            Ok(false) => return Ok(()),
            Err(why) => return Err(why),
        }
    }
    Err(ClusterNo::TooLong)
}
