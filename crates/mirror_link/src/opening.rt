//! Openings.

ghost use Rattle.std.specs.Prelude.{◌≡◌, ◌++◌, ℕ, List, [], ◌≤◌, IfOk, IfSome};
ghost use Rattle.edge_io.specs.Sent.{sent_through};
ghost use Rattle.edge_io.specs.Told.{prepended};
ghost use Rattle.kube_meta.specs.Names.{IsNamespace};
ghost use Rattle.kube_meta.specs.declared.resources.Resource.TheVariants.{Pods};
ghost use Rattle.select_all.specs.Reading.{IsRead};
ghost use Rattle.line_stream.specs.Requests.{request_text};
ghost use Rattle.mirror_link.specs.Asking.{CountsReads, IsAsked};
ghost use Rattle.mirror_link.specs.Openings.{IsOpeningOf};
ghost use Rattle.mirror_link.specs.Reading.{Opens};

use crate::LinkNo;
use crate::opening_lines::read_rows;
use edge_io::{Sink, Source};
use kube_meta::{Row, Text};
use line_stream::{LineReader, MOST_LINE, Start, ask_watch};
use select_all::Selection;
use std::alloc::Global;
use std::marker::Model;

/// The most bytes of data in which an opening has to end.
const MOST_OPENING: u64 = 1_073_741_824;

/// The opening of a peer's stream: its pods at a revision, and where the reading of the stream is. Contracts see both.
#[derive(Debug, Drop)]
pub struct Opening {
    pub(crate) selection: Selection,
    pub(crate) label: Text,
    pub(crate) field: Text,
    pub(crate) rows: Vec<Row>,
    pub(crate) base: u64,
    pub(crate) reader: LineReader,
}

/// The parts of an opening.
#[derive(Debug, Drop)]
pub struct Parts {
    /// Whose pods it has.
    pub selection: Selection,
    /// The text of its label selector.
    pub label: Text,
    /// The text of its field selector.
    pub field: Text,
    /// The pods, in the order of their keys.
    pub rows: Vec<Row>,
    /// The reader of the stream behind them.
    pub reader: LineReader,
}

impl Model for Opening {
    ghost use Rattle.mirror_link.specs.Openings.{OpeningData, IsOpeningOf};

    ghost Value = { OpeningData };

    ghost view = { λ o. record { selection = o.selection; label = o.label; field = o.field; rows = o.rows.items; base = o.base; reading = o.reader.at } };

    ghost invariant = { λ o. IsOpeningOf (record { selection = o.selection; label = o.label; field = o.field; rows = o.rows.items; base = o.base; reading = o.reader.at }) };
}

impl Opening {
    /// Asks a peer for its pods, and reads them up to the bookmark that ends them.
    pub fn read<S: Source, K: Sink>(
        alloc: Global,
        selection: Selection,
        label: &str,
        field: &str,
        source: &mut S,
        sink: &mut K,
    ) -> Result<Opening, LinkNo>
        requires pods { selection.resource ≡ Pods }
        requires read { IsRead Pods selection.ns label.now field.now selection }
        requires namespace { IfSome selection.ns IsNamespace }
        ensures asks { IsAsked result (request_text selection.ns Start.State label.now field.now)
            (sent_through K.written K.settled K.faults sink.old sink.new) }
        ensures reads { (taken : List ℕ) × (S.left source.old ≡ prepended taken (S.left source.new))
            × Opens selection taken (S.left source.new) result }
        ensures kept { IfOk result (λ o. (o.selection ≡ selection) × (o.label ≡ label.now) × (o.field ≡ field.now)) }
        ensures read_faults { CountsReads result (S.faults source.old) (S.faults source.new) }
    {
        let Ok(kept_label) = Text::new(alloc, label) else {
            return Err(LinkNo::Memory);
        };
        let Ok(kept_field) = Text::new(alloc, field) else {
            return Err(LinkNo::Memory);
        };
        match ask_watch(alloc, &selection.ns, Start::State, label, field, sink) {
            Ok(()) => {}
            Err(fault) => return Err(LinkNo::from(fault)),
        }
        let mut reader = LineReader::open(alloc, MOST_OPENING, MOST_LINE);
        let mut rows = Vec::new(alloc);
        let base = match read_rows(alloc, &selection, &mut reader, &mut rows, source) {
            Ok(base) => base,
            Err(why) => return Err(why),
        };
        reader.unbound();
        Ok(Opening {
            selection,
            label: kept_label,
            field: kept_field,
            rows,
            base,
            reader,
        })
    }

    /// The revision at which the rows stand.
    pub fn base(&self) -> u64
        ensures answer { result ≡ self.now.base }
        ensures lawful { IsOpeningOf self.now }
    {
        self.base
    }

    /// Its parts, which a mirror is made of.
    pub fn into_parts(self) -> Parts
        ensures lawful { IsOpeningOf self }
        ensures whose { (result.selection ≡ self.selection) × (result.label ≡ self.label) × (result.field ≡ self.field) }
        ensures rows { result.rows.items ≡ self.rows }
        ensures reading { result.reader.at ≡ self.reading }
    {
        let Opening {
            selection,
            label,
            field,
            rows,
            base: _,
            reader,
        } = self;
        Parts {
            selection,
            label,
            field,
            rows,
            reader,
        }
    }
}
