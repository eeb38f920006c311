//! What a record of an unknown log keeps.

use kube_meta::Row;
use std::marker::Model;
use watch_rules::WatchAsk;

/// A later list: its rows, the revision at which they stand, and its place among the record's lists, of which the first
/// has place 0.
#[derive(Debug, Drop)]
pub struct LaterList {
    pub rows: Vec<Row>,
    pub at: u64,
    pub place: u64,
}

impl Model for LaterList {
    ghost use Rattle.watch_record.specs.Between.{LaterData};

    ghost Value = { LaterData };

    ghost view = { λ l. record { rows = l.rows.items; at = l.at; place = l.place } };
}

/// What is known of a log that isn't known itself: the list at the revision of a watch, the lines of the watch's body,
/// and later lists.
#[derive(Drop)]
pub struct Between<'a> {
    /// What the watch asks for.
    pub ask: WatchAsk,
    /// The revision from which it watches, at which the first list stands.
    pub from: u64,
    /// The rows of the first list.
    pub rows: Vec<Row>,
    /// The lines of the body, without their line feeds.
    pub lines: Vec<&'a [u8]>,
    /// The later lists, in the order of their revisions.
    pub later: Vec<LaterList>,
}

impl<'a> Model for Between<'a> {
    ghost use Rattle.std.specs.Prelude.{map};
    ghost use Rattle.std.proofs.Props.{props};
    ghost use Rattle.watch_record.specs.Between.{BetweenData, IsBetweenRead};

    ghost Value = { BetweenData };

    ghost view = { λ b. record { ask = b.ask; from = b.from; rows = b.rows.items; texts = map (λ line. line.now) b.lines.items; later = b.later.items } };

    ghost invariant = { λ b. IsBetweenRead (record { ask = b.ask; from = b.from; rows = b.rows.items; texts = map (λ line. line.now) b.lines.items; later = b.later.items }) };
}
