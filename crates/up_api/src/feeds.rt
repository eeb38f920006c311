//! What feeds and histories give.

use kube_meta::{Resource, Row};
use rev_log::Revision;
use std::marker::Model;

/// A feed of one resource: complete up to `upto`, and begun in the generation `gen_`.
#[derive(Clone, Copy, Debug, PartialEq, Eq)]
pub struct Feed {
    pub resource: Resource,
    pub upto: u64,
    pub gen_: u64,
}

/// What a poll gave: the revisions above `from` and up to `upto` that changed the resource, each with its changes of
/// that resource alone. That the feed is complete up to `upto` is the progress notice, also where nothing changed.
#[derive(Debug, Drop)]
pub struct Polled {
    pub from: u64,
    pub upto: u64,
    pub revisions: Vec<Revision>,
}

impl Model for Polled {
    ghost use Rattle.up_api.specs.Feeds.{PolledData};

    ghost Value = { PolledData };

    ghost view = { λ p. record { from = p.from; upto = p.upto; revisions = p.revisions.items } };
}

/// What upstream still has of a resource: its rows at the compaction floor, and the revisions after it up to `upto`
/// that changed the resource, each with its changes of that resource alone.
#[derive(Debug, Drop)]
pub struct History {
    pub floor: u64,
    pub rows: Vec<Row>,
    pub revisions: Vec<Revision>,
    pub upto: u64,
}

impl Model for History {
    ghost use Rattle.up_api.specs.Feeds.{HistoryData};

    ghost Value = { HistoryData };

    ghost view = { λ h. record { floor = h.floor; rows = h.rows.items; revisions = h.revisions.items; upto = h.upto } };
}
