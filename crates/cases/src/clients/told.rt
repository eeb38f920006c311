//! A watcher that keeps the state that its stream tells.

use crate::clients::asks::{list_ask, watch_ask};
use crate::clients::seat::Seat;
use client_api::{Begun, Client, Line, ListNo, Listed, Took};
use encode_once::Shown;
use kube_meta::{Key, Memory};
use select_all::{Kind, Meaning, Selection};
use std::alloc::Global;
use std::collections::BTreeMap;
use std::sync::Arc;
use watch_rules::Start;

/// How many lines a turn takes, about.
const LINES: usize = 10;

/// What a turn came to.
#[derive(Clone, Copy)]
enum Turn {
    Told,
    Quiet,
    Lost,
}

/// What a stream told so far: the revision of each selected object, by its key, and the revision up to which all is
/// told.
#[derive(Drop)]
pub struct Told {
    alloc: Global,
    selection: Selection,
    rows: BTreeMap<Key, u64>,
    at: u64,
    /// How many things were wrong: a line out of order or of an object that can't be, turns that don't join, a list
    /// that has other objects.
    pub wrongs: u64,
    /// How many lines came.
    pub lines: u64,
}

impl Told {
    /// Nothing is told of the selection yet.
    pub fn new(alloc: Global, selection: Selection) -> Told {
        Told {
            alloc,
            selection,
            rows: BTreeMap::new(alloc),
            at: 0,
            wrongs: 0,
            lines: 0,
        }
    }

    /// Begins a watch with the state that stands, in place of all that was told.
    pub fn begin<C: Client>(&mut self, seat: &mut Seat<C>) -> Result<(), Memory> {
        let start = Start::FromState(Meaning::MostRecent);
        let ask = watch_ask(self.selection.copy(self.alloc)?, start);
        match seat.watch(&ask) {
            Ok(begun) => self.take_begun(&begun),
            Err(_) => Err(Memory),
        }
    }

    // Takes in the state that stands.
    fn take_begun(&mut self, begun: &Begun) -> Result<(), Memory> {
        self.rows.clear();
        for shown in begun.initial.as_slice() {
            self.put(shown)?;
        }
        self.move_to(begun.at);
        Ok(())
    }

    /// Takes in one turn of the watch, which begins anew where it is lost. Answers whether there was nothing to tell.
    pub fn turn<C: Client>(&mut self, seat: &mut Seat<C>) -> Result<bool, Memory> {
        match self.take_turn(&seat.take(LINES)?)? {
            Turn::Told => Ok(false),
            Turn::Quiet => Ok(true),
            Turn::Lost => {
                self.begin(seat)?;
                Ok(false)
            }
        }
    }

    // Takes in what a turn gave.
    fn take_turn(&mut self, took: &Option<Took>) -> Result<Turn, Memory> {
        match took {
            Some(Took::Events { from, upto, lines }) => {
                self.expect(*from == self.at);
                for line in lines.as_slice() {
                    self.take_line(line)?;
                }
                self.move_to(*upto);
                Ok(Turn::Told)
            }
            Some(Took::Quiet { upto, .. }) => {
                self.move_to(*upto);
                Ok(Turn::Quiet)
            }
            Some(Took::Lost { at, floor }) => {
                self.expect(*at == self.at && *at < *floor);
                Ok(Turn::Lost)
            }
            None => {
                self.expect(false);
                Ok(Turn::Quiet)
            }
        }
    }

    // All is told up to a revision, which isn't below the last one.
    fn move_to(&mut self, at: u64) {
        self.expect(self.at <= at);
        self.at = at;
    }

    // Takes in a line: revisions rise, what is added wasn't there, and what is changed or deleted was.
    fn take_line(&mut self, line: &Line) -> Result<(), Memory> {
        let row = line.shown.row();
        let was_there = self.rows.contains_key(&row.obj.key);
        let is_added = line.kind == Kind::Added;
        self.expect(row.rev > self.at && was_there != is_added);
        self.at = row.rev;
        self.lines = self.lines.saturating_add(1);
        if line.kind == Kind::Deleted {
            self.rows.remove(&row.obj.key);
            return Ok(());
        }
        self.put(&line.shown)
    }

    fn put(&mut self, shown: &Arc<Shown>) -> Result<(), Memory> {
        let row = shown.row();
        match self.rows.insert(row.obj.key.clone()?, row.rev) {
            Ok(_) => Ok(()),
            Err(_) => Err(Memory),
        }
    }

    /// Compares what was told with a list at the revision up to which it was. Answers whether that is still listed.
    pub fn compare<C: Client>(&mut self, seat: &mut Seat<C>) -> Result<bool, Memory> {
        let meaning = Meaning::Exact(self.at);
        let ask = list_ask(self.alloc, self.selection.copy(self.alloc)?, meaning)?;
        match seat.list(&ask) {
            Ok(listed) => {
                self.expect_state(&listed);
                Ok(true)
            }
            Err(ListNo::Memory) => Err(Memory),
            Err(_) => Ok(false),
        }
    }

    // That a list has just the objects that were told, at the revision up to which they were.
    fn expect_state(&mut self, listed: &Listed) {
        let mut is_right = listed.rev == self.at && listed.items.len() == self.rows.len();
        for shown in listed.items.rows() {
            let row = shown.row();
            is_right = is_right && self.rows.get(&row.obj.key) == Some(&row.rev);
        }
        self.expect(is_right);
    }

    /// Counts what isn't as it should be.
    pub fn expect(&mut self, is_right: bool) {
        if !is_right {
            self.wrongs = self.wrongs.saturating_add(1);
        }
    }
}
