//! Which lanes a change may concern.

ghost use Rattle.std.specs.Prelude.{◌≡◌, ℕ, ◌||◌, true, [], Some, None, IfOk, OnOk, OnErr, IsTrue, option_copied};
ghost use Rattle.std.specs.List.Sorted.{IsStrictlyIncreasing};
ghost use Rattle.select_all.specs.Selecting.{holds};
ghost use Rattle.select_all.specs.declared.selection.Selection.{Selection as Asked};
ghost use Rattle.watch_lane.specs.Index.{lane_at, Sets, place_of, value_in, is_touched, is_listed};
ghost use Rattle.watch_lane.specs.Places.{finds, stands};

use crate::merge::join;
use crate::places::Places;
use kube_meta::{Memory, Obj};
use select_all::Selection;
use std::alloc::Global;
use std::collections::BTreeMap;
use std::marker::Model;

/// Which lanes a change of an object may concern. A lane stands under the name that its selection asks
/// for; else under the value that it asks for in one listed field; else under its namespace. It asks for
/// a name or a value by the first term of its field selector on it with `=` or `==`. The lanes that ask
/// for none of these are always answered. Contracts see the numbers of the lanes with their selections.
// So a change looks under three texts, that it has at hand. A lane of the same name in another namespace is found
// too, and looks at the object itself.
#[derive(Drop)]
pub struct LaneIndex {
    alloc: Global,
    field: usize,
    lanes: BTreeMap<u64, Selection>,
    places: Places,
}

impl Model for LaneIndex {
    ghost use Rattle.std.specs.Prelude.{◌≡◌, ℕ, List, Option};
    ghost use Rattle.watch_lane.specs.Index.{IndexData, lane_at};
    ghost use Rattle.watch_lane.specs.Places.{stands, asks};

    ghost Value = { IndexData };

    ghost view = { λ x. record { field = x.field; lanes = x.lanes.entries } };

    ghost invariant = { λ x. (place : Option (List ℕ)) (id : ℕ) → stands x.places place id ≡ asks x.field place (lane_at x.lanes.entries id) };
}

impl LaneIndex {
    ghost use Rattle.watch_lane.specs.Index.{IndexData};

    /// An index without lanes, on the listed field at this place.
    pub fn new(alloc: Global, field: usize) -> LaneIndex
        ensures { result ≡ record { field = field; lanes = [] } }
    {
        LaneIndex {
            alloc,
            field,
            lanes: BTreeMap::new(alloc),
            places: Places::new(alloc),
        }
    }

    /// Adds a lane, in place of one with its number. Where there is no memory for it, the index has
    /// none with that number.
    pub fn add(&mut self, id: u64, selection: &Selection) -> Result<(), Memory>
        ensures ok { OnOk result (Sets self.old self.new id (Some selection.now)) }
        ensures err { OnErr result (Sets self.old self.new id None) }
    {
        self.drop_lane(id);
        let copy = selection.copy(self.alloc)?;
        let place = place_of(self.field, selection);
        self.places.put(self.alloc, place, id)?;
        match self.lanes.insert(id, copy) {
            Ok(_) => Ok(()),
            Err(_) => {
                self.places.leave(place, id);
                Err(Memory)
            }
        }
    }

    /// Takes a lane out, if the index has it.
    pub fn drop_lane(&mut self, id: u64)
        ensures { Sets self.old self.new id None }
    {
        if let Some(selection) = self.lanes.remove(&id) {
            self.places.leave(place_of(self.field, &selection), id);
        }
    }

    /// The lanes that a change of an object from `old` to `new` may concern, in rising order. There is
    /// no object before it is created and after it is removed.
    pub fn touched(&self, old: Option<&Obj>, new: Option<&Obj>) -> Result<Vec<u64>, Memory>
        // Each once, in rising order.
        ensures rising { IfOk result (λ ids. IsStrictlyIncreasing ids.items) }
        // Those that stand where the object is before or after, and those that stand nowhere.
        ensures exact { IfOk result (λ ids. (id : ℕ) → is_listed ids.items id ≡ is_touched self.now.field (option_copied old.entry) (option_copied new.entry) (lane_at self.now.lanes id)) }
        // All lanes to which the change is an event.
        ensures events { IfOk result (λ ids. (id : ℕ) (s : Asked) → lane_at self.now.lanes id ≡ Some s → IsTrue (holds s (option_copied old.entry) || holds s (option_copied new.entry)) → IsTrue (is_listed ids.items id)) }
    {
        let before = self.join_found(Vec::new(self.alloc), old)?;
        let found = self.join_found(before, new)?;
        join(self.alloc, found, &self.places.others)
    }

    /// Whether each lane that stands where an object is, if it is there, surely stands where another one is too. This
    /// looks under the object's three texts, and at no lane.
    pub fn covers(&self, by: &Obj, obj: Option<&Obj>) -> bool
        ensures covered { IsTrue result → (id : ℕ) → finds self.now.field (option_copied obj.entry) (lane_at self.now.lanes id) ≡ true → finds self.now.field (Some by.now) (lane_at self.now.lanes id) ≡ true }
        ensures own { option_copied obj.entry ≡ Some by.now → IsTrue result }
    {
        match obj {
            Some(obj) => self.covers_each(by, obj),
            None => true,
        }
    }

    // The same of an object that is there.
    fn covers_each(&self, by: &Obj, obj: &Obj) -> bool
        ensures covered { IsTrue result → (id : ℕ) → finds self.now.field (Some obj.now) (lane_at self.now.lanes id) ≡ true → finds self.now.field (Some by.now) (lane_at self.now.lanes id) ≡ true }
        ensures own { obj.now ≡ by.now → IsTrue result }
    {
        if !self.places.covers(obj.key.name(), by.key.name()) {
            return false;
        }
        let (value, by_value) = (value_in(self.field, obj), value_in(self.field, by));
        self.places.covers(value, by_value) && self.places.covers(obj.key.ns(), by.key.ns())
    }

    // Rising numbers with those of the lanes that stand where an object is, in rising order.
    fn join_found(&self, ids: Vec<u64>, obj: Option<&Obj>) -> Result<Vec<u64>, Memory>
        requires { IsStrictlyIncreasing ids.items }
        ensures rising { IfOk result (λ all. IsStrictlyIncreasing all.items) }
        ensures joined { IfOk result (λ all. (i : ℕ) → is_listed all.items i ≡ (is_listed ids.items i || finds self.now.field (option_copied obj.entry) (lane_at self.now.lanes i))) }
    {
        match obj {
            Some(obj) => {
                let value = value_in(self.field, obj);
                let named = self.places.join_under(self.alloc, ids, obj.key.name())?;
                let valued = self.places.join_under(self.alloc, named, value)?;
                self.places.join_under(self.alloc, valued, obj.key.ns())
            }
            None => Ok(ids),
        }
    }
}

// The place of a selection: the name that it asks for, or else its value of the field, or else its namespace.
fn place_of(field: usize, selection: &Selection) -> Option<&str>
    ensures { option_copied result ≡ place_of field selection.now }
{
    if let Some(name) = selection.fields.wanted_name() {
        return Some(name);
    }
    if let Some(value) = selection.fields.wanted(field) {
        return Some(value);
    }
    match &selection.ns {
        Some(ns) => Some(ns.as_str()),
        None => None,
    }
}

// The object's value of the listed field; that of an absent one is empty.
fn value_in(field: usize, obj: &Obj) -> &str
    ensures { result.now ≡ value_in field obj.now }
{
    match obj.fields.get(field) {
        Some(value) => value.as_str(),
        None => "",
    }
}
