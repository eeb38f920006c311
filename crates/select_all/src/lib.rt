//! Selections of objects by resource, namespace, label selector and field selector; what a change of
//! an object is to a watch of a selection; and the laws of listings and watch streams.
#![tactic(auto)]

mod laws;
mod selection;

pub use laws::{
    counts_stay, events_above, events_are_counted, events_are_in_order, events_undo,
    evictions_stay, floors_are_between, floors_are_greatest, floors_begin, floors_evict,
    floors_go_on, floors_stay, floors_wait, listings_are_unique, listings_by_key, listings_follow,
    listings_stay, selections_decide, transitions_are_in_order, transitions_are_selected,
    transitions_join, transitions_none, transitions_stay, wanted_is_needed,
};
pub use selection::{Kind, Meaning, SelNo, Selection};
