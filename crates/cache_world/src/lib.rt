//! The abstract machine of a log, caches and clients, and the laws of everything that it can do.
#![tactic(auto)]

mod laws;

pub use laws::{
    catch_ups_are_steps, closes_are_steps, every_world_is_lawful, lists_are_served,
    losses_are_steps, opens_are_steps, pumps_are_computed, pumps_are_steps, rebuilds_are_steps,
    watches_are_served, watches_go_on,
};
