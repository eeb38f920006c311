//! What answers a client from caches, however they are held: by a client that is alone with its log, or by many that
//! share it.
//!
//! A [`CacheState`] is the cache of one resource with what keeps it up to date; the upstream that it follows is lent
//! to it at each call. Whoever holds a cache of each resource, and the store behind them, tells by [`Caches`] what a
//! client may ask of them; the calls of a client stand on that alone.
//!
//! What an answer is, by what a cache gives, is said by functions of it alone: the page of a list, the object at a key,
//! the start of a watch and its turns, and refusals.
#![tactic(auto)]

mod answering;
mod cache_state;
mod caches;
mod lanes;
mod read_answers;
mod reads;
mod resources;
mod start_answers;
mod turn_answers;
mod turns;
mod walks;
mod watching;
mod windows;

pub use answering::{get, list, measure};
pub use cache_state::{CacheState, Turn};
pub use caches::{Caches, Measures, Reads, Watches};
pub use lanes::{LaneSign, WatchLane};
pub use reads::Found;
pub use resources::{OfConfigMaps, OfDeployments, OfPods, OfResource};
pub use turns::{heard, see_from, turn_of};
pub use watching::{Watch, begin, stand, turn};
pub use windows::{NamedWindow, SeenWindow, Window};
