//! The last events of one resource, from which watches that start or fall behind catch up: a bounded
//! ring that drops whole revisions, and whose capacity grows and shrinks with the age of the events.
#![tactic(auto)]

mod events;
mod laws;
mod ring;
mod search;
mod span;
mod stamped;

pub use events::Event;
pub use laws::{
    pushes_are_bounded, pushes_drop_whole_revisions, pushes_keep_rings, pushes_lose_nothing,
};
pub use ring::{Below, Ring};
pub use span::Span;
