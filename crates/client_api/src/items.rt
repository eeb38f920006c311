//! The objects that a list answers.

ghost use Rattle.std.specs.Prelude.{◌≡◌, length};
ghost use Rattle.std.specs.Iterator.{YieldsFirstBy, item_count};
ghost use Rattle.client_api.specs.Items.{rows_of, rows_left};

use encode_once::Shown;
use obj_tree::{Rows, Snapshot};
use std::sync::Arc;

/// The objects that a list answers, in the order of their keys.
#[derive(Drop)]
pub enum Items {
    /// Each is shared.
    Picked(Vec<Arc<Shown>>),
    /// All of a snapshot, which is shared whole.
    All(Snapshot),
}

impl Items {
    /// Lends them, one after the other.
    pub fn rows(&self) -> ItemRows<'_>
        ensures { rows_left result ≡ rows_of self.now }
    {
        match self {
            Items::Picked(shown) => ItemRows::Picked(shown.as_slice()),
            Items::All(snapshot) => ItemRows::All(snapshot.range(None)),
        }
    }

    /// How many they are.
    pub fn len(&self) -> usize
        ensures { result ≡ length (rows_of self.now) }
    {
        match self {
            Items::Picked(shown) => shown.len(),
            Items::All(snapshot) => snapshot.len(),
        }
    }
}

/// The objects of a list that are still to come, lent one after the other.
#[derive(Drop)]
pub enum ItemRows<'a> {
    Picked(&'a [Arc<Shown>]),
    All(Rows<'a>),
}

impl<'a> Iterator for ItemRows<'a> {
    type Item = &'a Arc<Shown>;

    ghost next_gives = { YieldsFirstBy (λ x. x.now.value) rows_left };

    ghost remaining = { item_count rows_left };

    fn next(&mut self) -> Option<&'a Arc<Shown>> {
        match self {
            ItemRows::Picked(shown) => {
                let (first, rest) = shown.split_first()?;
                *shown = rest;
                Some(first)
            }
            ItemRows::All(rows) => rows.next(),
        }
    }
}
