//! The answers to reads.

use crate::Line;
use crate::items::Items;
use encode_once::Shown;
use json_obj::More;
use kube_meta::Memory;
use std::marker::Model;
use std::sync::Arc;

/// One object, as it stands at the revision `at`. Contracts see the row in place of the shared pointer to it.
#[derive(Debug, Drop)]
pub struct Got {
    pub row: Arc<Shown>,
    pub at: u64,
}

impl Model for Got {
    ghost use Rattle.client_api.specs.Answers.{GotData};

    ghost Value = { GotData };

    ghost view = { λ g. record { row = g.row.value; at = g.at } };
}

/// The objects of a selection as they stand at the revision `rev`, or a page of them. Contracts see their rows.
#[derive(Drop)]
pub struct Listed {
    pub rev: u64,
    pub items: Items,
    /// Where the next page begins, if this one isn't the last.
    pub more: Option<More>,
}

impl Model for Listed {
    ghost use Rattle.client_api.specs.Answers.{ListedData};
    ghost use Rattle.client_api.specs.Items.{rows_of};

    ghost Value = { ListedData };

    ghost view = { λ l. record { rev = l.rev; rows = rows_of l.items; more = l.more } };
}

/// Where a watch begins: the revision, and the objects that stood there, where these are sent. Contracts see their
/// rows.
#[derive(Debug, Drop)]
pub struct Begun {
    pub at: u64,
    pub initial: Vec<Arc<Shown>>,
}

impl Model for Begun {
    ghost use Rattle.std.specs.Prelude.{map};
    ghost use Rattle.client_api.specs.Answers.{BegunData};

    ghost Value = { BegunData };

    ghost view = { λ b. record { at = b.at; rows = map (λ shown. shown.value) b.initial.items } };
}

/// Why a list, a get or a watch is refused.
#[derive(Clone, Copy, Debug, PartialEq, Eq)]
pub enum ListNo {
    /// The asked revision is below `floor`: what stood there, or what came since, may not be kept any more.
    Expired { asked: u64, floor: u64 },
    /// The asked revision is above `current`, which the log had reached in this call.
    TooLarge { asked: u64, current: u64 },
    /// There is no such object at `at`.
    Absent { at: u64 },
    /// There was no memory.
    Memory,
}

impl From<Memory> for ListNo {
    ghost use Rattle.std.specs.Prelude.{◌≡◌};
    ghost use Rattle.client_api.specs.declared.answers.ListNo.TheVariants as refusals;

    ghost from_gives = { λ _ refusal. refusal ≡ refusals.Memory };

    fn from(_: Memory) -> ListNo {
        ListNo::Memory
    }
}

/// What a turn of a watch gave.
#[derive(Debug, Drop)]
pub enum Took {
    /// The lines of the revisions above `from` and up to `upto`, at least one.
    Events {
        from: u64,
        upto: u64,
        lines: Vec<Line>,
    },
    /// No line up to `upto`, which isn't below what the log had reached in this call; `reached` says whether the
    /// client has seen the log that far.
    Quiet {
        upto: u64,
        reached: bool,
    },
    /// The watch stands at `at`, below what is kept, and has ended.
    Lost {
        at: u64,
        floor: u64,
    },
}
