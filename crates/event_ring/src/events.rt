//! What one change of an object was.

ghost use Rattle.std.specs.Prelude.{◌≡◌, IfOk, OnErr, IfSome, IsSome, option_map};
ghost use Rattle.kube_meta.specs.Rows.{key_of};
ghost use Rattle.event_ring.specs.Events.{event_of, at_revision};

use encode_once::Shown;
use kube_meta::{Key, Memory, Row};
use std::alloc::Global;
use std::marker::Model;
use std::sync::Arc;

/// What one change of an object was. The objects are shared: what is told of an event shares those of
/// the ring, of the tree of objects and of the lists made of it, and nothing is copied. All of them
/// have the event's key, and the object now has the event's revision. Contracts see the rows in place
/// of the shared pointers to them.
#[derive(Debug, Drop)]
pub struct Event {
    /// The revision of the change, a Kubernetes resource version as a number.
    pub rev: u64,
    /// Which object was changed.
    pub key: Key,
    /// The object before the change, with the revision at which it was written.
    pub before: Option<Arc<Shown>>,
    /// The object now, unless it was removed.
    pub now: Option<Arc<Shown>>,
    /// The object before the change, but with the revision of the change: what a DELETED event of the
    /// Kubernetes API carries. It is there exactly where `before` is.
    pub left: Option<Arc<Shown>>,
}

impl Model for Event {
    ghost use Rattle.std.specs.Prelude.{option_map};
    ghost use Rattle.event_ring.specs.Events.{EventRows, IsEvent};

    ghost Value = { EventRows };

    ghost view = { λ e. record { rev = e.rev; key = e.key; before = option_map (λ shown. shown.value) e.before; now = option_map (λ shown. shown.value) e.now; left = option_map (λ shown. shown.value) e.left } };

    ghost invariant = { λ e. IsEvent (record { rev = e.rev; key = e.key; before = option_map (λ shown. shown.value) e.before; now = option_map (λ shown. shown.value) e.now; left = option_map (λ shown. shown.value) e.left }) };
}

impl Event {
    /// The event of a change at `rev` of the object `key`, from the object before it and the one now,
    /// which is the one that was written. An object that wasn't there before takes no memory.
    pub fn new(
        alloc: Global,
        rev: u64,
        key: Key,
        before: Option<Arc<Shown>>,
        now: Option<Arc<Shown>>,
    ) -> Result<Event, Memory>
        requires before_keyed { IfSome before (λ shown. key_of shown.value ≡ key) }
        requires now_keyed { IfSome now (λ shown. key_of shown.value ≡ key) }
        requires now_numbered { IfSome now (λ shown. shown.value.rev ≡ rev) }
        ensures event { IfOk result (λ event. event ≡ event_of rev key (option_map (λ shown. shown.value) before) (option_map (λ shown. shown.value) now)) }
        ensures first { OnErr result (IsSome before) }
    {
        let left = match &before {
            Some(shown) => Some(renumbered(alloc, shown, rev)?),
            None => None,
        };
        Ok(Event {
            rev,
            key,
            before,
            now,
            left,
        })
    }
}

// The shared object with another revision.
fn renumbered(alloc: Global, shown: &Shown, rev: u64) -> Result<Arc<Shown>, Memory>
    ensures { IfOk result (λ other. other.value ≡ at_revision rev shown.now) }
{
    let obj = shown.row().obj.clone()?;
    Shown::new(alloc, Row { obj, rev })
}
