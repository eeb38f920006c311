//! Lines that are kept.

ghost use Rattle.std.specs.Prelude.{◌≡◌, IfOk};
ghost use Rattle.mirror_log.specs.Intakes as intakes;
ghost use Rattle.mirror_log.specs.Faults as faults;
ghost use Rattle.mirror_law.specs.Mirrors.{change_told};

use crate::kinds::same_kind;
use kube_meta::{Key, Memory, Obj, Resource};
use rev_log::Change;
use select_all::Kind;
use std::marker::Model;
use std::sync::Arc;

/// A line that is kept. Contracts see the object in place of the shared pointer to it.
#[derive(Debug, Drop)]
pub(crate) struct Pending {
    pub(crate) kind: Kind,
    pub(crate) obj: Arc<Obj>,
    pub(crate) rev: u64,
}

impl Model for Pending {
    ghost use Rattle.select_all.specs.Streams.{TransitionData};

    ghost Value = { TransitionData };

    ghost view = { λ p. record { kind = p.kind; obj = p.obj.value; rev = p.rev } };
}

impl Pending {
    /// Whether the line tells of the object with this key.
    pub(crate) fn is_of(&self, key: &Key) -> bool
        ensures { result ≡ intakes.is_of key.now self.now }
    {
        self.obj.key == *key
    }

    /// What the line makes of its object, one of this resource, in the mirror's log.
    pub(crate) fn change(&self, resource: Resource) -> Result<Change, Memory>
        ensures { IfOk result (λ change. change ≡ change_told resource self.now) }
    {
        let new = match self.kind {
            Kind::Added | Kind::Modified => Some(self.obj.clone()?),
            Kind::Deleted => None,
        };
        Ok(Change {
            rev: self.rev,
            resource,
            key: self.obj.key.clone()?,
            new,
        })
    }
}

/// Whether one of the lines tells of the object with this key, by this kind.
pub(crate) fn tells(kind: Kind, kept: &[Pending], key: &Key) -> bool
    ensures { result ≡ intakes.tells kind kept.now key.now }
{
    kept.iter()
        .any(|line| same_kind(line.kind, kind) && line.is_of(key))
}

/// Whether one of the lines of this revision tells of the object with this key.
pub(crate) fn is_repeated(kept: &[Pending], rev: u64, key: &Key) -> bool
    ensures { result ≡ faults.is_repeated kept.now rev key.now }
{
    kept.iter().any(|line| line.rev == rev && line.is_of(key))
}

/// The last revision that was told.
pub(crate) fn last_of(to: u64, kept: &[Pending]) -> u64
    ensures { result ≡ faults.last_of to kept.now }
{
    match kept.first() {
        Some(line) => line.rev,
        None => to,
    }
}
