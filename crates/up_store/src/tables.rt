//! Rows by resource and key.

ghost use Rattle.std.specs.Prelude.{◌≡◌, IfOk, OnOk, OnErr, map};
ghost use Rattle.kube_meta.specs.Rows.{AreRising};
ghost use Rattle.rev_log.specs.States.{row_in_base};
ghost use Rattle.up_store.specs.Kept.{rows_of, HoldEach, HaveMade, HaveBegun};

use crate::changes::make_changes;
use crate::revisions::SharedRevision;
use encode_once::Shown;
use kube_meta::{Memory, Resource, Row};
use obj_tree::Tree;
use std::alloc::Global;
use std::sync::Arc;

/// The rows of each resource by their keys.
#[derive(Drop)]
pub struct Tables {
    pub pods: Tree,
    pub config_maps: Tree,
    pub deployments: Tree,
}

impl Tables {
    /// These pods, whose keys rise, and no other rows.
    pub fn of_pods(alloc: Global, list: Vec<Row>) -> Result<Tables, Memory>
        requires { AreRising list.items }
        ensures { IfOk result (λ tables. HoldEach tables (row_in_base list.items)) }
    {
        let shown = all_shown(alloc, list)?;
        let pods = Tree::of_rows(alloc, shown)?;
        let config_maps = Tree::new(alloc)?;
        let deployments = Tree::new(alloc)?;
        Ok(Tables {
            pods,
            config_maps,
            deployments,
        })
    }

    /// The same rows once more, in trees that share all of their pages.
    pub fn copy(&self) -> Result<Tables, Memory>
        ensures { IfOk result (λ tables. tables ≡ self.now) }
    {
        let pods = self.pods.copy()?;
        let config_maps = self.config_maps.copy()?;
        let deployments = self.deployments.copy()?;
        Ok(Tables {
            pods,
            config_maps,
            deployments,
        })
    }

    /// The rows of one resource.
    pub fn of(&self, resource: Resource) -> &Tree
        ensures { result.now ≡ rows_of self.now resource }
    {
        match resource {
            Resource::Pods => &self.pods,
            Resource::ConfigMaps => &self.config_maps,
            Resource::Deployments => &self.deployments,
        }
    }

    /// Makes the revision's changes. After want of memory some of them are made, the first ones of each resource.
    pub fn apply(&mut self, revision: &SharedRevision) -> Result<(), Memory>
        ensures done { OnOk result (HaveMade revision.now self.old self.new) }
        ensures partly { OnErr result (HaveBegun revision.now self.old self.new) }
    {
        make_changes(&mut self.pods, revision, Resource::Pods)?;
        make_changes(&mut self.config_maps, revision, Resource::ConfigMaps)?;
        make_changes(&mut self.deployments, revision, Resource::Deployments)
    }
}

// The rows, to be shared.
fn all_shown(alloc: Global, rows: Vec<Row>) -> Result<Vec<Arc<Shown>>, Memory>
    ensures { IfOk result (λ shown. map (λ s. s.value) shown.items ≡ rows.items) }
{
    let mut shown = Vec::with_capacity(alloc, rows.len())?;
    for row in rows {
        shown.push(Shown::new(alloc, row)?)?;
    }
    Ok(shown)
}
