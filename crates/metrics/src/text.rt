//! The whole text: of the log, of its caches and of what was served.

ghost use Rattle.std.specs.Prelude.{◌≡◌, ◌++◌, OnOk, IfOk};
ghost use Rattle.std.specs.List.{flat_map};
ghost use Rattle.metrics.specs.Families as families;
ghost use Rattle.metrics.specs.Text as spec;

use crate::caches::{CacheMetrics, Metrics};
use crate::families::{FIGURES, Family, Figure, verb_name};
use crate::lines::{
    begin_sample, end_sample, put, put_alone, put_next_alone, put_next_head, put_number,
};
use crate::mirrors::put_mirrors;
use crate::served::{RequestCount, Served};
use kube_meta::{Memory, Resource};
use std::alloc::Global;

/// What the cache of a resource tells.
#[derive(Clone, Copy, Debug, PartialEq, Eq)]
pub(crate) struct Cached {
    pub resource: Resource,
    pub told: CacheMetrics,
}

/// What a monitor is told, in version 0.0.4 of the text format of Prometheus, without the line feed that ends its last
/// line.
pub fn metrics_text(alloc: Global, metrics: &Metrics) -> Result<Vec<u8>, Memory>
    ensures { IfOk result (λ text. text.items ≡ spec.metrics_text metrics.now) }
{
    let caches = caches_of(alloc, metrics)?;
    let mut text = Vec::new(alloc);
    put_log(&mut text, metrics)?;
    put_caches(&mut text, caches.as_slice())?;
    put_served(&mut text, &metrics.served)?;
    Ok(text)
}

fn put_log(text: &mut Vec<u8>, metrics: &Metrics) -> Result<(), Memory>
    ensures { OnOk result (text.new.items ≡ text.old.items ++ spec.log_text metrics.now) }
{
    put_alone(text, Family::Revision, metrics.revision)?;
    put_next_alone(text, Family::Floor, metrics.floor)?;
    put_next_alone(text, Family::Generation, metrics.generation)
}

// ---- caches

// The caches that there are.
fn caches_of(alloc: Global, metrics: &Metrics) -> Result<Vec<Cached>, Memory>
    ensures { IfOk result (λ caches. caches.items ≡ spec.caches_of metrics.now) }
{
    let mut caches = Vec::new(alloc);
    put_present(&mut caches, Resource::Pods, metrics.pods)?;
    put_present(&mut caches, Resource::ConfigMaps, metrics.config_maps)?;
    put_present(&mut caches, Resource::Deployments, metrics.deployments)?;
    Ok(caches)
}

// Puts the cache of a resource behind the others, where there is one.
fn put_present(
    caches: &mut Vec<Cached>,
    resource: Resource,
    told: Option<CacheMetrics>,
) -> Result<(), Memory>
    ensures { OnOk result (caches.new.items ≡ caches.old.items ++ spec.present resource told) }
{
    match told {
        Some(told) => {
            caches.push(Cached { resource, told })?;
            Ok(())
        }
        None => Ok(()),
    }
}

fn put_caches(text: &mut Vec<u8>, caches: &[Cached]) -> Result<(), Memory>
    ensures { OnOk result (text.new.items ≡ text.old.items ++ spec.caches_text caches.now) }
{
    if caches.is_empty() {
        return Ok(());
    }
    put_all_figures(text, caches)
}

#[tactic(auto, unfolding(crate::specs::Families::all_figures))]
fn put_all_figures(text: &mut Vec<u8>, caches: &[Cached]) -> Result<(), Memory>
    ensures { OnOk result (text.new.items ≡ text.old.items ++ flat_map (spec.figure_text caches.now) families.all_figures) }
{
    put_figures(text, &FIGURES, caches)
}

fn put_figures(text: &mut Vec<u8>, figures: &[Figure], caches: &[Cached]) -> Result<(), Memory>
    ensures { OnOk result (text.new.items ≡ text.old.items ++ flat_map (spec.figure_text caches.now) figures.now) }
{
    for figure in figures {
        put_figure(text, *figure, caches)?;
    }
    Ok(())
}

// Puts a figure of all caches.
fn put_figure(text: &mut Vec<u8>, figure: Figure, caches: &[Cached]) -> Result<(), Memory>
    ensures { OnOk result (text.new.items ≡ text.old.items ++ spec.figure_text caches.now figure) }
{
    put_next_head(text, Family::OfCaches(figure))?;
    put_cache_samples(text, figure, caches)
}

fn put_cache_samples(text: &mut Vec<u8>, figure: Figure, caches: &[Cached]) -> Result<(), Memory>
    ensures { OnOk result (text.new.items ≡ text.old.items ++ flat_map (spec.cache_sample figure) caches.now) }
{
    for cache in caches {
        put_cache_sample(text, figure, cache)?;
    }
    Ok(())
}

#[tactic(auto, unfolding(crate::specs::Text::sample))]
fn put_cache_sample(text: &mut Vec<u8>, figure: Figure, cache: &Cached) -> Result<(), Memory>
    ensures { OnOk result (text.new.items ≡ text.old.items ++ spec.cache_sample figure cache.now) }
{
    begin_sample(text, Family::OfCaches(figure))?;
    put_resource(text, cache.resource)?;
    end_sample(text, figure.value(&cache.told))
}

// Puts the labels of a resource.
#[tactic(auto, unfolding(crate::specs::Text::resource_labels))]
fn put_resource(text: &mut Vec<u8>, resource: Resource) -> Result<(), Memory>
    ensures { OnOk result (text.new.items ≡ text.old.items ++ spec.resource_labels resource) }
{
    put(text, b"{group=\"")?;
    put(text, resource.group().as_bytes())?;
    put(text, b"\",resource=\"")?;
    put(text, resource.plural().as_bytes())?;
    put(text, b"\"}")
}

// ---- what was served

fn put_served(text: &mut Vec<u8>, served: &Option<Served>) -> Result<(), Memory>
    ensures { OnOk result (text.new.items ≡ text.old.items ++ spec.served_text served.now) }
{
    match served {
        Some(served) => put_counts(text, served),
        None => Ok(()),
    }
}

fn put_counts(text: &mut Vec<u8>, served: &Served) -> Result<(), Memory>
    ensures { OnOk result (text.new.items ≡ text.old.items ++ spec.counts_text served.now) }
{
    put_next_alone(text, Family::Connections, served.connections)?;
    put_next_alone(text, Family::Events, served.events)?;
    put_requests(text, served.requests.as_slice())?;
    put_mirrors(text, served.mirrors.as_slice())
}

fn put_requests(text: &mut Vec<u8>, requests: &[RequestCount]) -> Result<(), Memory>
    ensures { OnOk result (text.new.items ≡ text.old.items ++ spec.requests_text requests.now) }
{
    if requests.is_empty() {
        return Ok(());
    }
    put_next_head(text, Family::Requests)?;
    put_request_samples(text, requests)
}

fn put_request_samples(text: &mut Vec<u8>, requests: &[RequestCount]) -> Result<(), Memory>
    ensures { OnOk result (text.new.items ≡ text.old.items ++ flat_map spec.request_sample requests.now) }
{
    for request in requests {
        put_request_sample(text, request)?;
    }
    Ok(())
}

fn put_request_sample(text: &mut Vec<u8>, request: &RequestCount) -> Result<(), Memory>
    ensures { OnOk result (text.new.items ≡ text.old.items ++ spec.request_sample request.now) }
{
    put_request_in(text, Family::Requests, request)
}

#[tactic(auto, unfolding(crate::specs::Text::sample))]
fn put_request_in(text: &mut Vec<u8>, family: Family, request: &RequestCount) -> Result<(), Memory>
    ensures { OnOk result (text.new.items ≡ text.old.items ++ spec.sample family (spec.request_labels request.now) request.now.count) }
{
    begin_sample(text, family)?;
    put_request(text, request)?;
    end_sample(text, request.count)
}

// Puts the labels of requests.
#[tactic(auto, unfolding(crate::specs::Text::request_labels))]
fn put_request(text: &mut Vec<u8>, request: &RequestCount) -> Result<(), Memory>
    ensures { OnOk result (text.new.items ≡ text.old.items ++ spec.request_labels request.now) }
{
    put(text, b"{verb=\"")?;
    put(text, verb_name(request.verb).as_bytes())?;
    put_names(text, request.resource)?;
    put(text, b"\",code=\"")?;
    put_number(text, request.code as u64)?;
    put(text, b"\"}")
}

// Puts the labels that say what was asked for, which are empty where it is of no resource.
fn put_names(text: &mut Vec<u8>, resource: Option<Resource>) -> Result<(), Memory>
    ensures { OnOk result (text.new.items ≡ text.old.items ++ spec.names resource) }
{
    match resource {
        Some(resource) => {
            put_three(
                text,
                resource.group(),
                resource.version(),
                resource.plural(),
            )
        }
        None => put_three(text, "", "", ""),
    }
}

fn put_three(text: &mut Vec<u8>, group: &str, version: &str, plural: &str) -> Result<(), Memory>
    ensures { OnOk result (text.new.items ≡ text.old.items ++ spec.three_labels group.now version.now plural.now) }
{
    put(text, b"\",group=\"")?;
    put(text, group.as_bytes())?;
    put(text, b"\",version=\"")?;
    put(text, version.as_bytes())?;
    put(text, b"\",resource=\"")?;
    put(text, plural.as_bytes())
}
