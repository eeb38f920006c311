//! The options that say what a server mirrors of which cluster.

ghost use Rattle.std.specs.Prelude.{◌≡◌, IfOk, IfSome, bytes_eq, length};
ghost use Rattle.std.specs.List.{slice_split};
ghost use Rattle.clap.specs.Words.{first_of, found_of, rows_of};
ghost use Rattle.kube_meta.specs.Names.{IsNamespace};
ghost use Rattle.watchcache.specs.Options as spec;
ghost use Rattle.watchcache.specs.Words.{AreServed};

use crate::asked::{Fault, OptionName, ServeOptions, WordsNo};
use crate::options::{is_given, optional};
use crate::reading::with_first;
use clap::ArgMatches;
use client_api::Resources;
use kube_meta::{Resource, Text, is_namespace};
use std::alloc::Global;

/// The options with the port of a cluster, where one is given, and with what stands behind it.
pub(crate) fn with_cluster(
    matches: &ArgMatches<'_>,
    options: ServeOptions,
) -> Result<ServeOptions, Fault>
    requires { AreServed options }
    ensures value { result ≡ spec.with_cluster (rows_of (found_of matches.now)) options }
    ensures range { IfOk result AreServed }
{
    let mut options = options;
    options.cluster = match optional(matches, OptionName::Cluster, 1, 65_535)? {
        Some(port) => Some(port as u16),
        None => None,
    };
    with_scope(matches, options)
}

// The same behind a test of what is to be mirrored of the cluster.
fn with_scope(matches: &ArgMatches<'_>, options: ServeOptions) -> Result<ServeOptions, Fault>
    requires { AreServed options }
    ensures value { result ≡ spec.with_scope (rows_of (found_of matches.now)) options }
    ensures range { IfOk result AreServed }
{
    let is_cluster = options.cluster.is_some();
    if is_cluster && options.peer.is_some() {
        return Err(Fault::ClusterWithPeer);
    }
    if !is_cluster && is_given(matches, OptionName::Namespace) {
        let name = OptionName::Namespace;
        return Err(Fault::WantsCluster { name });
    }
    let mut options = options;
    options.resources = scope_resources(matches, is_cluster)?;
    with_first(matches, options)
}

fn scope_resources(matches: &ArgMatches<'_>, is_cluster: bool) -> Result<Resources, Fault>
    ensures { result ≡ spec.scope_resources is_cluster (first_of (spec.option_text OptionName.Resources) (rows_of (found_of matches.now))) }
{
    match matches.get_str(OptionName::Resources.text()) {
        None => Ok(Resources::ALL),
        Some(text) => given_resources(is_cluster, text),
    }
}

fn given_resources(is_cluster: bool, text: &str) -> Result<Resources, Fault>
    ensures { result ≡ spec.given_resources is_cluster text.now }
{
    if !is_cluster {
        let name = OptionName::Resources;
        return Err(Fault::WantsCluster { name });
    }
    let text = text.as_bytes();
    let named = named_resources(text);
    if are_resources(text) && is_each_once(named, text) {
        Ok(named)
    } else {
        Err(Fault::OtherResources)
    }
}

// Whether all that commas part are names of resources.
fn are_resources(text: &[u8]) -> bool
    ensures { result ≡ spec.are_resources text.now }
{
    text.split(|byte| *byte == b',')
        .all(|part| is_resource(part))
}

fn is_resource(name: &[u8]) -> bool
    ensures { result ≡ spec.is_resource name.now }
{
    Resource::of_plural(name).is_some()
}

// The resources that are named.
fn named_resources(text: &[u8]) -> Resources
    ensures { result ≡ spec.named_resources text.now }
{
    Resources {
        pods: has_name(text, b"pods"),
        config_maps: has_name(text, b"configmaps"),
        deployments: has_name(text, b"deployments"),
    }
}

fn has_name(text: &[u8], name: &[u8]) -> bool
    ensures { result ≡ spec.has_name name.now text.now }
{
    text.split(|byte| *byte == b',')
        .any(|part| is_name(part, name))
}

// Whether none of these is named twice.
fn is_each_once(these: Resources, text: &[u8]) -> bool
    ensures { result ≡ spec.is_each_once these text.now }
{
    parts_of(text) <= how_many(these)
}

// How many names commas part.
fn parts_of(text: &[u8]) -> usize
    ensures { result ≡ length (slice_split spec.is_list_comma text.now) }
{
    text.split(|byte| *byte == b',').count()
}

fn how_many(these: Resources) -> usize
    ensures { result ≡ spec.how_many these }
{
    usize::from(these.pods) + usize::from(these.config_maps) + usize::from(these.deployments)
}

fn is_name(part: &[u8], name: &[u8]) -> bool
    ensures { result ≡ bytes_eq part.now name.now }
{
    part == name
}

/// The namespace that is given, if any is. It has to be the name of one.
pub(crate) fn namespace(alloc: Global, matches: &ArgMatches<'_>) -> Result<Option<Text>, WordsNo>
    ensures value { spec.WordsGive (spec.namespace_given (first_of (spec.option_text OptionName.Namespace) (rows_of (found_of matches.now)))) result }
    ensures range { IfOk result (λ given. IfSome given IsNamespace) }
{
    match matches.get_str(OptionName::Namespace.text()) {
        None => Ok(None),
        Some(text) => some(named(alloc, text)),
    }
}

fn some(named: Result<Text, WordsNo>) -> Result<Option<Text>, WordsNo>
    ensures { result ≡ spec.some named }
{
    match named {
        Ok(name) => Ok(Some(name)),
        Err(no) => Err(no),
    }
}

fn named(alloc: Global, text: &str) -> Result<Text, WordsNo>
    ensures value { spec.WordsGive (spec.namespace_named text.now) result }
    ensures range { IfOk result IsNamespace }
{
    if !is_namespace(text) {
        return Err(WordsNo::Bad(Fault::BadNamespace));
    }
    Ok(Text::new(alloc, text)?)
}
