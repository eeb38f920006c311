//! Which paths and methods are served.

ghost use Rattle.std.specs.Prelude.{◌≡◌, true, Some, IfOk, OnErr, IfSome, option_map};
ghost use Rattle.kube_meta.specs.Names.{IsNamespace, IsObjectName};
ghost use Rattle.route_req.specs.Places as places;
ghost use Rattle.route_req.specs.Lookup as lookup;

use crate::document_paths::{before_slash, document_at};
use crate::documents::Document;
use kube_meta::{Memory, Resource, Text, is_namespace, is_object_name};

/// What a path names.
#[derive(Debug, Drop)]
pub enum Place {
    /// What the server tells of itself.
    Described(Document),
    /// The objects of a resource, in all namespaces.
    Everywhere(Resource),
    /// The objects of a resource in a namespace.
    Namespaced(Resource, Text),
    /// The object of a resource with this namespace and name.
    Named(Resource, Text, Text),
    /// `/metrics`.
    OfMetrics,
    /// `/watchcache/cut`.
    OfCut,
    /// `/watchcache/compact`.
    OfCompact,
    /// `/watchcache/restart`.
    OfRestart,
    /// `/watchcache/disconnect`.
    OfDisconnect,
    /// `/watchcache/transaction`.
    OfTransaction,
}

/// What a method asks for at a place: a resource, then a namespace, then a name.
#[derive(Debug, Drop)]
pub enum Action {
    /// What the server tells of itself.
    Describe(Document),
    /// The metrics.
    Measure,
    /// A list or a watch, in one namespace or in all.
    Read(Resource, Option<Text>),
    /// A new object.
    Create(Resource, Text),
    /// One object.
    Get(Resource, Text, Text),
    /// Another object in place of one.
    Replace(Resource, Text, Text),
    /// An object's removal.
    Remove(Resource, Text, Text),
    /// That feeds are cut.
    Cut,
    /// A compaction.
    Compact,
    /// That the caches begin anew.
    Restart,
    /// That watches end.
    Disconnect,
    /// Several writes at one revision.
    Transact,
}

// What stands behind a first segment.
fn behind<'p>(path: &'p [Text], word: &str) -> Option<&'p [Text]>
    ensures { option_map (λ rest. rest.now) result ≡ lookup.behind word.now path.now }
{
    match path {
        [first, rest @ ..] if first.as_str() == word => Some(rest),
        _ => None,
    }
}

// The place of all of a resource in one namespace.
fn namespaced(word: &Text, ns: &Text, resource: Option<Resource>) -> Result<Option<Place>, Memory>
    ensures found { IfOk result (λ place. place ≡ lookup.namespaced word.now ns.now resource) }
    ensures memory { OnErr result (option_map places.takes_memory (lookup.namespaced word.now ns.now resource) ≡ Some true) }
{
    if word.as_str() != "namespaces" || !is_namespace(ns.as_str()) {
        return Ok(None);
    }
    match resource {
        Some(resource) => Ok(Some(Place::Namespaced(resource, ns.clone()?))),
        None => Ok(None),
    }
}

// The place of one object.
fn named(
    word: &Text,
    ns: &Text,
    resource: Option<Resource>,
    name: &Text,
) -> Result<Option<Place>, Memory>
    ensures found { IfOk result (λ place. place ≡ lookup.named word.now ns.now resource name.now) }
    ensures memory { OnErr result (option_map places.takes_memory (lookup.named word.now ns.now resource name.now) ≡ Some true) }
{
    if word.as_str() != "namespaces"
        || !is_namespace(ns.as_str())
        || !is_object_name(name.as_str())
    {
        return Ok(None);
    }
    match resource {
        Some(resource) => Ok(Some(Place::Named(resource, ns.clone()?, name.clone()?))),
        None => Ok(None),
    }
}

// The place of the segments behind what the paths of a group's version begin with.
fn place_behind(group: &str, version: &str, path: &[Text]) -> Result<Option<Place>, Memory>
    ensures found { IfOk result (λ place. place ≡ lookup.place_behind group.now version.now path.now) }
    ensures memory { OnErr result (option_map places.takes_memory (lookup.place_behind group.now version.now path.now) ≡ Some true) }
{
    match path {
        [plural] => Ok(Resource::of_group(group, version, plural.as_str()).map(Place::Everywhere)),
        [word, ns, plural] => {
            namespaced(
                word,
                ns,
                Resource::of_group(group, version, plural.as_str()),
            )
        }
        [word, ns, plural, name] => {
            named(
                word,
                ns,
                Resource::of_group(group, version, plural.as_str()),
                name,
            )
        }
        _ => Ok(None),
    }
}

// The place of the segments behind `api`, of the core group, which has no name.
fn core_place(path: &[Text]) -> Result<Option<Place>, Memory>
    ensures found { IfOk result (λ place. place ≡ lookup.core_place path.now) }
    ensures memory { OnErr result (option_map places.takes_memory (lookup.core_place path.now) ≡ Some true) }
{
    match path {
        [version, rest @ ..] => place_behind("", version.as_str(), rest),
        _ => Ok(None),
    }
}

// The place of the segments behind `apis`, of a group that has one.
fn group_place(path: &[Text]) -> Result<Option<Place>, Memory>
    ensures found { IfOk result (λ place. place ≡ lookup.group_place path.now) }
    ensures memory { OnErr result (option_map places.takes_memory (lookup.group_place path.now) ≡ Some true) }
{
    match path {
        [group, version, rest @ ..] => match group.as_str().is_empty() {
            true => Ok(None),
            false => place_behind(group.as_str(), version.as_str(), rest),
        },
        _ => Ok(None),
    }
}

fn own_word(word: &str) -> Option<Place>
    ensures { result ≡ lookup.own_word word.now }
{
    match word {
        "cut" => Some(Place::OfCut),
        "compact" => Some(Place::OfCompact),
        "restart" => Some(Place::OfRestart),
        "disconnect" => Some(Place::OfDisconnect),
        "transaction" => Some(Place::OfTransaction),
        _ => None,
    }
}

// The place of the segments behind `watchcache`.
fn own_place(path: &[Text]) -> Option<Place>
    ensures { result ≡ lookup.own_place path.now }
{
    match path {
        [word] => own_word(word.as_str()),
        _ => None,
    }
}

/// The place that a path names, if it names one.
pub(crate) fn place_at(path: &[Text]) -> Result<Option<Place>, Memory>
    ensures named { IfOk result (places.NamesMaybe path.now) }
    ensures memory { OnErr result (places.MayLackMemory path.now) }
{
    look_up(path)
}

// The place of a path, of what describes the server first.
fn look_up(path: &[Text]) -> Result<Option<Place>, Memory>
    ensures found { IfOk result (λ place. place ≡ lookup.place_found path.now) }
    ensures memory { OnErr result (option_map places.takes_memory (lookup.place_found path.now) ≡ Some true) }
{
    match document_at(before_slash(path))? {
        Some(document) => Ok(Some(Place::Described(document))),
        None => api_place(path),
    }
}

// The place of the segments behind `metrics`: none, or the slash.
fn metrics_place(path: &[Text]) -> Option<Place>
    ensures { result ≡ lookup.metrics_place path.now }
{
    match path {
        [] => Some(Place::OfMetrics),
        [last] if last.as_str().is_empty() => Some(Place::OfMetrics),
        _ => None,
    }
}

// The place of a path that doesn't describe the server, of the own ones first.
fn api_place(path: &[Text]) -> Result<Option<Place>, Memory>
    ensures found { IfOk result (λ place. place ≡ lookup.api_place path.now) }
    ensures memory { OnErr result (option_map places.takes_memory (lookup.api_place path.now) ≡ Some true) }
{
    if let Some(rest) = behind(path, "metrics") {
        return Ok(metrics_place(rest));
    }
    if let Some(rest) = behind(path, "watchcache") {
        return Ok(own_place(rest));
    }
    if let Some(rest) = behind(path, "api") {
        return core_place(rest);
    }
    match behind(path, "apis") {
        Some(rest) => group_place(rest),
        None => Ok(None),
    }
}

/// What a method asks for at a place, if the place has it.
pub(crate) fn action_at(place: Place, method: &str) -> Option<Action>
    requires { places.IsPlace place }
    ensures value { result ≡ places.action_at place method.now }
    ensures form { IfSome result places.IsAction }
{
    match place {
        Place::Described(document) => described(document, method),
        Place::Everywhere(resource) => only("GET", Action::Read(resource, None), method),
        Place::Namespaced(resource, ns) => at_namespace(resource, ns, method),
        Place::Named(resource, ns, name) => at_object(resource, ns, name, method),
        Place::OfMetrics => only("GET", Action::Measure, method),
        Place::OfCut => only("POST", Action::Cut, method),
        Place::OfCompact => only("POST", Action::Compact, method),
        Place::OfRestart => only("POST", Action::Restart, method),
        Place::OfDisconnect => only("POST", Action::Disconnect, method),
        Place::OfTransaction => only("POST", Action::Transact, method),
    }
}

fn described(document: Document, method: &str) -> Option<Action>
    requires { places.IsDocument document }
    ensures value { result ≡ places.action_at (Place.Described document) method.now }
    ensures form { IfSome result places.IsAction }
{
    match method {
        "GET" => Some(Action::Describe(document)),
        _ => None,
    }
}

fn at_namespace(resource: Resource, ns: Text, method: &str) -> Option<Action>
    requires { IsNamespace ns }
    ensures value { result ≡ places.action_at (Place.Namespaced resource ns) method.now }
    ensures form { IfSome result places.IsAction }
{
    match method {
        "GET" => Some(Action::Read(resource, Some(ns))),
        "POST" => Some(Action::Create(resource, ns)),
        _ => None,
    }
}

fn at_object(resource: Resource, ns: Text, name: Text, method: &str) -> Option<Action>
    requires namespace { IsNamespace ns }
    requires name { IsObjectName name }
    ensures value { result ≡ places.action_at (Place.Named resource ns name) method.now }
    ensures form { IfSome result places.IsAction }
{
    match method {
        "GET" => Some(Action::Get(resource, ns, name)),
        "PUT" => Some(Action::Replace(resource, ns, name)),
        "DELETE" => Some(Action::Remove(resource, ns, name)),
        _ => None,
    }
}

// The action, where the method is the one that the place has.
fn only(own: &str, action: Action, method: &str) -> Option<Action>
    requires { places.IsAction action }
    ensures value { result ≡ places.only own.now action method.now }
    ensures form { IfSome result places.IsAction }
{
    if method == own { Some(action) } else { None }
}
