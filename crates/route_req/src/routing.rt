//! Routes.

ghost use Rattle.std.specs.Prelude.{◌≡◌, ℕ, IfOk, IfErr, IfSome, IsTrue, Some, None, Ok, Err, false, codes};
ghost use Rattle.kube_meta.specs.Names.{IsNamespace, IsObjectName};
ghost use Rattle.route_req.specs.Places.{IsAction};
ghost use Rattle.route_req.specs.Asks as asks;
ghost use Rattle.route_req.specs.Asks.{IsRoute, IsRefusal};

use crate::documents::Document;
use crate::places::{Action, action_at, place_at};
use crate::transactions::{TxTextNo, key_of, transaction};
use crate::unserved::{Unserved, has_unread_body, is_dry_run, option_asked};
use http_read::{Params, Req};
use json_obj::{ObjNo, read_obj};
use kube_meta::{Memory, Resource, Rev, Text};
use list_rules::{AskNo, GetAsk, ListAsk};
use select_all::{SelNo, Selection};
use std::alloc::Global;
use up_store::{Operate, Transaction, WriteAsk};
use watch_rules::{WatchAsk, WatchNo};

/// What a request asks for.
#[derive(Debug, Drop)]
pub enum Routed {
    /// A create, a replacement or a removal of one object.
    Write(WriteAsk),
    /// One object.
    Get(GetAsk),
    /// The objects of a selection, or a page of them.
    List(ListAsk),
    /// The changes of a selection from a revision on.
    Watch(WatchAsk),
    /// An operation on the log and its server.
    Operate(Operate),
    /// Several writes at one revision.
    Transact(Transaction),
    /// What the server tells of itself.
    Describe(Document),
    /// What the log, its caches and their clients come to, as a monitor asks for it.
    Metrics,
}

/// Why a request has no route; the first of these that holds.
#[derive(Clone, Copy, Debug, PartialEq, Eq)]
pub enum RouteNo {
    /// The request was made for another site than the server's own.
    ForeignSite,
    /// A write has a body of a media type that isn't read.
    MediaType,
    /// A write asks for what isn't served: in its query, which is looked at before the path, or, behind the method, in
    /// the body of a removal.
    Unserved(Unserved),
    /// The path names nothing that is served, or its namespace or name is none.
    NoPath,
    /// What the path names doesn't have this method.
    NoMethod,
    /// A selector of a list or a watch is refused.
    Selector(SelNo),
    /// The options of a list or a get are refused.
    List(AskNo),
    /// The options of a watch are refused.
    Watch(WatchNo),
    /// The body holds no object that can be stored.
    Object(ObjNo),
    /// The parameter `revision` of a compaction is absent or is no revision.
    Operation,
    /// The body is no transaction.
    Transaction(TxTextNo),
    /// There was no memory.
    Memory,
}

impl From<Memory> for RouteNo {
    ghost use Rattle.std.specs.Prelude.{◌≡◌};
    ghost use Rattle.route_req.specs.declared.routing.RouteNo.TheVariants as refusals;

    ghost from_gives = { λ _ refusal. refusal ≡ refusals.Memory };

    fn from(_: Memory) -> RouteNo {
        RouteNo::Memory
    }
}

// Whether a read of a collection is a watch.
fn is_watch(params: &Params) -> bool
    ensures { result ≡ asks.is_watch params.now }
{
    params.truth("watch").unwrap_or(false)
}

// How the refusals of the parts are told.

fn refused_selector(fault: SelNo) -> RouteNo
    ensures { result ≡ asks.refused_selector fault }
{
    match fault {
        SelNo::Memory => RouteNo::Memory,
        fault => RouteNo::Selector(fault),
    }
}

fn refused_list(fault: AskNo) -> RouteNo
    ensures { result ≡ asks.refused_list fault }
{
    match fault {
        AskNo::Memory => RouteNo::Memory,
        fault => RouteNo::List(fault),
    }
}

fn refused_transaction(fault: TxTextNo) -> RouteNo
    ensures { result ≡ asks.refused_transaction fault }
{
    match fault {
        TxTextNo::Memory => RouteNo::Memory,
        fault => RouteNo::Transaction(fault),
    }
}

fn refused_object(fault: ObjNo) -> RouteNo
    ensures { result ≡ asks.refused_object fault }
{
    match fault {
        ObjNo::Memory => RouteNo::Memory,
        fault => RouteNo::Object(fault),
    }
}

// The selection of a read.
fn selection(
    alloc: Global,
    resource: Resource,
    ns: Option<Text>,
    params: &Params,
) -> Result<Selection, RouteNo>
    ensures ok { IfOk result (asks.IsSelection resource ns params.now) }
    ensures refused { IfErr result (asks.RefusesRead resource ns params.now) }
{
    let label = params.get("labelSelector").unwrap_or("");
    let field = params.get("fieldSelector").unwrap_or("");
    match Selection::read(alloc, resource, ns, label, field) {
        Ok(selection) => Ok(selection),
        Err(fault) => Err(refused_selector(fault)),
    }
}

// A list or a watch.
fn read(
    alloc: Global,
    resource: Resource,
    ns: Option<Text>,
    params: &Params,
) -> Result<Routed, RouteNo>
    ensures ok { IfOk result (asks.AsksRead resource ns params.now) }
    ensures refused { IfErr result (asks.RefusesRead resource ns params.now) }
{
    let selection = match selection(alloc, resource, ns, params) {
        Ok(selection) => selection,
        Err(fault) => return Err(fault),
    };
    match is_watch(params) {
        true => watch(selection, params),
        false => list(alloc, selection, params),
    }
}

fn list(alloc: Global, selection: Selection, params: &Params) -> Result<Routed, RouteNo>
    ensures ok { IfOk result (asks.AsksList selection params.now) }
    ensures refused { IfErr result (asks.RefusesList selection params.now) }
{
    match ListAsk::from_params(alloc, selection, params) {
        Ok(ask) => Ok(Routed::List(ask)),
        Err(fault) => Err(refused_list(fault)),
    }
}

fn watch(selection: Selection, params: &Params) -> Result<Routed, RouteNo>
    ensures ok { IfOk result (asks.AsksWatch selection params.now) }
    ensures refused { IfErr result (asks.RefusesWatch params.now) }
{
    match WatchAsk::from_params(selection, params) {
        Ok(ask) => Ok(Routed::Watch(ask)),
        Err(fault) => Err(RouteNo::Watch(fault)),
    }
}

fn create(alloc: Global, resource: Resource, ns: Text, body: &[u8]) -> Result<Routed, RouteNo>
    requires { IsNamespace ns }
    ensures ok { IfOk result (asks.AsksCreate resource ns body.now) }
    ensures refused { IfErr result (asks.RefusesObject resource ns None body.now) }
{
    match read_obj(alloc, body, resource, &ns, None) {
        Ok((obj, _)) => Ok(Routed::Write(WriteAsk::Create { resource, obj })),
        Err(fault) => Err(refused_object(fault)),
    }
}

fn replace(
    alloc: Global,
    resource: Resource,
    ns: Text,
    name: Text,
    body: &[u8],
) -> Result<Routed, RouteNo>
    requires { IsNamespace ns }
    ensures ok { IfOk result (asks.AsksReplace resource ns name body.now) }
    ensures refused { IfErr result (asks.RefusesObject resource ns (Some name) body.now) }
{
    match read_obj(alloc, body, resource, &ns, Some(&name)) {
        Ok((obj, given)) => Ok(Routed::Write(WriteAsk::Replace {
            resource,
            obj,
            given,
        })),
        Err(fault) => Err(refused_object(fault)),
    }
}

fn remove(
    alloc: Global,
    resource: Resource,
    ns: Text,
    name: Text,
    body: &[u8],
) -> Result<Routed, RouteNo>
    requires namespace { IsNamespace ns }
    requires name { IsObjectName name }
    ensures ok { IfOk result (asks.AsksRemove resource ns name body.now) }
    ensures refused { IfErr result (asks.RefusesRemove body.now) }
{
    match option_asked(alloc, body)? {
        Some(option) => Err(RouteNo::Unserved(option)),
        None => {
            let key = key_of(ns, name)?;
            Ok(Routed::Write(WriteAsk::Remove { resource, key }))
        }
    }
}

fn get(resource: Resource, ns: Text, name: Text, params: &Params) -> Result<Routed, RouteNo>
    requires namespace { IsNamespace ns }
    requires name { IsObjectName name }
    ensures ok { IfOk result (asks.AsksGet resource ns name params.now) }
    ensures refused { IfErr result (asks.RefusesGet params.now) }
{
    let key = key_of(ns, name)?;
    match GetAsk::from_params(resource, key, params) {
        Ok(ask) => Ok(Routed::Get(ask)),
        Err(fault) => Err(RouteNo::List(fault)),
    }
}

fn compact(params: &Params) -> Result<Routed, RouteNo>
    ensures ok { IfOk result (asks.AsksCompact params.now) }
    ensures refused { IfErr result (asks.RefusesCompact params.now) }
{
    let Some(text) = params.get("revision") else {
        return Err(RouteNo::Operation);
    };
    match Rev::read(text.as_bytes()) {
        Ok(at) => Ok(Routed::Operate(Operate::Compact { at })),
        Err(_) => Err(RouteNo::Operation),
    }
}

fn transact(alloc: Global, body: &[u8]) -> Result<Routed, RouteNo>
    ensures ok { IfOk result (asks.AsksTransact body.now) }
    ensures refused { IfErr result (asks.RefusesTransact body.now) }
{
    match transaction(alloc, body) {
        Ok(transaction) => Ok(Routed::Transact(transaction)),
        Err(fault) => Err(refused_transaction(fault)),
    }
}

// The route of an action.
fn act(alloc: Global, action: Action, req: &Req) -> Result<Routed, RouteNo>
    requires { IsAction action }
    ensures ok { IfOk result (asks.Asks action req.now) }
    ensures refused { IfErr result (asks.Refuses action req.now) }
{
    match action {
        Action::Describe(document) => Ok(Routed::Describe(document)),
        Action::Measure => Ok(Routed::Metrics),
        Action::Read(resource, ns) => read(alloc, resource, ns, &req.params),
        Action::Create(resource, ns) => create(alloc, resource, ns, req.body.as_slice()),
        Action::Get(resource, ns, name) => get(resource, ns, name, &req.params),
        Action::Replace(resource, ns, name) => {
            replace(alloc, resource, ns, name, req.body.as_slice())
        }
        Action::Remove(resource, ns, name) => {
            remove(alloc, resource, ns, name, req.body.as_slice())
        }
        Action::Cut => Ok(Routed::Operate(Operate::Cut)),
        Action::Compact => compact(&req.params),
        Action::Restart => Ok(Routed::Operate(Operate::Restart)),
        Action::Disconnect => Ok(Routed::Operate(Operate::Disconnect)),
        Action::Transact => transact(alloc, req.body.as_slice()),
    }
}

// What a request asks for by its path and what follows, whoever made it.
fn route_at_path(alloc: Global, req: &Req) -> Result<Routed, RouteNo>
    ensures ok { IfOk result (asks.AsksAtPath req.now) }
    ensures refused { IfErr result (asks.RefusesAtPath req.now) }
    ensures plain { IfErr result (λ fault. asks.wraps_memory fault ≡ false) }
{
    let Some(place) = place_at(req.path.as_slice())? else {
        return Err(RouteNo::NoPath);
    };
    match action_at(place, req.method.as_str()) {
        Some(action) => act(alloc, action, req),
        None => Err(RouteNo::NoMethod),
    }
}

// Why a request is refused whatever its path.
fn first_refusal(req: &Req) -> Option<RouteNo>
    ensures value { result ≡ asks.first_refusal req.now }
    ensures plain { IfSome result (λ fault. asks.wraps_memory fault ≡ false) }
{
    if req.foreign {
        return Some(RouteNo::ForeignSite);
    }
    if has_unread_body(req) {
        return Some(RouteNo::MediaType);
    }
    if is_dry_run(req) {
        return Some(RouteNo::Unserved(Unserved::DryRun));
    }
    None
}

/// What a request asks for, or the first reason why it has no route: what was made for another site is refused first,
/// then a write whose body is of a media type that isn't read, and one that is to be tried alone. Then the path is
/// tested, then the method, then selectors, options, and the object, the transaction or the options in the body.
///
/// The paths and methods are those of the Kubernetes API for pods, config maps and deployments
/// ("Resource URIs" of the API concepts), GET of what describes the server (its version, its API
/// groups and resources, an OpenAPI document, each namespace, and the probes) and of `/metrics`, and POST of
/// `/watchcache/cut`, `/watchcache/compact`, `/watchcache/restart`, `/watchcache/disconnect` and
/// `/watchcache/transaction`. A GET of a collection is a watch exactly where the parameter `watch` is true.
pub fn route(alloc: Global, req: &Req) -> Result<Routed, RouteNo>
    ensures ok { IfOk result (IsRoute req.now) }
    ensures refused { IfErr result (IsRefusal req.now) }
    ensures plain { IfErr result (λ fault. asks.wraps_memory fault ≡ false) }
{
    match first_refusal(req) {
        Some(fault) => Err(fault),
        None => route_at_path(alloc, req),
    }
}
