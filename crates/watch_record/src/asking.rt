//! The watch that a header asks for.

ghost use Rattle.std.specs.Prelude.{◌≡◌, ◌≢◌, IfOk, OnOk, MatchOption, true, false, codes};
ghost use Rattle.std.specs.Option.{option_map_or};
ghost use Rattle.kube_meta.specs.Names.{is_namespace as is_name};
ghost use Rattle.watch_record.specs.Asking.{asked_namespace, first_text, is_watch_request, is_asked, IsAskOf, KeepsSelection};

use crate::header::Header;
use http_read::Params;
use kube_meta::{Memory, Resource, Text, is_namespace};
use select_all::{SelNo, Selection};
use std::alloc::Global;
use watch_rules::WatchAsk;

// The watch that a header asks for, if it asks for one.
pub(crate) fn read_ask(alloc: Global, header: &Header) -> Result<Option<WatchAsk>, Memory>
    ensures { IfOk result (λ found. MatchOption found (is_asked header.now ≡ false)
        (λ ask. (is_asked header.now ≡ true) × IsAskOf header.now ask)) }
{
    let ns = namespace(header)?;
    if !is_allowed(&ns) {
        return Ok(None);
    }
    let params = Params::read(alloc, header.query.as_str())?;
    if !asks_watch(&params) {
        return Ok(None);
    }
    let Some(selection) = read_selection(alloc, header.resource, ns, &params)? else {
        return Ok(None);
    };
    match WatchAsk::from_params(selection, &params) {
        Ok(ask) => Ok(Some(ask)),
        Err(_) => Ok(None),
    }
}

// The namespace, if there is one.
fn namespace(header: &Header) -> Result<Option<Text>, Memory>
    ensures { IfOk result (λ ns. ns ≡ asked_namespace header.now) }
{
    if header.namespace.as_str().is_empty() {
        Ok(None)
    } else {
        Ok(Some(header.namespace.clone()?))
    }
}

fn is_allowed(ns: &Option<Text>) -> bool
    ensures { result ≡ option_map_or is_name ns.now true }
{
    match ns {
        Some(ns) => is_namespace(ns.as_str()),
        None => true,
    }
}

fn asks_watch(params: &Params) -> bool
    ensures { result ≡ is_watch_request params.now }
{
    params.truth("watch").unwrap_or(false)
}

// The selection of the selectors, if they are ones.
fn read_selection(
    alloc: Global,
    resource: Resource,
    ns: Option<Text>,
    params: &Params,
) -> Result<Option<Selection>, Memory>
    ensures { IfOk result (KeepsSelection resource ns
        (first_text (codes "labelSelector") params.now) (first_text (codes "fieldSelector") params.now)) }
{
    let label = params.get("labelSelector").unwrap_or("");
    let field = params.get("fieldSelector").unwrap_or("");
    match Selection::read(alloc, resource, ns, label, field) {
        Ok(selection) => Ok(Some(selection)),
        Err(fault) => {
            unless_memory(fault)?;
            Ok(None)
        }
    }
}

// Want of memory is no fault of a selector.
fn unless_memory(fault: SelNo) -> Result<(), Memory>
    ensures { OnOk result (fault ≢ SelNo.Memory) }
{
    match fault {
        SelNo::Memory => Err(Memory),
        _ => Ok(()),
    }
}
