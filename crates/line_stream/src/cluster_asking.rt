//! Requests to a cluster, written.

ghost use Rattle.std.specs.Prelude.{◌≡◌, [], ◌++◌, IfOk, codes};
ghost use Rattle.std.specs.List.{flat_map};
ghost use Rattle.std.specs.String.{string_bytes};
ghost use Rattle.edge_io.specs.Sent.{sent_through};
ghost use Rattle.form_urlencoded.specs.Form.{extend_pairs};
ghost use Rattle.line_stream.specs.AskAnswers.{Asks};
ghost use Rattle.line_stream.specs.ClusterRequests as request;

use crate::asking::{AskNo, add_selector};
use edge_io::Sink;
use form_urlencoded::Serializer;
use itoa::Buffer;
use kube_meta::{Memory, Resource, Text};
use std::alloc::Global;

/// Asks for a page of 500 objects, in a namespace or in all: the first, where the token is empty, or the one that it
/// stands for. What is written isn't held back.
pub fn ask_page<K: Sink>(
    alloc: Global,
    resource: Resource,
    ns: &Option<Text>,
    token: &str,
    sink: &mut K,
) -> Result<(), AskNo>
    ensures { Asks result (request.page_request resource ns.now token.now)
        (sent_through K.written K.settled K.faults sink.old sink.new) }
{
    match page_form(alloc, token) {
        Ok(form) => send_collection(sink, resource, ns, form.as_str()),
        Err(_) => Err(AskNo::Memory),
    }
}

/// Asks for a watch from a revision, in a namespace or in all, that ends after a minute. Bookmarks may come. What is
/// written isn't held back.
pub fn ask_changes<K: Sink>(
    alloc: Global,
    resource: Resource,
    ns: &Option<Text>,
    from: u64,
    sink: &mut K,
) -> Result<(), AskNo>
    ensures { Asks result (request.changes_request resource ns.now from)
        (sent_through K.written K.settled K.faults sink.old sink.new) }
{
    match changes_form(alloc, from) {
        Ok(form) => send_collection(sink, resource, ns, form.as_str()),
        Err(_) => Err(AskNo::Memory),
    }
}

/// Asks for the namespace `kube-system`, which each cluster has. What is written isn't held back.
pub fn ask_namespace<K: Sink>(sink: &mut K) -> Result<(), AskNo>
    ensures { Asks result request.namespace_request (sent_through K.written K.settled K.faults sink.old sink.new) }
{
    send_pieces(
        sink,
        &[
            b"GET /api/v1/namespaces/kube-system",
            b" HTTP/1.1\r\nHost: localhost\r\nAccept: application/json\r\n\r\n",
        ],
    )
}

// The query of a page.
fn page_form(alloc: Global, token: &str) -> Result<String, Memory>
    ensures { IfOk result (λ form. string_bytes form ≡ extend_pairs [] (request.page_pairs token.now)) }
{
    let mut form = Serializer::new(String::new(alloc));
    form.append_pair("limit", "500")?;
    add_selector(&mut form, "continue", token)?;
    Ok(form.finish())
}

// The query of a watch.
fn changes_form(alloc: Global, from: u64) -> Result<String, Memory>
    ensures { IfOk result (λ form. string_bytes form ≡ extend_pairs [] (request.changes_pairs from)) }
{
    let mut digits = Buffer::new();
    let mut form = Serializer::new(String::new(alloc));
    form.append_pair("watch", "true")?;
    form.append_pair("resourceVersion", digits.format(from))?;
    form.append_pair("allowWatchBookmarks", "true")?;
    form.append_pair("timeoutSeconds", "60")?;
    Ok(form.finish())
}

// Writes a request for the objects of a resource, and sends it on.
fn send_collection<K: Sink>(
    sink: &mut K,
    resource: Resource,
    ns: &Option<Text>,
    form: &str,
) -> Result<(), AskNo>
    ensures { Asks result (request.collection_request resource ns.now form.now)
        (sent_through K.written K.settled K.faults sink.old sink.new) }
{
    send_below(sink, resource.base_path(), resource.plural(), ns, form)
}

// Writes a request for the objects of this name below a base, and sends it on.
fn send_below<'x, K: Sink>(
    sink: &mut K,
    base: &'x str,
    plural: &'x str,
    ns: &'x Option<Text>,
    form: &'x str,
) -> Result<(), AskNo>
    ensures { Asks result (request.get_request (request.path_below base.now plural.now ns.now ++ (codes "?" ++ form.now)))
        (sent_through K.written K.settled K.faults sink.old sink.new) }
{
    match ns {
        Some(ns) => send_pieces(
            sink,
            &[
                b"GET ",
                base.as_bytes(),
                b"/namespaces/",
                ns.as_str().as_bytes(),
                b"/",
                plural.as_bytes(),
                b"?",
                form.as_bytes(),
                b" HTTP/1.1\r\nHost: localhost\r\nAccept: application/json\r\n\r\n",
            ],
        ),
        None => send_pieces(
            sink,
            &[
                b"GET ",
                base.as_bytes(),
                b"/",
                plural.as_bytes(),
                b"?",
                form.as_bytes(),
                b" HTTP/1.1\r\nHost: localhost\r\nAccept: application/json\r\n\r\n",
            ],
        ),
    }
}

// Writes pieces one behind the other, and sends them on.
fn send_pieces<K: Sink>(sink: &mut K, pieces: &[&[u8]]) -> Result<(), AskNo>
    ensures { Asks result (flat_map (λ piece. piece.now) pieces.now)
        (sent_through K.written K.settled K.faults sink.old sink.new) }
{
    match sink.write_pieces(pieces) {
        Ok(()) => {}
        Err(_) => return Err(AskNo::WriteFault),
    }
    match sink.flush() {
        Ok(()) => Ok(()),
        Err(_) => Err(AskNo::WriteFault),
    }
}
