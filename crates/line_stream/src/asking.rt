//! Requests, written.

ghost use Rattle.std.specs.Prelude.{◌≡◌, [], IfOk, OnOk};
ghost use Rattle.std.specs.String.{string_bytes};
ghost use Rattle.edge_io.specs.Sent.{Writes, sent_through};
ghost use Rattle.form_urlencoded.specs.Form.{extend_pairs};
ghost use Rattle.line_stream.specs.AskAnswers.{Asks};
ghost use Rattle.line_stream.specs.Requests.{pairs_of, request_of, request_text, selector_pair, start_pairs};

use crate::Start;
use edge_io::{Failed, Sink};
use form_urlencoded::Serializer;
use itoa::Buffer;
use kube_meta::{Memory, Text};
use std::alloc::Global;

/// Why a watch wasn't asked for. What was written is then a beginning of the request.
#[derive(Clone, Copy, Debug, PartialEq, Eq)]
pub enum AskNo {
    /// The sink failed, and its count of faults rose.
    WriteFault,
    /// There was no memory for the request. Nothing was written.
    Memory,
}

/// Asks for a watch of the pods that the two selectors select, in a namespace or in all. Bookmarks may come. What is
/// written isn't held back.
pub fn ask_watch<K: Sink>(
    alloc: Global,
    ns: &Option<Text>,
    start: Start,
    label: &str,
    field: &str,
    sink: &mut K,
) -> Result<(), AskNo>
    ensures { Asks result (request_text ns.now start label.now field.now)
        (sent_through K.written K.settled K.faults sink.old sink.new) }
{
    match form(alloc, start, label, field) {
        Ok(form) => send(sink, ns, form.as_str()),
        Err(_) => Err(AskNo::Memory),
    }
}

// The query.
fn form(alloc: Global, start: Start, label: &str, field: &str) -> Result<String, Memory>
    ensures { IfOk result (λ form. string_bytes form ≡ extend_pairs [] (pairs_of start label.now field.now)) }
{
    let mut form = Serializer::new(String::new(alloc));
    form.append_pair("watch", "true")?;
    add_start(&mut form, start)?;
    form.append_pair("allowWatchBookmarks", "true")?;
    add_selector(&mut form, "labelSelector", label)?;
    add_selector(&mut form, "fieldSelector", field)?;
    Ok(form.finish())
}

// Adds where the watch starts.
fn add_start(form: &mut Serializer<Global>, start: Start) -> Result<(), Memory>
    ensures { OnOk result (form.new ≡ record form.old { form = extend_pairs form.old.form (start_pairs start) }) }
{
    match start {
        Start::State => {
            form.append_pair("sendInitialEvents", "true")?;
            form.append_pair("resourceVersionMatch", "NotOlderThan")?;
        }
        Start::Revision(from) => {
            let mut digits = Buffer::new();
            form.append_pair("resourceVersion", digits.format(from))?;
        }
    }
    Ok(())
}

/// Adds a selector, or another pair, where it has a text.
pub(crate) fn add_selector(
    form: &mut Serializer<Global>,
    name: &str,
    text: &str,
) -> Result<(), Memory>
    ensures { OnOk result (form.new ≡ record form.old { form = extend_pairs form.old.form (selector_pair name.now text.now) }) }
{
    if text.is_empty() {
        return Ok(());
    }
    form.append_pair(name, text)?;
    Ok(())
}

// Writes the request.
fn write<K: Sink>(sink: &mut K, ns: &Option<Text>, form: &str) -> Result<(), Failed>
    ensures { Writes result (request_of ns.now form.now) (sent_through K.written K.settled K.faults sink.old sink.new) }
{
    match ns {
        Some(ns) => sink.write_pieces(&[
            b"GET /api/v1/namespaces/",
            ns.as_str().as_bytes(),
            b"/pods?",
            form.as_bytes(),
            b" HTTP/1.1\r\nHost: localhost\r\n\r\n",
        ]),
        None => sink.write_pieces(&[
            b"GET /api/v1/pods?",
            form.as_bytes(),
            b" HTTP/1.1\r\nHost: localhost\r\n\r\n",
        ]),
    }
}

// Writes the request, and sends it on.
fn send<K: Sink>(sink: &mut K, ns: &Option<Text>, form: &str) -> Result<(), AskNo>
    ensures { Asks result (request_of ns.now form.now) (sent_through K.written K.settled K.faults sink.old sink.new) }
{
    match write(sink, ns, form) {
        Ok(()) => {}
        Err(_) => return Err(AskNo::WriteFault),
    }
    match sink.flush() {
        Ok(()) => Ok(()),
        Err(_) => Err(AskNo::WriteFault),
    }
}
