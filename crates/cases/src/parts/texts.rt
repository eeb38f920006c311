//! Texts that are read: revisions, keys, selectors; and one that is written.

use crate::rows::{NO_STEP, Steps, Wording, plain, split};
use edge_io::MemSink;
use field_select::FieldSel;
use http_send::{begin_chunk, end_chunk, part};
use kube_meta::{Key, KeyNo, Memory, Resource, Rev, Text};
use label_select::LabelSel;
use std::alloc::Global;

/// Texts need nothing that stands from step to step.
#[derive(Clone, Copy)]
pub struct Texts;

impl Steps for Texts {
    fn answer(&mut self, alloc: Global, step: &str, told: &mut Wording) -> Result<(), Memory> {
        tell(alloc, plain(alloc, step)?.as_str(), told);
        Ok(())
    }
}

/// What is read, or the first fault; of keys and selectors the fault alone.
fn tell(alloc: Global, step: &str, told: &mut Wording) {
    let (what, text) = split(step);
    match what {
        "revision" => told.debug(&Rev::read(text.as_bytes())),
        "key" => told.debug(&key_fault(alloc, text)),
        "labels" => told.debug(&LabelSel::read(alloc, text).err()),
        "fields" => told.debug(&FieldSel::read(alloc, text, Resource::Pods).err()),
        "chunk" => chunk(alloc, told),
        _ => told.add(NO_STEP),
    }
}

/// Why a namespace and a name make no key, if they don't.
fn key_fault(alloc: Global, text: &str) -> Result<Option<KeyNo>, Memory> {
    let (ns, name) = split(text);
    Ok(Key::new(Text::new(alloc, ns)?, Text::new(alloc, name)?).err())
}

/// A chunk of one byte, in parts of none, of that byte and of none.
fn chunk(alloc: Global, told: &mut Wording) {
    let mut sink = MemSink::new(usize::MAX, Vec::new(alloc));
    let _ = begin_chunk(&mut sink, 1);
    let _ = part(&mut sink, b"");
    let _ = part(&mut sink, b"x");
    let _ = part(&mut sink, b"");
    let _ = end_chunk(&mut sink);
    told.debug(&str::from_utf8(sink.bytes()).unwrap_or("no text"));
}
