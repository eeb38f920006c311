//! Reading terms.

ghost use Rattle.std.specs.Prelude.{◌≡◌, false, length};
ghost use Rattle.kube_meta.specs.Resources.{listed_fields_of};
ghost use Rattle.field_select.specs.declared.reader.Run.TheVariants as runs;
ghost use Rattle.field_select.specs.Bytes.{is_in, left};
ghost use Rattle.field_select.specs.Reading.{field_named, place_among, value_at, term_at, terms_at};
ghost use Rattle.field_select.specs.Left.{Takes, Finds};

use crate::reader::{Reader, Run};
use crate::refusal::FieldNo;
use crate::terms::{Field, Term};
use kube_meta::{Resource, Text};
use std::alloc::Global;

/// At most so many terms stand in a selector.
const MOST_TERMS: u32 = 64;

/// The place of the resource's listed field with this name.
fn listed_place(resource: Resource, name: &str) -> Option<usize>
    ensures { result ≡ place_among (listed_fields_of resource) 0 name.now }
{
    match resource {
        Resource::Pods => {
            if name == "spec.nodeName" {
                return Some(0);
            }
            if name == "status.phase" {
                Some(1)
            } else {
                None
            }
        }
        Resource::ConfigMaps | Resource::Deployments => None,
    }
}

/// The field of the resource that has this name.
#[tactic(auto, unfolding(crate::specs::Reading::field_named))]
fn field_of(resource: Resource, name: &str) -> Option<Field>
    ensures { result ≡ field_named resource name.now }
{
    if name == "metadata.name" {
        return Some(Field::Name);
    }
    if name == "metadata.namespace" {
        return Some(Field::Namespace);
    }
    match listed_place(resource, name) {
        Some(i) => Some(Field::Listed(i)),
        None => None,
    }
}

/// A value, up to a comma or the end.
fn value_of(alloc: Global, reader: &mut Reader) -> Result<Text, FieldNo>
    ensures { Takes reader.old reader.new result (λ end bytes. value_at end false bytes) }
{
    let mut value = String::new(alloc);
    loop {
        value.push_str(reader.take_run(Run::Plain))?;
        let at = reader.place();
        if !reader.takes('\\') {
            if reader.takes('=') {
                return Err(FieldNo::Syntax { at });
            }
            return Ok(Text::from_string(value));
        }
        match reader.escaped() {
            Some(byte) => value.push(byte)?,
            None => return Err(FieldNo::Syntax { at }),
        }
    }
}

#[tactic(auto, unfolding(crate::specs::Reading::term_at))]
fn term_of(alloc: Global, reader: &mut Reader, resource: Resource) -> Result<Term, FieldNo>
    ensures { Takes reader.old reader.new result (term_at resource) }
{
    let at = reader.place();
    let name = reader.take_run(Run::Name);
    let behind = reader.place();
    let Some(equal) = reader.operator() else {
        return Err(FieldNo::Syntax { at: behind });
    };
    let Some(field) = field_of(resource, name) else {
        return Err(FieldNo::UnknownField { at });
    };
    let value = value_of(alloc, reader)?;
    Ok(Term {
        field,
        equal,
        value,
    })
}

/// The terms of a text.
pub fn terms_of(alloc: Global, text: &str, resource: Resource) -> Result<Vec<Term>, FieldNo>
    ensures { Finds result (terms_at resource 64 (length text.now) (left (is_in runs.Commas) text.now)) }
{
    let mut reader = Reader::of(text);
    let mut terms = Vec::new(alloc);
    let _ = reader.take_run(Run::Commas);
    for _ in 0..MOST_TERMS {
        if reader.is_done() {
            return Ok(terms);
        }
        let term = term_of(alloc, &mut reader, resource)?;
        terms.push(term)?;
        let _ = reader.take_run(Run::Commas);
    }
    if reader.is_done() {
        return Ok(terms);
    }
    Err(FieldNo::TooLong)
}
