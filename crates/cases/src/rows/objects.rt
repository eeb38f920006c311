//! Small keys and objects, writes of them, and rows in words.

use crate::rows::wording::Wording;
use crate::rows::words::split;
use json_obj::read_obj;
use kube_meta::{Key, Memory, Obj, Resource, Row, Text, is_namespace};
use std::alloc::Global;
use up_store::WriteAsk;

/// The key of this name in `default`. The names of the cases are good ones, so all that can be missing is memory.
pub fn key(alloc: Global, name: &str) -> Result<Key, Memory> {
    Key::new(Text::new(alloc, "default")?, Text::new(alloc, name)?).map_err(|_| Memory)
}

/// The object of this name in a namespace, which is bound to a node and has these labels, a JSON object's members.
pub fn object(
    alloc: Global,
    resource: Resource,
    (ns, name): (&str, &str),
    node: &str,
    labels: &str,
) -> Result<Obj, Memory> {
    let text = format!(in alloc;
        "{{\"metadata\":{{\"name\":\"{name}\",\"labels\":{{{labels}}}}},\"spec\":{{\"nodeName\":\"{node}\"}}}}"
    )?;
    read(alloc, resource, ns, text.as_bytes())
}

// The object of a text, which is a good one.
fn read(alloc: Global, resource: Resource, ns: &str, text: &[u8]) -> Result<Obj, Memory> {
    let ns = Text::new(alloc, ns)?;
    if !is_namespace(ns.as_str()) {
        return Err(Memory);
    }
    match read_obj(alloc, text, resource, &ns, None) {
        Ok((obj, _)) => Ok(obj),
        Err(_) => Err(Memory),
    }
}

/// The write that is written so: `create NAMED [NODE [APP]]`, `replace NAMED [NODE [APP]]`, `replace NAMED GIVEN` or
/// `remove NAMED`. `NAMED` is a pod's name, or a resource's plural, a `/` and a name; `APP` is the value of a label;
/// `GIVEN` is the revision that is replaced.
pub fn write_of(alloc: Global, text: &str) -> Result<WriteAsk, Memory> {
    let (word, rest) = split(text);
    let (named, values) = split(rest);
    let (plural, name) = named.split_once('/').unwrap_or(("pods", named));
    let resource = Resource::of_plural(plural.as_bytes()).unwrap_or(Resource::Pods);
    if word == "remove" {
        let key = key(alloc, name)?;
        return Ok(WriteAsk::Remove { resource, key });
    }
    let obj = bound(alloc, resource, name, values)?;
    if word == "create" {
        return Ok(WriteAsk::Create { resource, obj });
    }
    let given = values.parse::<u64>().ok();
    Ok(WriteAsk::Replace {
        resource,
        obj,
        given,
    })
}

// An object that is bound to a node, and has a label or none.
fn bound(alloc: Global, resource: Resource, name: &str, values: &str) -> Result<Obj, Memory> {
    let (node, app) = split(values);
    let (front, back) = if app.is_empty() {
        ("", "")
    } else {
        ("\"app\":\"", "\"")
    };
    let labels = format!(in alloc; "{front}{app}{back}")?;
    object(alloc, resource, ("default", name), node, labels.as_str())
}

/// Tells a row as `[p-1 2]`: its object's name and its revision.
pub fn tell_row(row: &Row, told: &mut Wording) {
    let name = row.obj.key.name();
    told.show(&format_args!("[{name} {}]", row.rev));
}

/// Tells rows, each behind these words.
pub fn tell_rows(rows: &[Row], before: &str, told: &mut Wording) {
    for row in rows {
        told.add(before);
        tell_row(row, told);
    }
}
