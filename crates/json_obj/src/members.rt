//! An object's members, written in the order of their names, around values that are put among them.

ghost use Rattle.std.specs.Prelude.{◌≡◌, ◌∷◌, [], ◌++◌, OnOk, IfOk, string_bytes, true, false};
ghost use Rattle.json.specs.Print.{quoted as quoted_text};
ghost use Rattle.serde_json.specs.View.{view, members_view};
ghost use Rattle.serde_json.specs.Written.{has_float, members_have_float, comma_if, compact_text, members_text};
ghost use Rattle.json_obj.specs.Members.{Grows};

use crate::quote::push_quoted;
use kube_meta::Memory;
use serde_json::{Map, Value};
use std::alloc::Global;
use std::cmp::Ordering;
use std::collections::btree_map::Iter;

// Writes a name, after a comma where a member stands before it.
fn push_name(alloc: Global, out: &mut String, later: bool, name: &str) -> Result<(), Memory>
    ensures { OnOk result (string_bytes out.new
        ≡ string_bytes out.old ++ (comma_if later ++ (quoted_text name.now ++ 58 ∷ []))) }
{
    if later {
        out.push_str(",")?;
    }
    push_quoted(alloc, out, name)?;
    out.push_str(":")?;
    Ok(())
}

// Writes one member.
fn push_member(
    alloc: Global,
    out: &mut String,
    later: bool,
    name: &str,
    value: &Value,
) -> Result<(), Memory>
    ensures grows { OnOk result (Grows (string_bytes out.old) (string_bytes out.new)) }
    ensures text { OnOk result (has_float (view value.now) ≡ false → string_bytes out.new ≡ string_bytes out.old
        ++ (comma_if later ++ (quoted_text name.now ++ 58 ∷ compact_text (view value.now)))) }
{
    push_name(alloc, out, later, name)?;
    push_value(alloc, out, value)
}

// Writes a value.
fn push_value(alloc: Global, out: &mut String, value: &Value) -> Result<(), Memory>
    ensures grows { OnOk result (Grows (string_bytes out.old) (string_bytes out.new)) }
    ensures text { OnOk result (has_float (view value.now) ≡ false
        → string_bytes out.new ≡ string_bytes out.old ++ compact_text (view value.now)) }
{
    match value {
        Value::String(text) => push_quoted(alloc, out, text.as_str()),
        _ => out.push_str(value.to_string(alloc)?.as_str()),
    }
}

// The members of an object that are still to be written.
#[derive(Drop)]
pub(crate) struct Unwritten<'a> {
    head: Option<(&'a String, &'a Value)>,
    rest: Iter<'a, String, Value>,
    // Whether a member stands before them, so that a comma comes first.
    later: bool,
}

impl<'a> Unwritten<'a> {
    ghost use Rattle.json_obj.specs.Members.{left_of, WritesBelow, Opens, WritesText};

    pub(crate) fn of(members: &'a Map<String, Value>) -> Unwritten<'a>
        ensures left { left_of result ≡ members_view members.now.entries }
        ensures later { result.later ≡ false }
    {
        let mut rest = members.iter();
        let head = rest.next();
        Unwritten {
            head,
            rest,
            later: false,
        }
    }

    // Writes the members whose names stand before this one, and passes over the one that has it.
    fn write_below(&mut self, alloc: Global, out: &mut String, name: &str) -> Result<(), Memory>
        ensures grows { OnOk result (Grows (string_bytes out.old) (string_bytes out.new)) }
        ensures plain { OnOk result (members_have_float (left_of self.old) ≡ false
            → members_have_float (left_of self.new) ≡ false) }
        ensures text { OnOk result (members_have_float (left_of self.old) ≡ false
            → WritesBelow name.now (string_bytes out.old) self.old (string_bytes out.new) self.new) }
    {
        'members: loop {
            let Some((key, value)) = self.head else {
                return Ok(());
            };
            match name.cmp(key.as_str()) {
                Ordering::Less => return Ok(()),
                Ordering::Equal => {
                    self.head = self.rest.next();
                    return Ok(());
                }
                Ordering::Greater => {
                    push_member(alloc, out, self.later, key.as_str(), value)?;
                    self.later = true;
                    self.head = self.rest.next();
                }
            }
        }
    }

    // Writes the members whose names stand before this one, and then the name, whose value is left to the caller.
    pub(crate) fn open(&mut self, alloc: Global, out: &mut String, name: &str) -> Result<(), Memory>
        ensures grows { OnOk result (Grows (string_bytes out.old) (string_bytes out.new)) }
        ensures plain { OnOk result (members_have_float (left_of self.old) ≡ false
            → members_have_float (left_of self.new) ≡ false) }
        ensures later { OnOk result (self.new.later ≡ true) }
        ensures text { OnOk result (members_have_float (left_of self.old) ≡ false
            → Opens name.now (string_bytes out.old) self.old.later (left_of self.old)
            (string_bytes out.new) (left_of self.new)) }
    {
        self.write_below(alloc, out, name)?;
        push_name(alloc, out, self.later, name)?;
        self.later = true;
        Ok(())
    }

    // Writes the members whose names stand before this one, and then the name with this text.
    pub(crate) fn write_text(
        &mut self,
        alloc: Global,
        out: &mut String,
        name: &str,
        text: &str,
    ) -> Result<(), Memory>
        ensures grows { OnOk result (Grows (string_bytes out.old) (string_bytes out.new)) }
        ensures plain { OnOk result (members_have_float (left_of self.old) ≡ false
            → members_have_float (left_of self.new) ≡ false) }
        ensures later { OnOk result (self.new.later ≡ true) }
        ensures text { OnOk result (members_have_float (left_of self.old) ≡ false
            → WritesText name.now text.now (string_bytes out.old) self.old.later (left_of self.old)
            (string_bytes out.new) (left_of self.new)) }
    {
        self.open(alloc, out, name)?;
        push_quoted(alloc, out, text)
    }

    // Writes all that is left, and the closing brace.
    pub(crate) fn close(mut self, alloc: Global, out: &mut String) -> Result<(), Memory>
        ensures grows { OnOk result (Grows (string_bytes out.old) (string_bytes out.new)) }
        ensures text { OnOk result (members_have_float (left_of self.entry) ≡ false → string_bytes out.new
            ≡ string_bytes out.old ++ members_text self.entry.later (left_of self.entry)) }
    {
        'members: while let Some((key, value)) = self.head {
            push_member(alloc, out, self.later, key.as_str(), value)?;
            self.later = true;
            self.head = self.rest.next();
        }
        out.push_str("}")
    }
}
