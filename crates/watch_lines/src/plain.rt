//! What the value of an object may hold: no float, no deep nesting.

ghost use Rattle.std.specs.Prelude.{◌≡◌, nat_le};
ghost use Rattle.serde_json.specs.Data.{depth, items_depth, members_depth};
ghost use Rattle.serde_json.specs.View.{view, items_view, members_view};
ghost use Rattle.serde_json.specs.Written.{has_float, items_have_float, members_have_float};

use serde_json::{Map, Value};

/// How deep the arrays and objects of an object may nest.
pub(crate) const MAX_NESTING: usize = 64;

/// Whether some number in the value is a float.
#[cycle(floats)]
pub(crate) fn holds_float(value: &Value) -> bool
    ensures { result ≡ has_float (view value.now) }
{
    match value {
        Value::Number(number) => number.is_f64(),
        Value::Array(items) => item_holds_float(items),
        Value::Object(members) => member_holds_float(members),
        _ => false,
    }
}

#[cycle(floats)]
fn item_holds_float(items: &Vec<Value>) -> bool
    ensures { result ≡ items_have_float (items_view items.now.items) }
{
    for item in items {
        if holds_float(item) {
            return true;
        }
    }
    false
}

#[cycle(floats)]
fn member_holds_float(members: &Map<String, Value>) -> bool
    ensures { result ≡ members_have_float (members_view members.now.entries) }
{
    for (_, member) in members.iter() {
        if holds_float(member) {
            return true;
        }
    }
    false
}

/// Whether the value's arrays and objects nest at most `room` deep.
#[cycle(nesting)]
pub(crate) fn nests_within(value: &Value, room: usize) -> bool
    ensures { result ≡ nat_le (depth (view value.now)) room }
{
    match value {
        Value::Array(items) => room > 0 && items_nest_within(items, room - 1),
        Value::Object(members) => room > 0 && members_nest_within(members, room - 1),
        _ => true,
    }
}

#[cycle(nesting)]
fn items_nest_within(items: &Vec<Value>, room: usize) -> bool
    ensures { result ≡ nat_le (items_depth (items_view items.now.items)) room }
{
    for item in items {
        if !nests_within(item, room) {
            return false;
        }
    }
    true
}

#[cycle(nesting)]
fn members_nest_within(members: &Map<String, Value>, room: usize) -> bool
    ensures { result ≡ nat_le (members_depth (members_view members.now.entries)) room }
{
    for (_, member) in members.iter() {
        if !nests_within(member, room) {
            return false;
        }
    }
    true
}
