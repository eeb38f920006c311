//! The text of a transaction.

ghost use Rattle.std.specs.Prelude.{◌≡◌, ◌≢◌, ◌≤◌, ℕ, List, length, map, IfOk, IfErr, IfSome, Some, None, true, false, option_map, is_some};
ghost use Rattle.serde_json.specs.Data.{Data};
ghost use Rattle.serde_json.specs.View.{view, items_of};
ghost use Rattle.serde_json.specs.Find.{as_array};
ghost use Rattle.kube_meta.specs.Keys.{joined};
ghost use Rattle.kube_meta.specs.Names.{IsNamespace, IsObjectName};
ghost use Rattle.json_obj.specs.Objects.{members_refusal, IsObjectOf, Stores};
ghost use Rattle.up_store.specs.Transactions.{target_of, IsFirstRepeat};
ghost use Rattle.route_req.specs.Texts as texts;
ghost use Rattle.route_req.specs.Texts.{AsksItem, RefusesItem, AskAll, IsJsonText, IsList, IsListOfItems, AsksTransaction, RefusesText};

use json_obj::{ObjNo, obj_of, read_value};
use kube_meta::{Key, KeyNo, Memory, Obj, Resource, Text, is_namespace, is_object_name};
use serde_json::Value;
use std::alloc::Global;
use up_store::{Transaction, TxNo, WriteAsk};

/// The most items of a transaction.
const MAX_ITEMS: usize = 64;

/// Why a body is no transaction; the first of these that holds. Items are counted from 0, and are
/// tested one after the other.
#[derive(Clone, Copy, Debug, PartialEq, Eq)]
pub enum TxTextNo {
    /// The body isn't one JSON text (RFC 8259) in UTF-8, or nests more than 127 deep.
    NotJson,
    /// Some number was written with a fraction or an exponent, or as `-0`, or isn't from -2^63 to
    /// 2^64 - 1.
    Float,
    /// Arrays and objects nest more than 64 deep.
    TooDeep,
    /// The value isn't a list.
    NotList,
    /// The list has no item.
    Empty,
    /// The list has more than 64 items.
    TooManyItems,
    /// The item isn't an object; or its `op`, its `resource` or its `namespace`, or the `name` or
    /// the `object` that its operation needs, is absent or isn't one.
    BadItem { index: u64 },
    /// The item's object can't be stored, for the reason that is told: it is of another kind, or
    /// its metadata isn't one that may be stored.
    BadObject { index: u64, no: ObjNo },
    /// The item is the first of an object of which an earlier one is.
    Repeated { index: u64 },
    /// There was no memory.
    Memory,
}

impl From<Memory> for TxTextNo {
    ghost use Rattle.std.specs.Prelude.{◌≡◌};
    ghost use Rattle.route_req.specs.declared.transactions.TxTextNo.TheVariants as refusals;

    ghost from_gives = { λ _ refusal. refusal ≡ refusals.Memory };

    fn from(_: Memory) -> TxTextNo {
        TxTextNo::Memory
    }
}

/// What an item does.
#[derive(Clone, Copy, Debug, PartialEq, Eq)]
pub(crate) enum Operation {
    Create,
    Replace,
    Remove,
}

/// Why an item asks for no write.
#[derive(Clone, Copy, Debug, PartialEq, Eq)]
pub(crate) enum ItemNo {
    Bad,
    Object(ObjNo),
    Memory,
}

// The text at a member.
fn text_at<'v>(value: &'v Value, name: &str) -> Option<&'v str>
    ensures { option_map (λ text. text.now) result ≡ texts.item_text name.now (view value.now) }
{
    value.get(name).and_then(Value::as_str)
}

fn operation_named(text: &str) -> Option<Operation>
    ensures { result ≡ texts.operation_named text.now }
{
    match text {
        "create" => Some(Operation::Create),
        "replace" => Some(Operation::Replace),
        "remove" => Some(Operation::Remove),
        _ => None,
    }
}

fn operation_in(value: &Value) -> Option<Operation>
    ensures { result ≡ texts.operation_in (view value.now) }
{
    match text_at(value, "op") {
        Some(text) => operation_named(text),
        None => None,
    }
}

fn resource_in(value: &Value) -> Option<Resource>
    ensures { result ≡ texts.item_resource (view value.now) }
{
    match text_at(value, "resource") {
        Some(text) => Resource::of_plural(text.as_bytes()),
        None => None,
    }
}

fn namespace_in(value: &Value) -> Option<&str>
    ensures value { option_map (λ text. text.now) result ≡ texts.namespace_in (view value.now) }
    ensures form { IfSome result (λ text. IsNamespace text.now) }
{
    match text_at(value, "namespace") {
        Some(text) if is_namespace(text) => Some(text),
        _ => None,
    }
}

fn name_in(value: &Value) -> Option<&str>
    ensures value { option_map (λ text. text.now) result ≡ texts.item_name (view value.now) }
    ensures form { IfSome result (λ text. IsObjectName text.now) }
{
    match text_at(value, "name") {
        Some(text) if is_object_name(text) => Some(text),
        _ => None,
    }
}

fn object_in(value: &Value) -> Option<&Value>
    ensures { option_map (λ v. view v.now) result ≡ texts.object_in (view value.now) }
{
    match value.get("object") {
        Some(found) if found.is_object() => Some(found),
        _ => None,
    }
}

// The write of a create.
fn create(alloc: Global, value: &Value, resource: Resource, ns: &str) -> Result<WriteAsk, ItemNo>
    requires op { texts.operation_in (view value.now) ≡ Some Operation.Create }
    requires resource { texts.item_resource (view value.now) ≡ Some resource }
    requires namespace { texts.namespace_in (view value.now) ≡ Some ns.now }
    requires form { IsNamespace ns.now }
    ensures ok { IfOk result (AsksItem (view value.now)) }
    ensures bad { result ≡ Err ItemNo.Bad → texts.is_item (view value.now) ≡ false }
    ensures refused { (no : ObjNo) → result ≡ Err (ItemNo.Object no) → RefusesItem (view value.now) no }
{
    let Some(object) = object_in(value) else {
        return Err(ItemNo::Bad);
    };
    let ns = match Text::new(alloc, ns) {
        Ok(ns) => ns,
        Err(_) => return Err(ItemNo::Memory),
    };
    match obj_of(alloc, object, resource, &ns, None) {
        Ok((obj, _)) => Ok(WriteAsk::Create { resource, obj }),
        Err(ObjNo::Memory) => Err(ItemNo::Memory),
        Err(no) => Err(ItemNo::Object(no)),
    }
}

// The write of a replacement.
fn replace(alloc: Global, value: &Value, resource: Resource, ns: &str) -> Result<WriteAsk, ItemNo>
    requires op { texts.operation_in (view value.now) ≡ Some Operation.Replace }
    requires resource { texts.item_resource (view value.now) ≡ Some resource }
    requires namespace { texts.namespace_in (view value.now) ≡ Some ns.now }
    requires form { IsNamespace ns.now }
    ensures ok { IfOk result (AsksItem (view value.now)) }
    ensures bad { result ≡ Err ItemNo.Bad → texts.is_item (view value.now) ≡ false }
    ensures refused { (no : ObjNo) → result ≡ Err (ItemNo.Object no) → RefusesItem (view value.now) no }
{
    let Some(name) = name_in(value) else {
        return Err(ItemNo::Bad);
    };
    let Some(object) = object_in(value) else {
        return Err(ItemNo::Bad);
    };
    let (ns, name) = match (Text::new(alloc, ns), Text::new(alloc, name)) {
        (Ok(ns), Ok(name)) => (ns, name),
        _ => return Err(ItemNo::Memory),
    };
    match obj_of(alloc, object, resource, &ns, Some(&name)) {
        Ok((obj, given)) => Ok(WriteAsk::Replace {
            resource,
            obj,
            given,
        }),
        Err(ObjNo::Memory) => Err(ItemNo::Memory),
        Err(no) => Err(ItemNo::Object(no)),
    }
}

/// The key of an object.
pub(crate) fn key_of(ns: Text, name: Text) -> Result<Key, Memory>
    requires namespace { IsNamespace ns }
    requires name { IsObjectName name }
    ensures { IfOk result (λ key. key ≡ joined ns name) }
{
    match Key::new(ns, name) {
        Ok(key) => Ok(key),
        Err(KeyNo::Memory) => Err(Memory),
        Err(KeyNo::BadName | KeyNo::BadNamespace) => unreachable!(),
    }
}

// The write of a removal.
fn remove(alloc: Global, value: &Value, resource: Resource, ns: &str) -> Result<WriteAsk, ItemNo>
    requires op { texts.operation_in (view value.now) ≡ Some Operation.Remove }
    requires resource { texts.item_resource (view value.now) ≡ Some resource }
    requires namespace { texts.namespace_in (view value.now) ≡ Some ns.now }
    requires form { IsNamespace ns.now }
    ensures ok { IfOk result (AsksItem (view value.now)) }
    ensures bad { result ≡ Err ItemNo.Bad → texts.is_item (view value.now) ≡ false }
    ensures refused { (no : ObjNo) → result ≡ Err (ItemNo.Object no) → RefusesItem (view value.now) no }
{
    let Some(name) = name_in(value) else {
        return Err(ItemNo::Bad);
    };
    let (ns, name) = match (Text::new(alloc, ns), Text::new(alloc, name)) {
        (Ok(ns), Ok(name)) => (ns, name),
        _ => return Err(ItemNo::Memory),
    };
    match key_of(ns, name) {
        Ok(key) => Ok(WriteAsk::Remove { resource, key }),
        Err(_) => Err(ItemNo::Memory),
    }
}

// The write that an item asks for.
fn item(alloc: Global, value: &Value) -> Result<WriteAsk, ItemNo>
    ensures ok { IfOk result (AsksItem (view value.now)) }
    ensures bad { result ≡ Err ItemNo.Bad → texts.is_item (view value.now) ≡ false }
    ensures refused { (no : ObjNo) → result ≡ Err (ItemNo.Object no) → RefusesItem (view value.now) no }
{
    let Some(resource) = resource_in(value) else {
        return Err(ItemNo::Bad);
    };
    let Some(ns) = namespace_in(value) else {
        return Err(ItemNo::Bad);
    };
    match operation_in(value) {
        Some(Operation::Create) => create(alloc, value, resource, ns),
        Some(Operation::Replace) => replace(alloc, value, resource, ns),
        Some(Operation::Remove) => remove(alloc, value, resource, ns),
        None => Err(ItemNo::Bad),
    }
}

// An item's refusal, with its place.
fn placed(no: ItemNo, index: u64) -> TxTextNo
    ensures { result ≡ texts.placed index no }
{
    match no {
        ItemNo::Bad => TxTextNo::BadItem { index },
        ItemNo::Object(no) => TxTextNo::BadObject { index, no },
        ItemNo::Memory => TxTextNo::Memory,
    }
}

// The writes of 1 to 64 items.
fn writes(alloc: Global, values: &[Value]) -> Result<Vec<WriteAsk>, TxTextNo>
    ensures ok { IfOk result (λ asks. AskAll (map view values.now) asks.items) }
    ensures refused { IfErr result (λ no. texts.RefusesItems (map view values.now) no) }
{
    let mut asks = Vec::new(alloc);
    for (index, value) in values.iter().enumerate() {
        let ask = match item(alloc, value) {
            Ok(ask) => ask,
            Err(no) => return Err(placed(no, index as u64)),
        };
        let Ok(()) = asks.push(ask) else {
            return Err(TxTextNo::Memory);
        };
    }
    Ok(asks)
}

// The refusal of a body as a JSON text.
fn not_read(no: ObjNo) -> TxTextNo
    ensures { result ≡ texts.not_read no }
{
    match no {
        ObjNo::NotJson => TxTextNo::NotJson,
        ObjNo::Float => TxTextNo::Float,
        ObjNo::TooDeep => TxTextNo::TooDeep,
        _ => TxTextNo::Memory,
    }
}

/// Reads a body as a transaction: a JSON list of 1 to 64 objects with `op` (`create`, `replace` or
/// `remove`), `resource`, `namespace`, `name` for `replace` and `remove`, and `object` for `create`
/// and `replace`. Other members are ignored.
pub(crate) fn transaction(alloc: Global, body: &[u8]) -> Result<Transaction, TxTextNo>
    ensures ok { IfOk result (AsksTransaction body.now) }
    ensures refused { IfErr result (RefusesText body.now) }
{
    let value = match read_value(alloc, body) {
        Ok(value) => value,
        Err(no) => return Err(not_read(no)),
    };
    let Some(items) = value.as_array() else {
        return Err(TxTextNo::NotList);
    };
    if items.is_empty() {
        return Err(TxTextNo::Empty);
    }
    if items.len() > MAX_ITEMS {
        return Err(TxTextNo::TooManyItems);
    }
    let asks = match writes(alloc, items.as_slice()) {
        Ok(asks) => asks,
        Err(no) => return Err(no),
    };
    match Transaction::new(asks) {
        Ok(transaction) => Ok(transaction),
        Err(no) => Err(not_distinct(no)),
    }
}

// The refusal of writes of one object.
fn not_distinct(no: TxNo) -> TxTextNo
    ensures { result ≡ texts.not_distinct no }
{
    match no {
        TxNo::Empty => TxTextNo::Empty,
        TxNo::TooManyItems => TxTextNo::TooManyItems,
        TxNo::Repeated { index } => TxTextNo::Repeated { index },
    }
}
