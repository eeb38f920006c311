//! Which object of a resource: namespace and name.

ghost use Rattle.std.specs.Prelude.{◌≡◌, ◌↔◌, ◌&&◌, true, false, IfOk, OnOk, MatchOption, nat_eq};
ghost use Rattle.std.proofs.Common.{rules};
ghost use Rattle.std.specs.Cmp.{partial_order_from_own_ties};
ghost use Rattle.std.specs.Cmp.Lexicographic.{pointwise, slice_cmp};
ghost use Rattle.std.specs.Cmp.Rules.{comparing};
ghost use Rattle.std.specs.Ordering.{nat_cmp, as_partial_cmp};
ghost use Rattle.std.specs.List.{list_any};
ghost use Rattle.kube_meta.specs.Names as names;
ghost use Rattle.kube_meta.specs.Names.{IsNamespace, IsObjectName, is_slash};
ghost use Rattle.kube_meta.specs.Keys.{joined, namespace_of, name_of, is_in, is_key, IsKey, JoinedTellsApart, KeysAreInTheirNamespace, KeysAreTested};

use crate::names::{is_namespace, is_object_name};
use crate::{Memory, Text};
use std::alloc::Global;
use std::cmp::Ordering;
use std::marker::Model;

/// Which object of a resource: its namespace and its name, seen in contracts as the joined text
/// `namespace/name`. Keys are ordered by the bytes of the joined text, as API servers list objects.
#[derive(Debug, Drop)]
pub struct Key {
    joined: String,
    slash: usize,
}

impl Model for Key {
    ghost use Rattle.std.specs.Prelude.{◌≡◌, ℕ, List, length, string_bytes};
    ghost use Rattle.kube_meta.specs.Keys.{namespace_of, IsKey};

    ghost Value = { List ℕ };

    ghost view = { λ k. string_bytes k.joined };

    ghost invariant = { λ k. IsKey (string_bytes k.joined) × (k.slash ≡ length (namespace_of (string_bytes k.joined))) };
}

/// Why two texts are no key.
#[derive(Clone, Copy, Debug, PartialEq, Eq)]
pub enum KeyNo {
    /// The name is no DNS subdomain.
    BadName,
    /// The namespace is no DNS label.
    BadNamespace,
    Memory,
}

impl Key {
    /// The key of the object `name` in the namespace `ns`. The name is tested first.
    pub fn new(ns: Text, name: Text) -> Result<Key, KeyNo>
        ensures ok { IfOk result (λ key. key ≡ joined ns name) }
        ensures parts { OnOk result (IsNamespace ns × IsObjectName name) }
        ensures bad_name { (result ≡ Err KeyNo.BadName) ↔ ¬ (IsObjectName name) }
        ensures bad_namespace { (result ≡ Err KeyNo.BadNamespace) ↔ (IsObjectName name × ¬ (IsNamespace ns)) }
    {
        if !is_object_name(name.as_str()) {
            return Err(KeyNo::BadName);
        }
        if !is_namespace(ns.as_str()) {
            return Err(KeyNo::BadNamespace);
        }
        let slash = ns.as_str().len();
        let mut joined = ns.to_string()?;
        joined.push_str("/")?;
        joined.push_str(name.as_str())?;
        Ok(Key { joined, slash })
    }

    /// The key that a text is: a namespace and an object's name around the first `/`.
    pub fn read(alloc: Global, text: &[u8]) -> Result<Option<Key>, Memory>
        ensures { IfOk result (λ key. MatchOption key (is_key text.now ≡ false) (λ k. (is_key text.now ≡ true) × (k ≡ text.now))) }
    {
        match around_slash(text) {
            Some((ns, name)) => key_of_parts(alloc, ns, name),
            None => Ok(None),
        }
    }

    /// The namespace.
    pub fn ns(&self) -> &str
        ensures value { result.now ≡ namespace_of self.now }
        ensures form { IsNamespace result.now }
        ensures whole { IsKey self.now }
    {
        &self.joined.as_str()[..self.slash]
    }

    /// The name.
    pub fn name(&self) -> &str
        ensures value { result.now ≡ name_of self.now }
        ensures form { IsObjectName result.now }
    {
        &self.joined.as_str()[self.slash + 1..]
    }

    /// Whether the key is in a namespace.
    pub fn is_in(&self, ns: &str) -> bool
        ensures { result ≡ is_in ns.now self.now }
    {
        self.ns() == ns
    }

    /// The joined text, `namespace/name`.
    pub fn as_str(&self) -> &str
        ensures value { result.now ≡ self.now }
        ensures form { IsKey self.now }
    {
        self.joined.as_str()
    }
}

// The pieces of a text around its first `/`.
fn around_slash(text: &[u8]) -> Option<(&[u8], &[u8])>
    ensures { MatchOption result (list_any is_slash text.now ≡ false) (λ pieces. (list_any is_slash text.now ≡ true)
        × (pieces.0.now ≡ namespace_of text.now) × (pieces.1.now ≡ name_of text.now) × (joined pieces.0.now pieces.1.now ≡ text.now)) }
{
    match text.iter().position(|b| *b == b'/') {
        Some(at) => Some((&text[..at], &text[at + 1..])),
        None => None,
    }
}

// The key with that namespace and name, if they are ones.
fn key_of_texts(alloc: Global, ns: &str, name: &str) -> Result<Option<Key>, Memory>
    ensures { IfOk result (λ key. MatchOption key ((names.is_namespace ns.now && names.is_object_name name.now) ≡ false)
        (λ k. ((names.is_namespace ns.now && names.is_object_name name.now) ≡ true) × (k ≡ joined ns.now name.now))) }
{
    match Key::new(Text::new(alloc, ns)?, Text::new(alloc, name)?) {
        Ok(key) => Ok(Some(key)),
        Err(KeyNo::Memory) => Err(Memory),
        Err(_) => Ok(None),
    }
}

// The same, where the name may not be UTF-8.
fn key_with_name(alloc: Global, ns: &str, name: &[u8]) -> Result<Option<Key>, Memory>
    ensures { IfOk result (λ key. MatchOption key ((names.is_namespace ns.now && names.is_object_name name.now) ≡ false)
        (λ k. ((names.is_namespace ns.now && names.is_object_name name.now) ≡ true) × (k ≡ joined ns.now name.now))) }
{
    match str::from_utf8(name) {
        Ok(name) => key_of_texts(alloc, ns, name),
        Err(_) => Ok(None),
    }
}

// The same, where neither may be.
fn key_of_parts(alloc: Global, ns: &[u8], name: &[u8]) -> Result<Option<Key>, Memory>
    ensures { IfOk result (λ key. MatchOption key ((names.is_namespace ns.now && names.is_object_name name.now) ≡ false)
        (λ k. ((names.is_namespace ns.now && names.is_object_name name.now) ≡ true) × (k ≡ joined ns.now name.now))) }
{
    match str::from_utf8(ns) {
        Ok(ns) => key_with_name(alloc, ns, name),
        Err(_) => Ok(None),
    }
}

impl From<Memory> for KeyNo {
    ghost use Rattle.std.specs.Prelude.{◌≡◌};
    ghost use Rattle.kube_meta.specs.declared.keys.KeyNo.TheVariants as refusals;

    ghost from_gives = { λ _ refusal. refusal ≡ refusals.Memory };

    fn from(_: Memory) -> KeyNo {
        KeyNo::Memory
    }
}

impl Clone for Key {
    ghost is_clone = { λ key copy. copy ≡ key };

    fn clone(&self) -> Result<Key, Memory> {
        Ok(Key {
            joined: self.joined.clone()?,
            slash: self.slash,
        })
    }
}

impl PartialEq for Key {
    ghost eq = { pointwise nat_eq };

    ghost laws = { Prim.search (comparing, rules) };

    fn eq(&self, other: &Key) -> bool {
        self.joined.as_str() == other.joined.as_str()
    }
}

impl Eq for Key {
    ghost laws = { Prim.search (comparing, rules) };
}

impl PartialOrd for Key {
    ghost partial_cmp = { as_partial_cmp (slice_cmp nat_cmp) };

    ghost laws = { partial_order_from_own_ties (Prim.search (comparing, rules)) (Prim.search (comparing, rules)) };

    fn partial_cmp(&self, other: &Key) -> Option<Ordering> {
        Some(self.cmp(other))
    }
}

impl Ord for Key {
    ghost cmp = { slice_cmp nat_cmp };

    ghost total = { Prim.search (comparing, rules) };

    ghost matches_partial_cmp = { Prim.search (comparing, rules) };

    ghost matches_eq = { Prim.search (comparing, rules) };

    fn cmp(&self, other: &Key) -> Ordering {
        self.joined.as_str().cmp(&other.joined.as_str())
    }
}

/// Two keys with the same joined text have the same namespace and the same name, since a namespace
/// has no `/`.
pub fn joined_texts_tell_keys_apart()
    ensures { JoinedTellsApart }
{}

/// The test for the texts of keys passes for those alone.
pub fn keys_are_tested()
    ensures { KeysAreTested }
{}

/// A key is in a namespace exactly where that is its own, and `is_in` tells it.
pub fn keys_are_in_their_namespace()
    ensures { KeysAreInTheirNamespace }
{}
