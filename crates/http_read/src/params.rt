//! The parameters of a query.

ghost use Rattle.std.specs.Prelude.{◌≡◌, IfOk, IfSome, IfNone, IsTrue, [], ◌∷◌, codes, length, map, All};
ghost use Rattle.std.specs.Option.{option_map};
ghost use Rattle.std.specs.Str.{bytes_eq};
ghost use Rattle.form_urlencoded.specs.Form as form;
ghost use Rattle.http_read.specs.Pieces.{IsItself};
ghost use Rattle.http_read.specs.Places.{pair_at, IsPlaceIn};
ghost use Rattle.http_read.specs.Queries.{pair_text, query_pairs, first_value, unless_empty, is_truth};

use crate::pieces::{parted, parted_short};
use crate::places::Place;
use crate::plain::push_piece;
use kube_meta::Memory;
use std::alloc::Global;
use std::marker::Model;

// As many pairs as most queries have at most.
const USUAL: usize = 4;

/// The parameters of a query, in order. Contracts see the list of pairs.
#[derive(Debug, Drop)]
pub struct Params {
    // the names and the values, decoded, one behind the other
    text: String,
    places: Vec<Place>,
}

impl Model for Params {
    ghost use Rattle.std.specs.Prelude.{ℕ, List, All, map, string_bytes};
    ghost use Rattle.http_read.specs.Places.{pair_at, IsPlaceIn};

    ghost Value = { List (List ℕ × List ℕ) };

    ghost view = { λ params. map (pair_at (string_bytes params.text)) params.places.items };

    ghost invariant = { λ params. All (IsPlaceIn (string_bytes params.text)) params.places.items };
}

impl Params {
    /// Reads a query, the part of a target after its `?`, in the syntax of
    /// `application/x-www-form-urlencoded` (the URL Standard, section 5).
    pub fn read(alloc: Global, query: &str) -> Result<Params, Memory>
        ensures { IfOk result (λ params. params ≡ query_pairs query.now) }
    {
        Params::of_bytes(alloc, query.as_bytes(), false)
    }

    // The same of bytes that may not be UTF-8, or may be known to be plain.
    pub(crate) fn of_bytes(alloc: Global, query: &[u8], plain: bool) -> Result<Params, Memory>
        requires { IsTrue plain → All IsItself query.now }
        ensures { IfOk result (λ params. params ≡ query_pairs query.now) }
    {
        let mut text = String::with_capacity(alloc, query.len())?;
        let mut places = Vec::with_capacity(alloc, USUAL.min(query.len()))?;
        let mut rest = query;
        while let Some((name, value, others)) = next_pair(rest) {
            let at = text.len();
            push_piece(alloc, &mut text, name, plain)?;
            let middle = text.len();
            push_piece(alloc, &mut text, value, plain)?;
            places.push(Place {
                name: at,
                value: middle,
                end: text.len(),
            })?;
            rest = others;
        }
        Ok(Params { text, places })
    }

    // The first value of a name.
    fn first(&self, name: &str) -> Option<&str>
        ensures { option_map (λ value. value.now) result ≡ first_value name.now self.now }
    {
        value_of(self.text.as_str(), self.places.as_slice(), name)
    }

    /// The first value of a name, and `None` where that is empty.
    pub fn get(&self, name: &str) -> Option<&str>
        ensures { option_map (λ value. value.now) result ≡ unless_empty (first_value name.now self.now) }
    {
        match self.first(name) {
            Some(value) if !value.is_empty() => Some(value),
            _ => None,
        }
    }

    /// What a truth parameter says: `None` where it is unset, false where its first value is `0` or, without regard
    /// to ASCII case, `false`, and true otherwise, as where it is empty.
    pub fn truth(&self, name: &str) -> Option<bool>
        ensures { result ≡ option_map is_truth (first_value name.now self.now) }
    {
        match self.first(name) {
            Some(value) => Some(value != "0" && !value.eq_ignore_ascii_case("false")),
            None => None,
        }
    }
}

// The name and the value of the first pair of a query, still encoded, and what stands behind that pair.
#[inline(always)]
fn next_pair(query: &[u8]) -> Option<(&[u8], &[u8], &[u8])>
    ensures first { IfSome result (λ found. form.raw_pairs query.now ≡ (found.0.now, found.1.now) ∷ form.raw_pairs found.2.now) }
    ensures none { IfNone result (form.raw_pairs query.now ≡ []) }
    ensures plain { IfSome result (λ found. All IsItself query.now → All IsItself found.0.now × All IsItself found.1.now × All IsItself found.2.now) }
{
    let mut rest = query;
    while !rest.is_empty() {
        let (piece, others) = parted(rest, b'&');
        if !piece.is_empty() {
            let (name, value) = parted_short(piece, b'=');
            return Some((name, value, others));
        }
        rest = others;
    }
    None
}

// The first value of a name, among the pairs that stand in a text.
fn value_of<'t>(text: &'t str, places: &[Place], name: &str) -> Option<&'t str>
    requires { All (IsPlaceIn text.now) places.now }
    ensures { option_map (λ value. value.now) result ≡ first_value name.now (map (pair_at text.now) places.now) }
{
    for place in places {
        if place.name_in(text) == name {
            return Some(place.value_in(text));
        }
    }
    None
}
