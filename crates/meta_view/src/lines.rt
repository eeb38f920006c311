//! What a watch and a list show in a form, as pieces that are lent. A watch's line is the front of its
//! event, the pieces of what it shows, and the event's back.

ghost use Rattle.std.specs.Prelude.{◌≡◌, ℕ, decimal, drop, take, option_map, Some, None};
ghost use Rattle.std.specs.List.{flat_map};
ghost use Rattle.json.specs.Print.{quoted};
ghost use Rattle.json_obj.specs.declared.replies.More.{More};
ghost use Rattle.json_obj.specs.Replies.{bookmark_text, list_front, list_back};
ghost use Rattle.meta_view.specs.declared.form.Form.TheVariants.{Whole, Metadata};
ghost use Rattle.meta_view.specs.Lines.{shown, version_in, kind_in, list_kind_in};

use crate::Form;
use json_obj::{bookmark_pieces, list_back_pieces, list_front_pieces, list_more_pieces};
use kube_meta::{Obj, Resource};

const HEAD: &[u8] =
    b"{\"apiVersion\":\"meta.k8s.io/v1\",\"kind\":\"PartialObjectMetadata\",\"metadata\":";

const TAIL: &[u8] = b"}";

const NOTHING: &[u8] = b"";

/// The JSON of an object in a form, around the digits of its revision.
pub fn shown_pieces<'a>(form: Form, object: &'a Obj, digits: &'a [u8]) -> [&'a [u8]; 5]
    ensures { (revision : ℕ) → digits.now ≡ decimal revision
        → flat_map (λ piece. piece.now) result ≡ shown form object.now revision }
{
    match form {
        Form::Whole => whole_pieces(object, digits),
        Form::Metadata => metadata_pieces(object, digits),
    }
}

fn whole_pieces<'a>(object: &'a Obj, digits: &'a [u8]) -> [&'a [u8]; 5]
    ensures { (revision : ℕ) → digits.now ≡ decimal revision
        → flat_map (λ piece. piece.now) result ≡ shown Whole object.now revision }
{
    let front = whole_front(object);
    let back = whole_back(object);
    [NOTHING, front, digits, back, NOTHING]
}

fn metadata_pieces<'a>(object: &'a Obj, digits: &'a [u8]) -> [&'a [u8]; 5]
    ensures { (revision : ℕ) → digits.now ≡ decimal revision
        → flat_map (λ piece. piece.now) result ≡ shown Metadata object.now revision }
{
    let front = metadata_front(object);
    let back = metadata_back(object);
    [HEAD, front, digits, back, TAIL]
}

fn whole_front(object: &Obj) -> &[u8]
    ensures { result.now ≡ object.now.front }
{
    object.front.as_str().as_bytes()
}

fn whole_back(object: &Obj) -> &[u8]
    ensures { result.now ≡ object.now.back }
{
    object.back.as_str().as_bytes()
}

fn metadata_front(object: &Obj) -> &[u8]
    ensures { result.now ≡ drop object.now.meta_from object.now.front }
{
    &whole_front(object)[object.meta_from..]
}

fn metadata_back(object: &Obj) -> &[u8]
    ensures { result.now ≡ take object.now.meta_to object.now.back }
{
    &whole_back(object)[..object.meta_to]
}

/// The object of a bookmark in a form, around the digits of its revision. The one that closes the
/// initial events of a watch is annotated as such.
pub fn shown_bookmark<'a>(
    form: Form,
    resource: Resource,
    digits: &'a [u8],
    closing: bool,
) -> [&'a [u8]; 9]
    ensures { (revision : ℕ) → digits.now ≡ decimal revision → flat_map (λ piece. piece.now) result
        ≡ bookmark_text (version_in form resource) (kind_in form resource) revision closing }
{
    bookmark_pieces(form.version(resource), form.kind(resource), digits, closing)
}

/// The JSON of a list in a form before its items.
pub fn shown_list_front<'a>(form: Form, resource: Resource) -> [&'a [u8]; 3]
    ensures { flat_map (λ piece. piece.now) result ≡ list_front (version_in form resource) }
{
    list_front_pieces(form.version(resource))
}

/// The JSON of a list in a form after its items, where no page follows, around the digits of its
/// revision.
pub fn shown_list_back<'a>(form: Form, resource: Resource, digits: &'a [u8]) -> [&'a [u8]; 6]
    ensures { (revision : ℕ) → digits.now ≡ decimal revision → flat_map (λ piece. piece.now) result
        ≡ list_back (list_kind_in form resource) revision None }
{
    list_back_pieces(form.list_kind(resource), digits)
}

/// The same where a page follows: with its token as a JSON string, and around the digits of how many
/// items are left where that is told.
pub fn shown_list_more<'a>(
    form: Form,
    resource: Resource,
    digits: &'a [u8],
    token: &'a [u8],
    left: Option<&'a [u8]>,
) -> [&'a [u8]; 12]
    ensures { (revision : ℕ) (more : More) → digits.now ≡ decimal revision → token.now ≡ quoted more.token
        → option_map (λ l. l.now) left.entry ≡ option_map decimal more.left
        → flat_map (λ piece. piece.now) result ≡ list_back (list_kind_in form resource) revision (Some more) }
{
    list_more_pieces(form.list_kind(resource), digits, token, left)
}
