//! Which form a client asks for by its Accept field.

ghost use Rattle.std.specs.Prelude.{◌≡◌, position};
ghost use Rattle.meta_view.specs.Accept as form;

const JSON: &[u8] = b"application/json";

const ANY: &[u8] = b"*/*";

const OBJECT: &[u8] = b"as=PartialObjectMetadata";

const LIST: &[u8] = b"as=PartialObjectMetadataList";

const GROUP: &[u8] = b"g=meta.k8s.io";

const VERSION: &[u8] = b"v=v1";

const AS: &[u8] = b"as=";

/// Whether the value of an Accept field asks for metadata alone: whether its first element that is
/// served does. An element that asks for another form, as a table, is passed over.
pub fn wants_metadata(accept: &[u8]) -> bool
    ensures { result ≡ form.wants_metadata accept.now }
{
    match accept
        .split(|byte| *byte == b',')
        .find(|element| decides(element))
    {
        Some(element) => asks_metadata(element),
        None => false,
    }
}

fn decides(element: &[u8]) -> bool
    ensures { result ≡ form.decides element.now }
{
    asks_metadata(element) || asks_whole(element)
}

fn asks_metadata(element: &[u8]) -> bool
    ensures { result ≡ form.asks_metadata element.now }
{
    has_type(element, JSON)
        && (has_parameter(element, OBJECT) || has_parameter(element, LIST))
        && has_parameter(element, GROUP)
        && has_parameter(element, VERSION)
}

fn asks_whole(element: &[u8]) -> bool
    ensures { result ≡ form.asks_whole element.now }
{
    (has_type(element, JSON) || has_type(element, ANY)) && !has_as(element)
}

// Whether the element is of this media type.
fn has_type(element: &[u8], name: &[u8]) -> bool
    ensures { result ≡ form.has_type name.now element.now }
{
    is_part(media_type(element), name)
}

// What stands before the first semicolon.
fn media_type(element: &[u8]) -> &[u8]
    ensures { result.now ≡ form.media_type element.now }
{
    match place_of_semicolon(element) {
        Some(end) => &element[..end],
        None => element,
    }
}

fn place_of_semicolon(element: &[u8]) -> Option<usize>
    ensures { result ≡ position form.is_semicolon element.now }
{
    element.iter().position(|byte| *byte == b';')
}

// Whether the element has this parameter.
fn has_parameter(element: &[u8], text: &[u8]) -> bool
    ensures { result ≡ form.has_parameter text.now element.now }
{
    element
        .split(|byte| *byte == b';')
        .any(|part| is_part(part, text))
}

// Whether the element has a parameter `as`.
fn has_as(element: &[u8]) -> bool
    ensures { result ≡ form.has_as element.now }
{
    element.split(|byte| *byte == b';').any(|part| is_as(part))
}

fn is_part(part: &[u8], text: &[u8]) -> bool
    ensures { result ≡ form.is_part text.now part.now }
{
    trimmed(part) == text
}

fn is_as(part: &[u8]) -> bool
    ensures { result ≡ form.is_as part.now }
{
    trimmed(part).starts_with(AS)
}

// The bytes without the white space at both ends.
fn trimmed(part: &[u8]) -> &[u8]
    ensures { result.now ≡ form.trimmed part.now }
{
    part.trim_ascii()
}
