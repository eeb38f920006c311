//! Replies and a watch's lines as pieces that are lent: the constant ones, and between them the texts
//! and digits that the caller lends. Nothing is copied or formatted for a reply.

ghost use Rattle.std.specs.Prelude.{◌≡◌, ◌++◌, ℕ, true, decimal, option_map, Option, Some, None};
ghost use Rattle.std.specs.List.{flat_map, list_all};
ghost use Rattle.json.specs.Print.{quoted};
ghost use Rattle.json_obj.specs.Plain.{is_plain_byte};
ghost use Rattle.json_obj.specs.declared.replies.More.{More};
ghost use Rattle.json_obj.specs.Replies.{event_back, value_text, expired_text, list_front, list_back, left_text, more_text, annotations_text, bookmark_text};

/// What a line of a watch tells of its object.
#[derive(Clone, Copy, Debug, PartialEq, Eq)]
pub enum EventType {
    /// The object is there from now on.
    Added,
    /// The object has changed.
    Modified,
    /// The object is gone, and is shown as it was last.
    Deleted,
    /// All was told up to the object's resource version.
    Bookmark,
    /// The watch can't go on, and the object is a Status.
    Error,
}

impl EventType {
    ghost use Rattle.json_obj.specs.Replies.{event_front};

    /// The JSON of an event of this type before its object. The object and `EVENT_BACK` follow.
    pub fn front(self) -> &'static [u8]
        ensures { result.now ≡ event_front self }
    {
        match self {
            EventType::Added => ADDED,
            EventType::Modified => MODIFIED,
            EventType::Deleted => DELETED,
            EventType::Bookmark => BOOKMARK,
            EventType::Error => ERROR,
        }
    }

    /// The JSON of an event after its object.
    pub fn back(self) -> &'static [u8]
        ensures { result.now ≡ event_back }
    {
        EVENT_BACK
    }
}

const ADDED: &[u8] = b"{\"type\":\"ADDED\",\"object\":";

const MODIFIED: &[u8] = b"{\"type\":\"MODIFIED\",\"object\":";

const DELETED: &[u8] = b"{\"type\":\"DELETED\",\"object\":";

const BOOKMARK: &[u8] = b"{\"type\":\"BOOKMARK\",\"object\":";

const ERROR: &[u8] = b"{\"type\":\"ERROR\",\"object\":";

const EVENT_BACK: &[u8] = b"}";

const VALUE_OPENS: &[u8] = b"{\"value\":";

const VALUE_CLOSES: &[u8] = b"}";

/// The JSON of an operation's answer, around the digits of the answered number.
pub fn value_pieces<'a>(digits: &'a [u8]) -> [&'a [u8]; 3]
    ensures { (value : ℕ) → digits.now ≡ decimal value
        → flat_map (λ piece. piece.now) result ≡ value_text value }
{
    [VALUE_OPENS, digits, VALUE_CLOSES]
}

const EXPIRED_OPENS: &[u8] =
    b"{\"apiVersion\":\"v1\",\"code\":410,\"kind\":\"Status\",\"message\":\"too old resource version: ";

const EXPIRED_FLOOR: &[u8] = b" (";

const EXPIRED_CLOSES: &[u8] = b")\",\"metadata\":{},\"reason\":\"Expired\",\"status\":\"Failure\"}";

/// The Status of a resource version that is too old, around the digits of the one that was asked for
/// and of the oldest that is still told.
pub fn expired_pieces<'a>(asked: &'a [u8], floor: &'a [u8]) -> [&'a [u8]; 5]
    ensures { (n m : ℕ) → asked.now ≡ decimal n → floor.now ≡ decimal m
        → flat_map (λ piece. piece.now) result ≡ expired_text n m }
{
    [EXPIRED_OPENS, asked, EXPIRED_FLOOR, floor, EXPIRED_CLOSES]
}

const LIST_OPENS: &[u8] = b"{\"apiVersion\":\"";

const LIST_ITEMS: &[u8] = b"\",\"items\":[";

const LIST_KIND: &[u8] = b"],\"kind\":\"";

const METADATA: &[u8] = b"\",\"metadata\":{";

const REVISION: &[u8] = b"\"resourceVersion\":\"";

const METADATA_CLOSES: &[u8] = b"\"}}";

const CONTINUE: &[u8] = b"\"continue\":";

const LEFT: &[u8] = b"\"remainingItemCount\":";

const COMMA: &[u8] = b",";

const NOTHING: &[u8] = b"";

/// The JSON of a list of this version before its items.
pub fn list_front_pieces<'a>(version: &'a [u8]) -> [&'a [u8]; 3]
    requires { list_all is_plain_byte version.now ≡ true }
    ensures { flat_map (λ piece. piece.now) result ≡ list_front version.now }
{
    [LIST_OPENS, version, LIST_ITEMS]
}

/// The JSON of a list of this kind after its items, where no page follows, around the digits of its
/// revision.
pub fn list_back_pieces<'a>(kind: &'a [u8], digits: &'a [u8]) -> [&'a [u8]; 6]
    requires { list_all is_plain_byte kind.now ≡ true }
    ensures { (revision : ℕ) → digits.now ≡ decimal revision
        → flat_map (λ piece. piece.now) result ≡ list_back kind.now revision None }
{
    [LIST_KIND, kind, METADATA, REVISION, digits, METADATA_CLOSES]
}

/// The same where a page follows: with its token as a JSON string, and around the digits of how many
/// items are left where that is told.
pub fn list_more_pieces<'a>(
    kind: &'a [u8],
    digits: &'a [u8],
    token: &'a [u8],
    left: Option<&'a [u8]>,
) -> [&'a [u8]; 12]
    requires { list_all is_plain_byte kind.now ≡ true }
    ensures { (revision : ℕ) (more : More) → digits.now ≡ decimal revision → token.now ≡ quoted more.token
        → option_map (λ l. l.now) left.entry ≡ option_map decimal more.left
        → flat_map (λ piece. piece.now) result ≡ list_back kind.now revision (Some more) }
{
    let (opens, count, closes) = left_pieces(left);
    [
        LIST_KIND,
        kind,
        METADATA,
        CONTINUE,
        token,
        COMMA,
        opens,
        count,
        closes,
        REVISION,
        digits,
        METADATA_CLOSES,
    ]
}

// How many items are left, where that is told.
fn left_pieces<'a>(left: Option<&'a [u8]>) -> (&'a [u8], &'a [u8], &'a [u8])
    ensures { (told : Option ℕ) → option_map (λ l. l.now) left.entry ≡ option_map decimal told
        → result.0.now ++ (result.1.now ++ result.2.now) ≡ left_text told }
{
    match left {
        Some(count) => (LEFT, count, COMMA),
        None => (NOTHING, NOTHING, NOTHING),
    }
}

const BOOKMARK_KIND: &[u8] = b"\",\"kind\":\"";

const ANNOTATIONS: &[u8] = b"\"annotations\":{\"k8s.io/initial-events-end\":\"true\"},";

/// The object of a bookmark of this version and kind, around the digits of its revision.
pub fn bookmark_pieces<'a>(
    version: &'a [u8],
    kind: &'a [u8],
    digits: &'a [u8],
    closing: bool,
) -> [&'a [u8]; 9]
    requires version { list_all is_plain_byte version.now ≡ true }
    requires kind { list_all is_plain_byte kind.now ≡ true }
    ensures { (revision : ℕ) → digits.now ≡ decimal revision
        → flat_map (λ piece. piece.now) result ≡ bookmark_text version.now kind.now revision closing }
{
    let annotation: &'a [u8] = annotation(closing);
    [
        LIST_OPENS,
        version,
        BOOKMARK_KIND,
        kind,
        METADATA,
        annotation,
        REVISION,
        digits,
        METADATA_CLOSES,
    ]
}

fn annotation<'a>(closing: bool) -> &'a [u8]
    ensures { result.now ≡ annotations_text closing }
{
    if closing { ANNOTATIONS } else { NOTHING }
}
