//! Strings and the names of members, as JSON has them.

ghost use Rattle.std.specs.Prelude.{◌≡◌, [], ◌∷◌, ◌++◌, IfOk, OnOk, string_bytes};
ghost use Rattle.std.specs.List.{list_all};
ghost use Rattle.json.specs.Print.{quoted as quoted_text};
ghost use Rattle.json_obj.specs.Plain.{is_plain_byte};

use json::Writer;
use kube_meta::Memory;
use std::alloc::Global;

/// A text as a JSON string (RFC 8259, section 7).
pub fn quoted(alloc: Global, text: &str) -> Result<String, Memory>
    ensures { IfOk result (λ s. string_bytes s ≡ quoted_text text.now) }
{
    let mut writer = Writer::new(Vec::new(alloc));
    writer.string(text)?;
    Ok(String::from_utf8(writer.into_inner()).unwrap())
}

// Writes a text as a JSON string. Most texts have no byte to escape, and are copied once.
pub(crate) fn push_quoted(alloc: Global, out: &mut String, text: &str) -> Result<(), Memory>
    ensures { OnOk result (string_bytes out.new ≡ string_bytes out.old ++ quoted_text text.now) }
{
    if is_plain(text) {
        push_plain(out, text)
    } else {
        out.push_str(quoted(alloc, text)?.as_str())
    }
}

// The text between quotes.
fn push_plain(out: &mut String, text: &str) -> Result<(), Memory>
    ensures { OnOk result (string_bytes out.new
        ≡ string_bytes out.old ++ 34 ∷ (text.now ++ 34 ∷ [])) }
{
    out.push_str("\"")?;
    out.push_str(text)?;
    out.push_str("\"")?;
    Ok(())
}

// Whether no byte of the text needs an escape.
fn is_plain(text: &str) -> bool
    ensures { result ≡ list_all is_plain_byte text.now }
{
    text.as_bytes()
        .iter()
        .all(|byte| *byte >= b' ' && *byte != b'"' && *byte != b'\\')
}
