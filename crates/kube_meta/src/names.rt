//! The grammars of names and labels, as tests.

ghost use Rattle.std.specs.Prelude.{◌≡◌, position};
ghost use Rattle.std.specs.List.{list_all};
ghost use Rattle.kube_meta.specs.Names as grammar;

/// Whether `text` may name a namespace: an RFC 1123 label, 1 to 63 bytes of `a` to `z`, `0` to `9`
/// and `-`, that begins and ends with a letter or digit.
pub fn is_namespace(text: &str) -> bool
    ensures { result ≡ grammar.is_namespace text.now }
{
    text.len() <= 63 && is_dns_part(text.as_bytes())
}

/// Whether `text` may name an object: an RFC 1123 subdomain, parts of the form of a label joined by
/// `.`, at most 253 bytes in all.
pub fn is_object_name(text: &str) -> bool
    ensures { result ≡ grammar.is_object_name text.now }
{
    is_dns_subdomain(text.as_bytes())
}

/// Whether `text` is a label key: a name of 1 to 63 letters, digits, `-`, `_` and `.` that begins
/// and ends with a letter or digit, before which a DNS subdomain and `/` may stand.
pub fn is_label_key(text: &str) -> bool
    ensures { result ≡ grammar.is_label_key text.now }
{
    let bytes = text.as_bytes();
    match place_of_slash(bytes) {
        Some(slash) => is_dns_subdomain(&bytes[..slash]) && is_label_name(&bytes[slash + 1..]),
        None => is_label_name(bytes),
    }
}

/// Whether `text` is a label value: empty, or of the form of a label's name.
pub fn is_label_value(text: &str) -> bool
    ensures { result ≡ grammar.is_label_value text.now }
{
    text.is_empty() || is_label_name(text.as_bytes())
}

// Where the first slash stands.
fn place_of_slash(text: &[u8]) -> Option<usize>
    ensures { result ≡ position grammar.is_slash text.now }
{
    text.iter().position(|b| *b == b'/')
}

fn is_dns_subdomain(text: &[u8]) -> bool
    ensures { result ≡ grammar.is_dns_subdomain text.now }
{
    text.len() <= 253 && text.split(|b| *b == b'.').all(|part| is_dns_part(part))
}

fn is_dns_part(text: &[u8]) -> bool
    ensures { result ≡ grammar.is_dns_part text.now }
{
    if text.is_empty() {
        return false;
    }
    if !are_dns_bytes(text) {
        return false;
    }
    is_dns_edge(text[0]) && is_dns_edge(text[text.len() - 1])
}

fn is_label_name(text: &[u8]) -> bool
    ensures { result ≡ grammar.is_label_name text.now }
{
    text.len() <= 63 && is_label_word(text)
}

fn is_label_word(text: &[u8]) -> bool
    ensures { result ≡ grammar.is_label_word text.now }
{
    if text.is_empty() {
        return false;
    }
    if !are_label_bytes(text) {
        return false;
    }
    text[0].is_ascii_alphanumeric() && text[text.len() - 1].is_ascii_alphanumeric()
}

fn are_dns_bytes(text: &[u8]) -> bool
    ensures { result ≡ list_all grammar.is_dns_byte text.now }
{
    text.iter().all(|b| is_dns_byte(*b))
}

fn are_label_bytes(text: &[u8]) -> bool
    ensures { result ≡ list_all grammar.is_label_byte text.now }
{
    text.iter().all(|b| is_label_byte(*b))
}

fn is_dns_edge(byte: u8) -> bool
    ensures { result ≡ grammar.is_dns_edge byte }
{
    byte.is_ascii_lowercase() || byte.is_ascii_digit()
}

fn is_dns_byte(byte: u8) -> bool
    ensures { result ≡ grammar.is_dns_byte byte }
{
    is_dns_edge(byte) || byte == b'-'
}

fn is_label_byte(byte: u8) -> bool
    ensures { result ≡ grammar.is_label_byte byte }
{
    byte.is_ascii_alphanumeric() || matches!(byte, b'-' | b'_' | b'.')
}
