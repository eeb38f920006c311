//! For which site a request was made.

ghost use Rattle.std.specs.Prelude.{◌≡◌, ◌||◌, ◌==◌, not, length, map, All};
ghost use Rattle.std.specs.Char.{is_ascii_digit};
ghost use Rattle.std.specs.List.{list_all, list_any};
ghost use Rattle.httparse.specs.Spans.{IsHeaderWithin, header_bytes};
ghost use Rattle.http_read.specs.Sites as site;

use crate::fields::{has_field, is_named, is_same, value_of};
use crate::pieces::parted_short;
use httparse::spans::HeaderSpan;

// Whether each byte is a digit or a dot.
fn all_address_bytes(name: &[u8]) -> bool
    ensures { result ≡ list_all site.is_address_byte name.now }
{
    name.iter().all(|b| b.is_ascii_digit() || *b == b'.')
}

// Whether a name is an address of 127.0.0.0/8.
fn is_loopback_address(name: &[u8]) -> bool
    ensures { result ≡ site.is_loopback_address name.now }
{
    name.starts_with(b"127.") && all_address_bytes(name)
}

// Whether a host is a loopback name or address, with or without a port.
fn is_loopback(host: &[u8]) -> bool
    ensures { result ≡ site.is_loopback host.now }
{
    let (name, _) = parted_short(host, b':');
    host.starts_with(b"[::1]") || is_same(name, b"localhost") || is_loopback_address(name)
}

// Whether a host has a dot.
fn has_dot(host: &[u8]) -> bool
    ensures { result ≡ list_any (λ b. b == 46) host.now }
{
    host.iter().any(|b| *b == b'.')
}

// Whether a host has a dot and is no name or address of the loopback.
fn is_elsewhere(host: &[u8]) -> bool
    ensures { result ≡ site.is_elsewhere host.now }
{
    has_dot(host) && !is_loopback(host)
}

// Whether a field says that the server was asked by such a host.
fn asks_elsewhere(bytes: &[u8], field: &HeaderSpan) -> bool
    requires { IsHeaderWithin (length bytes.now) field.now }
    ensures { result ≡ site.asks_elsewhere (header_bytes bytes.now field.now) }
{
    is_named(bytes, field, b"host") && is_elsewhere(field.value.of(bytes))
}

// Whether some field says so.
fn some_asks_elsewhere(bytes: &[u8], fields: &[HeaderSpan]) -> bool
    requires { All (IsHeaderWithin (length bytes.now)) fields.now }
    ensures { result ≡ list_any site.asks_elsewhere (map (header_bytes bytes.now) fields.now) }
{
    let mut elsewhere = false;
    for field in fields {
        elsewhere |= asks_elsewhere(bytes, field);
    }
    elsewhere
}

// Whether this is the origin of the pages of a host.
fn is_origin_of(host: &[u8], origin: &[u8]) -> bool
    ensures { result ≡ site.is_origin_of host.now origin.now }
{
    origin.starts_with(b"http://") && is_same(&origin[7..], host)
}

// Whether a Sec-Fetch-Site tells a site that isn't the server's own.
fn is_other_site(value: &[u8]) -> bool
    ensures { result ≡ site.is_other_site value.now }
{
    is_same(value, b"cross-site") || is_same(value, b"same-site")
}

// Whether a field tells another site than that of this host.
fn tells_other(bytes: &[u8], field: &HeaderSpan, host: &[u8]) -> bool
    requires { IsHeaderWithin (length bytes.now) field.now }
    ensures { result ≡ site.tells_other host.now (header_bytes bytes.now field.now) }
{
    let value = field.value.of(bytes);
    is_named(bytes, field, b"host") && !is_same(value, host)
        || is_named(bytes, field, b"origin") && !is_origin_of(host, value)
        || is_named(bytes, field, b"sec-fetch-site") && is_other_site(value)
}

// Whether some field tells another site than that of this host.
fn some_tells_other(bytes: &[u8], fields: &[HeaderSpan], host: &[u8]) -> bool
    requires { All (IsHeaderWithin (length bytes.now)) fields.now }
    ensures { result ≡ list_any (site.tells_other host.now) (map (header_bytes bytes.now) fields.now) }
{
    let mut other = false;
    for field in fields {
        other |= tells_other(bytes, field, host);
    }
    other
}

// Whether the server was asked by a loopback name, and each field tells its own site.
fn is_own(bytes: &[u8], fields: &[HeaderSpan]) -> bool
    requires { All (IsHeaderWithin (length bytes.now)) fields.now }
    ensures { result ≡ site.is_own (map (header_bytes bytes.now) fields.now) }
{
    match value_of(bytes, fields, b"host") {
        Some(host) => is_loopback(host) && !some_tells_other(bytes, fields, host),
        None => false,
    }
}

// Whether a browser made the request, and not for the server's own site.
fn is_for_other(bytes: &[u8], fields: &[HeaderSpan]) -> bool
    requires { All (IsHeaderWithin (length bytes.now)) fields.now }
    ensures { result ≡ site.is_for_other (map (header_bytes bytes.now) fields.now) }
{
    (has_field(bytes, fields, b"origin") || has_field(bytes, fields, b"sec-fetch-site"))
        && !is_own(bytes, fields)
}

/// Whether the request was made for another site: that has the name by which the server was asked, or a browser tells
/// so.
pub(crate) fn is_foreign(bytes: &[u8], fields: &[HeaderSpan]) -> bool
    requires { All (IsHeaderWithin (length bytes.now)) fields.now }
    ensures { result ≡ site.is_foreign (map (header_bytes bytes.now) fields.now) }
{
    some_asks_elsewhere(bytes, fields) || is_for_other(bytes, fields)
}
