//! Continue tokens, written and read.

ghost use Rattle.std.specs.Prelude.{◌≡◌, ℕ, List, ◌≤◌, ◌^◌, [], ◌∷◌, ◌++◌, IfOk, IfErr, Ok, Err, Some, None, codes, decimal, string_bytes};
ghost use Rattle.std.specs.Option.{option_map};
ghost use Rattle.base64.specs.GeneralPurpose.{encode_of};
ghost use Rattle.kube_meta.specs.Keys.{IsKey};
ghost use Rattle.kube_meta.specs.Resources.{plural_of};
ghost use Rattle.kube_meta.specs.Revisions.{revision_of};
ghost use Rattle.list_rules.specs.Tokens as spec;
ghost use Rattle.list_rules.specs.Tokens.{token_lines, token_text, token_read, token_body, ReadsToken, IsOneLine, TokenTexts, line_of, token_texts, spaced, list_namespace, is_of_list, token_revision, page_start, texts_read};
ghost use Rattle.list_rules.specs.Seen.{seen};

use crate::{ListAsk, TokenNo};
use base64::DecodeAllocError;
use base64::engine::general_purpose::URL_SAFE_NO_PAD;
use kube_meta::{Key, Memory, Resource, Rev, Text};
use select_all::Selection;
use std::alloc::Global;

/// The continue token of a page of the list that ends with the object `last`, at the revision `rev`: the base64url
/// text without padding (RFC 4648, section 5) of seven texts with a line feed after each of the first six. These are
/// `1`, the revision, the resource's name in paths, the namespace, empty for all, the key of `last`, the label
/// selector's text with each line feed replaced by a space, and the field selector's text.
pub fn token(alloc: Global, ask: &ListAsk, rev: u64, last: &Key) -> Result<Text, Memory>
    ensures text { IfOk result (λ token. token ≡ token_text ask.now.selection ask.now.label_text ask.now.field_text rev last.now) }
    // For a revision that there may be, the token is read back as that revision and key.
    ensures read_back { IfOk result (λ token. 1 ≤ rev → rev ≤ 2 ^ 62 → IsOneLine (list_namespace ask.now.selection.ns) →
        token_read token ask.now.selection ask.now.label_text ask.now.field_text ≡ Ok (rev, last.now)) }
{
    let lines = lines_of_token(alloc, ask, rev, last)?;
    let token = URL_SAFE_NO_PAD.encode(alloc, lines.as_slice())?;
    Ok(Text::from_string(token))
}

// The seven texts.
fn lines_of_token(alloc: Global, ask: &ListAsk, rev: u64, last: &Key) -> Result<Vec<u8>, Memory>
    ensures key { IfOk result (λ _. IsKey last.now) }
    ensures lines { IfOk result (λ lines. lines.items ≡ token_lines ask.now.selection ask.now.label_text ask.now.field_text rev last.now) }
{
    let revision = format!(in alloc; "{rev}")?;
    let mut lines = Vec::new(alloc);
    push_line(&mut lines, b"1")?;
    push_line(&mut lines, revision.as_bytes())?;
    push_line(&mut lines, ask.selection.resource.plural().as_bytes())?;
    push_line(&mut lines, namespace(&ask.selection).as_bytes())?;
    push_line(&mut lines, last.as_str().as_bytes())?;
    let label = without_line_feeds(alloc, ask.label_text.as_str())?;
    push_line(&mut lines, label.as_slice())?;
    lines.extend_from_slice(ask.field_text.as_str().as_bytes())?;
    Ok(lines)
}

// Puts a text and a line feed behind the others.
fn push_line(lines: &mut Vec<u8>, text: &[u8]) -> Result<(), Memory>
    ensures { IfOk result (λ _. lines.new.items ≡ lines.old.items ++ (text.now ++ 10 ∷ [])) }
{
    lines.extend_from_slice(text)?;
    lines.push(b'\n')?;
    Ok(())
}

// The text with each line feed replaced by a space.
fn without_line_feeds(alloc: Global, text: &str) -> Result<Vec<u8>, Memory>
    ensures { IfOk result (λ bytes. bytes.items ≡ spaced text.now) }
{
    text.as_bytes()
        .iter()
        .map(|b| if *b == b'\n' { b' ' } else { *b })
        .collect(alloc)
}

// The namespace of a list, empty for all.
fn namespace(selection: &Selection) -> &str
    ensures { result.now ≡ list_namespace selection.now.ns }
{
    match &selection.ns {
        Some(ns) => ns.as_str(),
        None => "",
    }
}

/// Reads a continue token of the list of `selection`, whose selectors were given as the texts `label` and `field`:
/// the revision of its pages, and the key behind which the next one begins. A token isn't signed.
pub fn read_token(
    alloc: Global,
    text: &str,
    selection: &Selection,
    label: &str,
    field: &str,
) -> Result<(u64, Key), TokenNo>
    ensures { ReadsToken result (token_read text.now selection.now label.now field.now) }
{
    let body = match decoded(alloc, text.as_bytes())? {
        Some(body) => body,
        None => return Err(TokenNo::NotToken),
    };
    match texts_of(body.as_slice()) {
        Some(texts) => read_texts(alloc, &texts, selection, label, field),
        None => Err(TokenNo::NotToken),
    }
}

// The bytes that a text is the encoding of.
fn decoded(alloc: Global, text: &[u8]) -> Result<Option<Vec<u8>>, Memory>
    ensures { IfOk result (λ body. option_map (λ bytes. bytes.items) body ≡ token_body text.now) }
{
    match URL_SAFE_NO_PAD.decode(alloc, text) {
        Ok(body) => Ok(Some(body)),
        Err(DecodeAllocError::DecodeError(_)) => Ok(None),
        Err(DecodeAllocError::OutOfMemory) => Err(Memory),
    }
}

// The seven texts of a token.
#[derive(Drop)]
struct Texts<'a> {
    version: &'a [u8],
    revision: &'a [u8],
    resource: &'a [u8],
    namespace: &'a [u8],
    key: &'a [u8],
    label: &'a [u8],
    field: &'a [u8],
}

// What stands before the first line feed, and what behind it.
fn line(text: &[u8]) -> Option<(&[u8], &[u8])>
    ensures { option_map (λ pieces. (pieces.0.now, pieces.1.now)) result ≡ line_of text.now }
{
    match text.iter().position(|b| *b == b'\n') {
        Some(at) => Some((&text[..at], &text[at + 1..])),
        None => None,
    }
}

// The first six lines, and what follows them.
fn texts_of(body: &[u8]) -> Option<Texts<'_>>
    ensures { option_map seen result ≡ token_texts body.now }
{
    let (version, rest) = line(body)?;
    let (revision, rest) = line(rest)?;
    let (resource, rest) = line(rest)?;
    let (namespace, rest) = line(rest)?;
    let (key, rest) = line(rest)?;
    let (label, field) = line(rest)?;
    Some(Texts {
        version,
        revision,
        resource,
        namespace,
        key,
        label,
        field,
    })
}

// The revision of at least 1 in texts of the first form, of a resource that there is.
fn revision(texts: &Texts<'_>) -> Option<u64>
    ensures { result ≡ token_revision (seen texts.now) }
{
    if texts.version != b"1".as_slice() || Resource::of_plural(texts.resource).is_none() {
        return None;
    }
    match Rev::read(texts.revision) {
        Ok(n) if n > 0 => Some(n),
        _ => None,
    }
}

// Whether the texts are those of a token of the list, whose label selector's text is `label` once its line feeds are
// replaced.
fn is_of_list(texts: &Texts<'_>, selection: &Selection, label: &[u8], field: &str) -> bool
    ensures { (text : List ℕ) → label.now ≡ spaced text → result ≡ is_of_list (seen texts.now) selection.now text field.now }
{
    texts.resource == selection.resource.plural().as_bytes()
        && texts.namespace == namespace(selection).as_bytes()
        && texts.label == label
        && texts.field == field.as_bytes()
}

// What a token names, from the revision and the key in its texts and from whether it is of the list.
fn place(rev: Option<u64>, key: Option<Key>, of_list: bool) -> Result<(u64, Key), TokenNo>
    ensures { result ≡ page_start rev key of_list }
{
    match (rev, key) {
        (Some(rev), Some(key)) => match of_list {
            true => Ok((rev, key)),
            false => Err(TokenNo::OtherList),
        },
        _ => Err(TokenNo::NotToken),
    }
}

// The revision and the key of a token's texts, if it is one of the list.
fn read_texts(
    alloc: Global,
    texts: &Texts<'_>,
    selection: &Selection,
    label: &str,
    field: &str,
) -> Result<(u64, Key), TokenNo>
    ensures { ReadsToken result (texts_read (Some (seen texts.now)) selection.now label.now field.now) }
{
    let key = Key::read(alloc, texts.key)?;
    let label = without_line_feeds(alloc, label)?;
    let of_list = is_of_list(texts, selection, label.as_slice(), field);
    place(revision(texts), key, of_list)
}
