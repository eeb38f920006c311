//! Cuts the text of a selector into tokens.

ghost use Rattle.std.specs.Prelude.{◌≡◌, ◌<◌, ◌≤◌, ◌-◌, length, take, drop, false};
ghost use Rattle.std.specs.Iterator.{YieldsFirstBy, item_count};
ghost use Rattle.label_select.specs.Pieces.{AreTokens, IsToken, begins, is_blank, is_kind, is_sign, is_word_byte, sign_kind, Each, piece_of, tokens_of};

use std::marker::Model;

/// What a token is.
#[derive(Clone, Copy, Debug, PartialEq, Eq)]
pub enum TokenKind {
    /// A longest run of bytes that are neither blanks nor part of another token.
    Word,
    /// `=`
    Equal,
    /// `==`
    DoubleEqual,
    /// `!=`
    NotEqual,
    /// `!`
    Not,
    /// `,`
    Comma,
    /// `(`
    Open,
    /// `)`
    Close,
    /// `<`
    Less,
    /// `>`
    Greater,
}

impl TokenKind {
    /// Whether it is this kind.
    pub fn is(self, kind: TokenKind) -> bool
        ensures { result ≡ is_kind self kind }
    {
        self as u8 == kind as u8
    }
}

/// A token, its text as it stands in the source, and the place of its first byte there.
#[derive(Clone, Copy, Debug)]
pub struct Token<'a> {
    pub kind: TokenKind,
    pub text: &'a str,
    pub at: usize,
}

#[tactic(auto, unfolding(crate::specs::Pieces::is_blank))]
fn is_blank(b: u8) -> bool
    ensures { result ≡ is_blank b }
{
    b == b' ' || b == b'\t' || b == b'\n' || b == b'\r'
}

#[tactic(auto, unfolding(crate::specs::Pieces::is_sign))]
fn is_sign(b: u8) -> bool
    ensures { result ≡ is_sign b }
{
    b == b'=' || b == b'!' || b == b',' || b == b'(' || b == b')' || b == b'<' || b == b'>'
}

fn is_word_byte(b: u8) -> bool
    ensures { result ≡ is_word_byte b }
{
    !is_blank(b) && !is_sign(b)
}

/// How many bytes at the front are blanks.
fn blank_len(bytes: &[u8]) -> usize
    ensures within { result ≤ length bytes.now }
    ensures blanks { Each is_blank (take result bytes.now) }
    ensures longest { begins is_blank (drop result bytes.now) ≡ false }
{
    for (i, b) in bytes.iter().enumerate() {
        if !is_blank(*b) {
            return i;
        }
    }
    bytes.len()
}

/// How many bytes at the front are part of a word.
fn word_len(bytes: &[u8]) -> usize
    ensures within { result ≤ length bytes.now }
    ensures word { Each is_word_byte (take result bytes.now) }
    ensures longest { begins is_word_byte (drop result bytes.now) ≡ false }
{
    for (i, b) in bytes.iter().enumerate() {
        if !is_word_byte(*b) {
            return i;
        }
    }
    bytes.len()
}

/// The token of one byte that is neither a blank nor part of a word.
fn sign_kind(b: u8) -> TokenKind
    ensures { result ≡ sign_kind b }
{
    match b {
        b'=' => TokenKind::Equal,
        b'!' => TokenKind::Not,
        b',' => TokenKind::Comma,
        b'(' => TokenKind::Open,
        b')' => TokenKind::Close,
        b'<' => TokenKind::Less,
        _ => TokenKind::Greater,
    }
}

/// The kind and the length of the token that the bytes begin with.
fn first_token(bytes: &[u8]) -> (TokenKind, usize)
    requires some { 0 < length bytes.now }
    requires no_blank { begins is_blank bytes.now ≡ false }
    ensures some { 0 < result.1 }
    ensures within { result.1 ≤ length bytes.now }
    ensures token { IsToken result.0 (take result.1 bytes.now) (drop result.1 bytes.now) }
{
    let first = bytes[0];
    if is_word_byte(first) {
        return (TokenKind::Word, word_len(bytes));
    }
    if bytes.len() > 1 && bytes[1] == b'=' {
        if first == b'=' {
            return (TokenKind::DoubleEqual, 2);
        }
        if first == b'!' {
            return (TokenKind::NotEqual, 2);
        }
    }
    (sign_kind(first), 1)
}

/// The tokens of a text, in order, each with its place. Blanks separate tokens and are none.
#[derive(Debug, Drop)]
pub struct Tokens<'a> {
    rest: &'a str,
    end: usize,
}

impl<'a> Model for Tokens<'a> {
    ghost use Rattle.std.specs.Prelude.{List, ◌≤◌, ◌-◌, length};
    ghost use Rattle.label_select.specs.Pieces.{Piece, tokens_of};

    ghost Value = { List Piece };

    ghost view = { λ t. tokens_of (t.end - length t.rest.now) t.rest.now };

    ghost invariant = { λ t. length t.rest.now ≤ t.end };
}

impl<'a> Tokens<'a> {
    /// The tokens of a text.
    pub fn of(text: &'a str) -> Tokens<'a>
        ensures tokens { AreTokens 0 text.now result }
        ensures computed { result ≡ tokens_of 0 text.now }
    {
        Tokens {
            rest: text,
            end: text.len(),
        }
    }
}

impl<'a> Iterator for Tokens<'a> {
    type Item = Token<'a>;

    ghost next_gives = { YieldsFirstBy piece_of (λ s. s) };

    ghost remaining = { item_count (λ s. s) };

    fn next(&mut self) -> Option<Token<'a>> {
        let (_, rest) = self.rest.split_at(blank_len(self.rest.as_bytes()));
        let at = self.end - rest.len();
        if rest.is_empty() {
            self.rest = rest;
            return None;
        }
        let (kind, len) = first_token(rest.as_bytes());
        let (text, rest) = rest.split_at(len);
        self.rest = rest;
        Some(Token { kind, text, at })
    }
}
