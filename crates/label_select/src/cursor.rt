//! Tokens taken one by one.

ghost use Rattle.std.specs.Prelude.{◌≡◌, ◌==◌, length};
ghost use Rattle.label_select.specs.Pieces.{is_kind, tokens_of};
ghost use Rattle.label_select.specs.Reading.{place};
ghost use Rattle.label_select.specs.Left.{left, StepsOver, TakesWord};

use crate::lexer::{Token, TokenKind, Tokens};

/// The tokens of a text that are left to be read, of which the next is known.
#[derive(Drop)]
pub struct Cursor<'a> {
    next: Option<Token<'a>>,
    after: Tokens<'a>,
    end: usize,
}

impl<'a> Cursor<'a> {
    /// All tokens of the text.
    pub fn of(text: &'a str) -> Cursor<'a>
        ensures tokens { left result ≡ tokens_of 0 text.now }
        ensures end { result.end ≡ length text.now }
    {
        let mut after = Tokens::of(text);
        let next = after.next();
        let end = text.len();
        Cursor { next, after, end }
    }

    /// Whether no token is left.
    pub fn is_done(&self) -> bool
        ensures { result ≡ (length (left self.now) == 0) }
    {
        self.next.is_none()
    }

    /// The place of the next token, or of the end of the text.
    pub fn place(&self) -> usize
        ensures { result ≡ place self.now.end (left self.now) }
    {
        match self.next {
            Some(token) => token.at,
            None => self.end,
        }
    }

    /// Steps over the next token where it is of this kind, and says whether it is.
    pub fn takes(&mut self, kind: TokenKind) -> bool
        ensures end { self.new.end ≡ self.old.end }
        ensures steps { StepsOver (left self.old) kind result (left self.new) }
    {
        match self.next {
            Some(token) if token.kind.is(kind) => {
                self.next = self.after.next();
                true
            }
            _ => false,
        }
    }

    /// Steps over the next token where it is a word, and gives it.
    pub fn word(&mut self) -> Option<Token<'a>>
        ensures end { self.new.end ≡ self.old.end }
        ensures steps { TakesWord (left self.old) result (left self.new) }
    {
        match self.next {
            Some(token) if token.kind.is(TokenKind::Word) => {
                self.next = self.after.next();
                Some(token)
            }
            _ => None,
        }
    }
}
