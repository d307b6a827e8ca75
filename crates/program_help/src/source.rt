//! A text with its tokens.

use std::str;
use tc_lexer::{Place, Token, TokenKind};
use tc_tree::Name;

/// A text with its tokens.
#[derive(Clone, Copy)]
pub(crate) struct Source<'a> {
    pub(crate) text: &'a [u8],
    pub(crate) tokens: &'a [Token],
}

impl<'a> Source<'a> {
    /// The text of the token with this number, from 0; empty past the last one.
    pub(crate) fn word(&self, number: usize) -> &'a str {
        match self.tokens.get(number) {
            Some(token) => word_of(self.text, &name_of(token)),
            None => "",
        }
    }

    /// The token `distance` places before another one; empty if there is none.
    pub(crate) fn before(&self, number: usize, distance: usize) -> &'a str {
        match number.checked_sub(distance) {
            Some(earlier) => self.word(earlier),
            None => "",
        }
    }

    /// The token `distance` places after another one; empty if there is none.
    pub(crate) fn after(&self, number: usize, distance: usize) -> &'a str {
        self.word(number.saturating_add(distance))
    }

    /// Whether the token of this number is a name.
    pub(crate) fn is_name(&self, number: usize) -> bool {
        match self.tokens.get(number) {
            Some(token) => matches!(token.kind, TokenKind::Name),
            None => false,
        }
    }

    /// The number of the token that begins at a place, or the number of tokens if none does.
    pub(crate) fn number_at(&self, place: Place) -> usize {
        self.tokens
            .iter()
            .take_while(|token| token.place != place)
            .count()
    }

    /// Whether a token is the first of its line.
    pub(crate) fn begins_line(&self, number: usize) -> bool {
        let Some(earlier) = number.checked_sub(1) else {
            return true;
        };
        match (self.tokens.get(earlier), self.tokens.get(number)) {
            (Some(last), Some(token)) => last.place.line < token.place.line,
            _ => false,
        }
    }
}

/// A name of a text, which is ASCII.
pub(crate) fn word_of<'a>(text: &'a [u8], name: &Name) -> &'a str {
    str::from_utf8(name.text(text)).unwrap_or("")
}

/// The span of a token.
fn name_of(token: &Token) -> Name {
    Name {
        start: token.start,
        end: token.end,
        place: token.place,
    }
}
