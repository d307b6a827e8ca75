//! Texts that pass a limit: of brackets, tokens in a stretch, cells, mutexes or conditions.

use crate::source::Source;
use tc_lexer::{Sign, Token, TokenKind};
use tc_limits::limits::{BRACKETS, STRETCH};
use tc_parser::What;

/// What to do where a text passes this limit.
pub(crate) fn count_hint(what: What) -> &'static str {
    match what {
        What::Brackets =>
            "too many `(`, `[` and `{` are open here: split the expression or the block",
        What::Stretch =>
            "too many tokens follow without `;`, `{` or `}`: keep parts of the expression in locals",
        What::Cells => "an int takes one cell, an array one for each element",
        What::Mutexes => "each `mutex` counts, used or not",
        What::Conditions => "each `cond` counts, used or not",
    }
}

/// The token at which a text passes this limit, if it is at a token.
pub(crate) fn count_token(source: Source, what: What) -> Option<Token> {
    let number = match what {
        What::Brackets => too_deep(source)?,
        What::Stretch => too_long(source)?,
        What::Cells | What::Mutexes | What::Conditions => return None,
    };
    source.tokens.get(number).copied()
}

/// The first token at which too many brackets are open.
fn too_deep(source: Source) -> Option<usize> {
    let mut open: usize = 0;
    for (i, token) in source.tokens.iter().enumerate() {
        open = open_after(open, token);
        if open > BRACKETS {
            return Some(i);
        }
    }
    None
}

/// The number of open brackets after one more token.
fn open_after(open: usize, token: &Token) -> usize {
    match token.kind {
        TokenKind::Sign(Sign::OpenParen | Sign::OpenBracket | Sign::OpenBrace) => {
            open.saturating_add(1)
        }
        TokenKind::Sign(Sign::CloseParen | Sign::CloseBracket | Sign::CloseBrace) => {
            open.saturating_sub(1)
        }
        _ => open,
    }
}

/// The first token of the first stretch that is too long.
fn too_long(source: Source) -> Option<usize> {
    let mut length: usize = 0;
    for (i, token) in source.tokens.iter().enumerate() {
        length = if ends_stretch(token) {
            0
        } else {
            length.saturating_add(1)
        };
        if length > STRETCH {
            return i.checked_sub(STRETCH);
        }
    }
    None
}

fn ends_stretch(token: &Token) -> bool {
    matches!(
        token.kind,
        TokenKind::Sign(Sign::Semicolon | Sign::OpenBrace | Sign::CloseBrace)
    )
}

/// The most brackets that are open at once.
pub(crate) fn most_open(source: Source) -> usize {
    let mut open: usize = 0;
    let mut most: usize = 0;
    for token in source.tokens {
        open = open_after(open, token);
        most = most.max(open);
    }
    most
}

/// The number of tokens in the longest stretch.
pub(crate) fn longest_stretch(source: Source) -> usize {
    let mut length: usize = 0;
    let mut most: usize = 0;
    for token in source.tokens {
        length = if ends_stretch(token) {
            0
        } else {
            length.saturating_add(1)
        };
        most = most.max(length);
    }
    most
}
