//! The tokens that are possible at a place, in the words of a person.

use next_tokens::Stuck;
use std::alloc::{AllocError, Global};
use std::str;
use tc_lexer::{Keyword, Sign, TokenKind};

/// Kinds of tokens for which a person has one word.
#[derive(Clone, Copy)]
enum Group {
    /// The declarations of globals.
    Global,
    /// The declarations of a body.
    Local,
    /// Tokens that begin a statement.
    Statement,
    /// Tokens that begin an expression.
    Expression,
    /// The operators between two operands.
    Operator,
}

/// The groups, in the order in which kinds are put into them: a name that begins a statement begins no expression.
static GROUPS: [Group; 5] = [
    Group::Global,
    Group::Local,
    Group::Statement,
    Group::Expression,
    Group::Operator,
];

impl Group {
    /// Whether the group has this kind.
    fn has(self, kind: TokenKind) -> bool {
        match kind {
            TokenKind::Name => matches!(self, Group::Statement | Group::Expression),
            TokenKind::Number(_) => matches!(self, Group::Expression),
            TokenKind::Keyword(keyword) => self.has_keyword(keyword),
            TokenKind::Sign(sign) => self.has_sign(sign),
        }
    }

    fn has_keyword(self, keyword: Keyword) -> bool {
        match self {
            Group::Global => matches!(keyword, Keyword::Int | Keyword::Mutex | Keyword::Cond),
            Group::Local => matches!(keyword, Keyword::Int | Keyword::Tid),
            Group::Statement => begins_statement(keyword),
            Group::Expression | Group::Operator => false,
        }
    }

    fn has_sign(self, sign: Sign) -> bool {
        match self {
            Group::Expression => matches!(
                sign,
                Sign::OpenParen | Sign::Minus | Sign::Bang | Sign::Tilde
            ),
            Group::Operator => is_operator(sign),
            Group::Global | Group::Local | Group::Statement => false,
        }
    }

    /// The number of its kinds.
    fn size(self) -> usize {
        match self {
            Group::Global => 3,
            Group::Local => 2,
            Group::Statement => 12,
            Group::Expression => 6,
            Group::Operator => 18,
        }
    }

    fn words(self) -> &'static str {
        match self {
            Group::Global => "the declaration of a global (`int`, `mutex`, `cond`)",
            Group::Local => "a declaration (`int`, `tid`)",
            Group::Statement => "a statement",
            Group::Expression => "an expression",
            Group::Operator => "an operator",
        }
    }

    /// Whether all its kinds are among these.
    fn is_whole(self, kinds: &[TokenKind]) -> bool {
        kinds.iter().filter(|kind| self.has(**kind)).count() == self.size()
    }
}

fn begins_statement(keyword: Keyword) -> bool {
    matches!(
        keyword,
        Keyword::If
            | Keyword::While
            | Keyword::Join
            | Keyword::Lock
            | Keyword::Unlock
            | Keyword::Wait
            | Keyword::Signal
            | Keyword::Broadcast
            | Keyword::Fence
            | Keyword::Stbar
            | Keyword::Assert
    )
}

fn is_operator(sign: Sign) -> bool {
    !matches!(
        sign,
        Sign::OpenParen
            | Sign::CloseParen
            | Sign::OpenBracket
            | Sign::CloseBracket
            | Sign::OpenBrace
            | Sign::CloseBrace
            | Sign::Comma
            | Sign::Semicolon
            | Sign::Assign
            | Sign::Bang
            | Sign::Tilde
    )
}

/// The tokens that are possible: groups that are possible whole, then the other kinds, and the end
/// of the text.
pub(crate) fn expected_words(alloc: Global, stuck: &Stuck) -> Result<String, AllocError> {
    let mut words = Vec::new(alloc);
    push_all(alloc, &mut words, stuck)?;
    joined(alloc, words.as_slice())
}

/// Adds the words for each token that is possible.
fn push_all(alloc: Global, words: &mut Vec<String>, stuck: &Stuck) -> Result<(), AllocError> {
    let kinds = stuck.kinds.as_slice();
    for group in GROUPS.iter() {
        if group.is_whole(kinds) {
            push_words(alloc, words, group.words())?;
        }
    }
    for kind in kinds {
        if !is_in_group(kinds, *kind) {
            words.push(kind_words(alloc, *kind)?)?;
        }
    }
    if stuck.may_end {
        push_words(alloc, words, "the end of the text")
    } else {
        Ok(())
    }
}

/// Adds words.
fn push_words(alloc: Global, all: &mut Vec<String>, words: &str) -> Result<(), AllocError> {
    Ok(all.push(String::from_str(alloc, words)?)?)
}

/// Whether a kind is in a group that is possible whole.
fn is_in_group(kinds: &[TokenKind], kind: TokenKind) -> bool {
    GROUPS
        .iter()
        .any(|group| group.has(kind) && group.is_whole(kinds))
}

/// A kind of tokens.
fn kind_words(alloc: Global, kind: TokenKind) -> Result<String, AllocError> {
    match kind {
        TokenKind::Name => String::from_str(alloc, "a name"),
        TokenKind::Number(_) => String::from_str(alloc, "a number"),
        TokenKind::Keyword(keyword) => quoted(alloc, keyword.text()),
        TokenKind::Sign(sign) => quoted(alloc, sign.text()),
    }
}

/// A word as it is written.
fn quoted(alloc: Global, word: &[u8]) -> Result<String, AllocError> {
    let word = str::from_utf8(word).unwrap_or("");
    format!(in alloc; "`{word}`")
}

/// The words with commas between them, and `or` before the last.
fn joined(alloc: Global, words: &[String]) -> Result<String, AllocError> {
    let mut out = String::new(alloc);
    for (i, word) in words.iter().enumerate() {
        if i > 0 {
            let is_last = i.saturating_add(1) == words.len();
            out.push_str(if is_last { " or " } else { ", " })?;
        }
        out.push_str(word.as_str())?;
    }
    Ok(out)
}
