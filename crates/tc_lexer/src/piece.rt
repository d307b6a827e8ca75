//! The pieces of a text: its tokens, and the blanks around them.
ghost use Rattle.std.specs.Prelude.{◌≡◌, ◌+◌, ◌<◌, ◌≤◌, ◌^◌, pos, not, length, option_map, Option, IsTrue, IfSome};
ghost use Rattle.std.specs.List.{prefix_len};
ghost use Rattle.tc_lexer.specs.Tokens.{is_letter, is_word, begins_with_letter};
ghost use Rattle.tc_lexer.specs.Pieces.{is_space, is_line_feed};
ghost use Rattle.tc_lexer.specs.Text.{kind_of};
ghost use Rattle.tc_lexer.specs.helpers.Reading as reading;
ghost use Rattle.tc_lexer.specs.helpers.Reading.{shape_of};

use crate::token::TokenKind;
use crate::words::{keyword_of, sign_at};
use tc_decimal::number_of;

/// A piece of a text: a token, or a blank, which has no kind.
#[derive(Clone, Copy, Debug)]
pub(crate) struct Piece {
    pub(crate) kind: Option<TokenKind>,
    /// How many bytes it has.
    pub(crate) len: usize,
}

impl Piece {
    fn blank(len: usize) -> Self
        ensures { result ≡ record { kind = Option.None; len = len } }
    {
        Piece { kind: None, len }
    }

    fn token(kind: TokenKind, len: usize) -> Self
        ensures { result ≡ record { kind = Option.Some kind; len = len } }
    {
        Piece {
            kind: Some(kind),
            len,
        }
    }
}

/// The piece at the front of a text.
pub(crate) fn piece_at(text: &[u8]) -> Option<Piece>
    requires { length text.now < 2 ^ 32 }
    ensures { result ≡ option_map shape_of (reading.front 4 text.now) }
{
    let first = *text.first()?;
    if is_space(first) {
        return Some(Piece::blank(1));
    }
    if is_word(first) {
        return word_at(text);
    }
    mark_at(text)
}

/// The word at the front, if the text begins with bytes of a word.
fn word_at(text: &[u8]) -> Option<Piece>
    requires { 0 < prefix_len is_word text.now }
    ensures { result ≡ option_map shape_of (reading.word_piece 4 text.now) }
{
    let len = word_len(text);
    let kind = word_kind(&text[..len])?;
    Some(Piece::token(kind, len))
}

/// How many bytes at the front belong to a word.
fn word_len(text: &[u8]) -> usize
    ensures len { result ≡ prefix_len is_word text.now }
    ensures within { result ≤ length text.now }
{
    text.iter().take_while(|b| is_word(**b)).count()
}

/// The comment or the sign at the front.
fn mark_at(text: &[u8]) -> Option<Piece>
    requires { length text.now < 2 ^ 32 }
    ensures { result ≡ option_map shape_of (reading.mark_piece 4 text.now) }
{
    if text.starts_with(b"//") {
        return Some(Piece::blank(2 + line_len(&text[2..])));
    }
    if text.starts_with(b"/*") {
        return Some(Piece::blank(4 + close_at(&text[2..])?));
    }
    let sign = sign_at(text)?;
    Some(Piece::token(TokenKind::Sign(sign), sign.text().len()))
}

/// How many bytes come before the line feed or the end.
fn line_len(text: &[u8]) -> usize
    ensures len { result ≡ prefix_len (λ b. not (is_line_feed b)) text.now }
    ensures within { result ≤ length text.now }
{
    text.iter().take_while(|b| **b != b'\n').count()
}

/// How many bytes come before the first `*/`.
fn close_at(text: &[u8]) -> Option<usize>
    ensures close { result ≡ option_map length (reading.before_close text.now) }
    ensures within { IfSome result (λ len. len ≤ length text.now) }
{
    let mut len = 0;
    let mut rest = text;
    while !rest.starts_with(b"*/") {
        rest = rest.split_first()?.1;
        len += 1;
    }
    Some(len)
}

/// What a word is: a keyword, a name or a number.
fn word_kind(word: &[u8]) -> Option<TokenKind>
    requires { 0 < length word.now }
    ensures { result ≡ option_map kind_of (reading.word_token 4 word.now) }
{
    if !begins_with_letter(word) {
        return Some(TokenKind::Number(int_of(word)?));
    }
    match keyword_of(word) {
        Some(keyword) => Some(TokenKind::Keyword(keyword)),
        None => Some(TokenKind::Name),
    }
}

fn begins_with_letter(word: &[u8]) -> bool
    ensures { result ≡ begins_with_letter word.now }
{
    matches!(word, [first, ..] if is_letter(*first))
}

/// The number that a word writes, if it is an `int`.
fn int_of(word: &[u8]) -> Option<i32>
    ensures { result ≡ reading.int_of word.now }
{
    Some(number_of(i32::MAX as u32, word)? as i32)
}

fn is_space(b: u8) -> bool
    ensures { result ≡ is_space b }
{
    matches!(b, b' ' | b'\t' | b'\n' | b'\r')
}

fn is_word(b: u8) -> bool
    ensures { result ≡ is_word b }
{
    is_letter(b) || b.is_ascii_digit()
}

fn is_letter(b: u8) -> bool
    ensures { result ≡ is_letter b }
{
    b.is_ascii_alphabetic() || b == b'_'
}
