//! The keywords and the signs, by their spelling.
ghost use Rattle.std.specs.Prelude.{◌≡◌};
ghost use Rattle.tc_lexer.specs.helpers.Reading.{keyword_of, sign_at};

use crate::token::{Keyword, Sign};

static KEYWORDS: [Keyword; 21] = [
    Keyword::Int,
    Keyword::Mutex,
    Keyword::Cond,
    Keyword::Thread,
    Keyword::Main,
    Keyword::Tid,
    Keyword::If,
    Keyword::Else,
    Keyword::While,
    Keyword::Create,
    Keyword::Join,
    Keyword::Lock,
    Keyword::Unlock,
    Keyword::Wait,
    Keyword::Signal,
    Keyword::Broadcast,
    Keyword::Fence,
    Keyword::Assert,
    Keyword::Swap,
    Keyword::Cas,
    Keyword::Stbar,
];

/// The signs, those of two bytes first.
static SIGNS: [Sign; 29] = [
    Sign::LessEqual,
    Sign::GreaterEqual,
    Sign::EqualEqual,
    Sign::BangEqual,
    Sign::ShiftLeft,
    Sign::ShiftRight,
    Sign::AndAnd,
    Sign::OrOr,
    Sign::OpenParen,
    Sign::CloseParen,
    Sign::OpenBracket,
    Sign::CloseBracket,
    Sign::OpenBrace,
    Sign::CloseBrace,
    Sign::Comma,
    Sign::Semicolon,
    Sign::Assign,
    Sign::Plus,
    Sign::Minus,
    Sign::Star,
    Sign::Slash,
    Sign::Percent,
    Sign::Bang,
    Sign::Tilde,
    Sign::Less,
    Sign::Greater,
    Sign::And,
    Sign::Caret,
    Sign::Or,
];

/// The keyword with this spelling.
pub(crate) fn keyword_of(word: &[u8]) -> Option<Keyword>
    ensures { result ≡ keyword_of 4 word.now }
{
    KEYWORDS.iter().copied().find(|k| k.text() == word)
}

/// The longest sign at the front.
pub(crate) fn sign_at(text: &[u8]) -> Option<Sign>
    ensures { result ≡ sign_at 4 text.now }
{
    SIGNS.iter().copied().find(|s| text.starts_with(s.text()))
}
