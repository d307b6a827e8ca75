//! A token: what it is, and where it is.
ghost use Rattle.std.specs.Prelude.{◌≡◌, ◌≤◌, length, slice_range};
ghost use Rattle.tc_lexer.specs.Tokens.{keyword_text, sign_text};

use crate::Place;

/// The words that aren't names.
#[derive(Clone, Copy, Debug, PartialEq, Eq)]
pub enum Keyword {
    /// `int`
    Int,
    /// `mutex`
    Mutex,
    /// `cond`
    Cond,
    /// `thread`
    Thread,
    /// `main`
    Main,
    /// `tid`
    Tid,
    /// `if`
    If,
    /// `else`
    Else,
    /// `while`
    While,
    /// `create`
    Create,
    /// `join`
    Join,
    /// `lock`
    Lock,
    /// `unlock`
    Unlock,
    /// `wait`
    Wait,
    /// `signal`
    Signal,
    /// `broadcast`
    Broadcast,
    /// `fence`
    Fence,
    /// `assert`
    Assert,
    /// `swap`, from language 3 on
    Swap,
    /// `cas`, from language 3 on
    Cas,
    /// `stbar`, from language 3 on
    Stbar,
}

impl Keyword {
    /// Its spelling.
    pub fn text(&self) -> &'static [u8]
        ensures { result.now ≡ keyword_text self.now }
    {
        match self {
            Keyword::Int => b"int",
            Keyword::Mutex => b"mutex",
            Keyword::Cond => b"cond",
            Keyword::Thread => b"thread",
            Keyword::Main => b"main",
            Keyword::Tid => b"tid",
            Keyword::If => b"if",
            Keyword::Else => b"else",
            Keyword::While => b"while",
            Keyword::Create => b"create",
            Keyword::Join => b"join",
            Keyword::Lock => b"lock",
            Keyword::Unlock => b"unlock",
            Keyword::Wait => b"wait",
            Keyword::Signal => b"signal",
            Keyword::Broadcast => b"broadcast",
            Keyword::Fence => b"fence",
            Keyword::Assert => b"assert",
            Keyword::Swap => b"swap",
            Keyword::Cas => b"cas",
            Keyword::Stbar => b"stbar",
        }
    }
}

/// The signs.
#[derive(Clone, Copy, Debug, PartialEq, Eq)]
pub enum Sign {
    /// `(`
    OpenParen,
    /// `)`
    CloseParen,
    /// `[`
    OpenBracket,
    /// `]`
    CloseBracket,
    /// `{`
    OpenBrace,
    /// `}`
    CloseBrace,
    /// `,`
    Comma,
    /// `;`
    Semicolon,
    /// `=`
    Assign,
    /// `+`
    Plus,
    /// `-`
    Minus,
    /// `*`
    Star,
    /// `/`, from language 2 on
    Slash,
    /// `%`, from language 2 on
    Percent,
    /// `!`
    Bang,
    /// `~`
    Tilde,
    /// `<`
    Less,
    /// `<=`
    LessEqual,
    /// `>`
    Greater,
    /// `>=`
    GreaterEqual,
    /// `==`
    EqualEqual,
    /// `!=`
    BangEqual,
    /// `<<`, from language 2 on
    ShiftLeft,
    /// `>>`, from language 2 on
    ShiftRight,
    /// `&`
    And,
    /// `^`
    Caret,
    /// `|`
    Or,
    /// `&&`
    AndAnd,
    /// `||`
    OrOr,
}

impl Sign {
    /// Its spelling.
    pub fn text(&self) -> &'static [u8]
        ensures { result.now ≡ sign_text self.now }
    {
        match self {
            Sign::OpenParen => b"(",
            Sign::CloseParen => b")",
            Sign::OpenBracket => b"[",
            Sign::CloseBracket => b"]",
            Sign::OpenBrace => b"{",
            Sign::CloseBrace => b"}",
            Sign::Comma => b",",
            Sign::Semicolon => b";",
            Sign::Assign => b"=",
            Sign::Plus => b"+",
            Sign::Minus => b"-",
            Sign::Star => b"*",
            Sign::Slash => b"/",
            Sign::Percent => b"%",
            Sign::Bang => b"!",
            Sign::Tilde => b"~",
            Sign::Less => b"<",
            Sign::LessEqual => b"<=",
            Sign::Greater => b">",
            Sign::GreaterEqual => b">=",
            Sign::EqualEqual => b"==",
            Sign::BangEqual => b"!=",
            Sign::ShiftLeft => b"<<",
            Sign::ShiftRight => b">>",
            Sign::And => b"&",
            Sign::Caret => b"^",
            Sign::Or => b"|",
            Sign::AndAnd => b"&&",
            Sign::OrOr => b"||",
        }
    }
}

/// What a token is. The text of a `Name` is at the token's span.
#[derive(Clone, Copy, Debug, PartialEq, Eq)]
pub enum TokenKind {
    /// A name: a letter or `_`, then letters, digits and `_`, and not a keyword.
    Name,
    /// A number from 0 to the greatest `int`, without leading zeros.
    Number(i32),
    /// A keyword.
    Keyword(Keyword),
    /// A sign.
    Sign(Sign),
}

/// A token with its place in its text.
#[derive(Clone, Copy, Debug, PartialEq, Eq)]
pub struct Token {
    /// What it is.
    pub kind: TokenKind,
    /// How many bytes of the text come before it.
    pub start: usize,
    /// How many bytes of the text come before its end.
    pub end: usize,
    /// The place of its first byte.
    pub place: Place,
}

impl Token {
    /// The token's own bytes in its text; by `tokens_are_spans` they are there.
    pub fn text<'a>(&self, source: &'a [u8]) -> &'a [u8]
        requires begins { self.now.start ≤ self.now.end }
        requires ends { self.now.end ≤ length source.now }
        ensures { result.now ≡ slice_range source.now self.now.start self.now.end }
    {
        &source[self.start..self.end]
    }
}
