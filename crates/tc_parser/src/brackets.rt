//! How many brackets are open at once.
ghost use Rattle.std.specs.Prelude.{◌≡◌, ◌≤◌, MatchBool};
ghost use Rattle.tc_limits.specs.declared.limits.TheConstants.{BRACKETS};
ghost use Rattle.tc_parser.specs.Programs.{open_after_kind, IsNested, IsTooDeep};

use tc_lexer::{Sign, Token, TokenKind};
use tc_limits::limits::BRACKETS;

/// Whether at some token more brackets are open than a program may have.
pub(crate) fn is_too_deep(tokens: &[Token]) -> bool
    ensures { MatchBool result (IsTooDeep tokens.now) (IsNested tokens.now) }
{
    let mut depth = 0;
    for token in tokens {
        depth = open_after(depth, token.kind);
        if depth > BRACKETS {
            return true;
        }
    }
    false
}

/// How many brackets are open after one token more.
fn open_after(depth: usize, kind: TokenKind) -> usize
    requires { depth ≤ BRACKETS }
    ensures { result ≡ open_after_kind depth kind }
{
    match kind {
        TokenKind::Sign(Sign::OpenParen | Sign::OpenBracket | Sign::OpenBrace) => depth + 1,
        TokenKind::Sign(Sign::CloseParen | Sign::CloseBracket | Sign::CloseBrace) => {
            depth.saturating_sub(1)
        }
        _ => depth,
    }
}
