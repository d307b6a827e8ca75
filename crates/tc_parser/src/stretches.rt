//! Stretches of tokens without `;`, `{` or `}`.
ghost use Rattle.std.specs.Prelude.{◌≡◌};
ghost use Rattle.tc_parser.specs.Programs.{ends_stretch, long_stretch};

use tc_lexer::{Sign, Token, TokenKind};
use tc_limits::limits::STRETCH;

/// The length of the first stretch that is too long, if there is one.
pub(crate) fn long_stretch(tokens: &[Token]) -> Option<usize>
    ensures { result ≡ long_stretch tokens.now }
{
    let mut len = 0;
    for token in tokens {
        if !ends_stretch(token.kind) {
            len += 1;
        } else if len > STRETCH {
            return Some(len);
        } else {
            len = 0;
        }
    }
    if len > STRETCH { Some(len) } else { None }
}

fn ends_stretch(kind: TokenKind) -> bool
    ensures { result ≡ ends_stretch kind }
{
    matches!(
        kind,
        TokenKind::Sign(Sign::Semicolon | Sign::OpenBrace | Sign::CloseBrace)
    )
}
