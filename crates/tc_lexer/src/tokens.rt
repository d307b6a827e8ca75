//! The tokens of a text.
ghost use Rattle.std.specs.Prelude.{◌≡◌, length};

use crate::token::Token;
use std::marker::Model;

/// The tokens of a text, in order.
#[derive(Debug, Drop)]
pub struct Tokens {
    tokens: Vec<Token>,
}

impl Model for Tokens {
    ghost use Rattle.std.specs.Prelude.{List};
    ghost use Rattle.tc_lexer.specs.declared.token.Token.{Token as OneToken};

    ghost Value = { List OneToken };

    ghost view = { λ t. t.tokens.items };
}

impl Tokens {
    /// The list of these tokens.
    pub fn from_vec(tokens: Vec<Token>) -> Self
        ensures { result ≡ tokens.items }
    {
        Tokens { tokens }
    }

    /// Gives the vector back.
    pub fn into_vec(self) -> Vec<Token>
        ensures { result.items ≡ self }
    {
        let Tokens { tokens } = self;
        tokens
    }

    /// All tokens, in order.
    pub fn as_slice(&self) -> &[Token]
        ensures { result.now ≡ self.now }
    {
        &self.tokens
    }
}
