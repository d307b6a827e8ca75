//! The tokens of a program's text: their kinds, their spans and their places, or the one fault.
#![tactic(auto)]

mod fault;
mod laws;
mod lexer;
mod piece;
mod place;
mod token;
mod tokens;
mod words;

pub use fault::LexFault;
pub use laws::{
    faults_are_one, language_2_has_the_tokens_of_1, language_3_has_the_tokens_of_2,
    language_4_has_the_tokens_of_3, pieces_are_longest, tokens_are_one, tokens_are_spans,
};
pub use lexer::lex;
pub use place::{Place, place_after};
pub use token::{Keyword, Sign, Token, TokenKind};
pub use tokens::Tokens;
