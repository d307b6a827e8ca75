//! Why a text has no tokens.

use crate::Place;
use std::error::Error;
use std::fmt;

/// Why a text has no tokens: the first byte at which no token and no blank begins.
#[derive(Clone, Copy, Debug, PartialEq, Eq)]
pub enum LexFault {
    /// A byte that begins no token.
    BadByte(Place),
    /// Letters, digits and `_` that begin with a digit, but aren't a number that fits `int`.
    Number(Place),
    /// A `/*` without its `*/`.
    OpenComment(Place),
    /// Memory ran out.
    Memory,
}

/// What is wrong, and at which line and column.
impl fmt::Display for LexFault {
    ghost use Rattle.std.specs.Prelude.{Some};
    ghost use Rattle.tc_lexer.specs.Faults.{lex_fault_text};

    ghost output = { λ f. Some (lex_fault_text f) };

    fn fmt<W: fmt::Write>(&self, f: &mut fmt::Formatter<W>) -> fmt::Result {
        match self {
            LexFault::BadByte(Place { line, col }) => write!(f, "BadByte at {line}:{col}"),
            LexFault::Number(Place { line, col }) => write!(f, "Number at {line}:{col}"),
            LexFault::OpenComment(Place { line, col }) => write!(f, "OpenComment at {line}:{col}"),
            LexFault::Memory => write!(f, "no memory"),
        }
    }
}

impl Error for LexFault {}
