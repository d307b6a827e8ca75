//! Why a text has no code.

use std::alloc::AllocError;
use std::error::Error;
use std::fmt;
use tc_lexer::LexFault;
use tc_parser::{ParseFault, TextFault};

/// Why a text has no code.
#[derive(Clone, Copy, Debug, PartialEq, Eq)]
pub enum CompileFault {
    /// The text isn't a program.
    Refused(TextFault),
    /// Memory ran out.
    Memory,
}

/// What is wrong with the text, and where.
impl fmt::Display for CompileFault {
    ghost use Rattle.std.specs.Prelude.{Some};
    ghost use Rattle.tc_compile.specs.Programs.{compile_fault_text};

    ghost output = { λ f. Some (compile_fault_text f) };

    fn fmt<W: fmt::Write>(&self, f: &mut fmt::Formatter<W>) -> fmt::Result {
        match self {
            CompileFault::Refused(fault) => write!(f, "{fault}"),
            CompileFault::Memory => write!(f, "no memory"),
        }
    }
}

impl Error for CompileFault {}

impl From<TextFault> for CompileFault {
    ghost use Rattle.std.specs.Prelude.{◌≡◌};
    ghost use Rattle.tc_compile.specs.helpers.Faults.{why_of};

    ghost from_gives = { λ fault result. result ≡ why_of fault };

    fn from(fault: TextFault) -> Self {
        match fault {
            TextFault::Lex(LexFault::Memory) | TextFault::Parse(ParseFault::Memory) => {
                CompileFault::Memory
            }
            fault => CompileFault::Refused(fault),
        }
    }
}

impl From<AllocError> for CompileFault {
    ghost use Rattle.std.specs.Prelude.{◌≡◌};
    ghost use Rattle.tc_compile.specs.declared.fault.CompileFault.TheVariants.{Memory};

    ghost from_gives = { λ _ fault. fault ≡ Memory };

    fn from(_error: AllocError) -> Self {
        CompileFault::Memory
    }
}
