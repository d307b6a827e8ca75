//! Why a text isn't a program.
ghost use Rattle.std.specs.Prelude.{◌≡◌};
ghost use Rattle.tc_parser.specs.Faults.{limit_of, name_of};

use std::alloc::AllocError;
use std::error::Error;
use std::fmt;
use tc_lexer::{LexFault, Place};
use tc_limits::limits::{BRACKETS, CELLS, CONDITIONS, MUTEXES, STRETCH};
use tc_names::NameFault;

/// The limits of a program.
#[derive(Clone, Copy, Debug, PartialEq, Eq)]
pub enum What {
    /// Brackets that are open at once.
    Brackets,
    /// Tokens in a row without `;`, `{` or `}`.
    Stretch,
    /// Memory cells: one for an int, and one for each element of an array.
    Cells,
    /// Mutexes.
    Mutexes,
    /// Conditions.
    Conditions,
}

impl What {
    /// Its name in the lines that the command prints.
    pub fn name(&self) -> &'static str
        ensures { result.now ≡ name_of self.now }
    {
        match self {
            What::Brackets => "Brackets",
            What::Stretch => "Stretch",
            What::Cells => "Cells",
            What::Mutexes => "Mutexes",
            What::Conditions => "Conditions",
        }
    }

    /// How many of this a program may have.
    pub fn limit(&self) -> usize
        ensures { result ≡ limit_of self.now }
    {
        match self {
            What::Brackets => BRACKETS,
            What::Stretch => STRETCH,
            What::Cells => CELLS,
            What::Mutexes => MUTEXES,
            What::Conditions => CONDITIONS,
        }
    }
}

/// Why the tokens of a text aren't a program.
#[derive(Clone, Copy, Debug, PartialEq, Eq)]
pub enum ParseFault {
    /// There are this many, more than a program may have. For brackets it is the limit plus 1.
    Count(What, u64),
    /// The first token with which no program continues, or the end of a text that ends too early.
    Syntax(Place),
    /// A name without a declaration.
    Unknown(Place),
    /// A declaration of a name that was declared earlier in its scope.
    Twice(Place),
    /// A name of another kind than its use needs, or the length 0 of an array.
    Kind(Place),
    /// A thread with another number of parameters than it is given arguments.
    Arguments(Place),
    /// Memory ran out.
    Memory,
}

/// Why a text isn't a program.
#[derive(Clone, Copy, Debug, PartialEq, Eq)]
pub enum TextFault {
    /// The text has no tokens.
    Lex(LexFault),
    /// The tokens of the text aren't a program.
    Parse(ParseFault),
}

/// What is wrong, and at which line and column; or how many there are, and the limit.
impl fmt::Display for ParseFault {
    ghost use Rattle.std.specs.Prelude.{Some};
    ghost use Rattle.tc_parser.specs.Faults.{parse_fault_text};

    ghost output = { λ f. Some (parse_fault_text f) };

    fn fmt<W: fmt::Write>(&self, f: &mut fmt::Formatter<W>) -> fmt::Result {
        match self {
            ParseFault::Count(what, count) => {
                let (name, limit) = (what.name(), what.limit());
                write!(f, "{name} {count} of {limit}")
            }
            ParseFault::Syntax(Place { line, col }) => write!(f, "Syntax at {line}:{col}"),
            ParseFault::Unknown(Place { line, col }) => write!(f, "Unknown at {line}:{col}"),
            ParseFault::Twice(Place { line, col }) => write!(f, "Twice at {line}:{col}"),
            ParseFault::Kind(Place { line, col }) => write!(f, "Kind at {line}:{col}"),
            ParseFault::Arguments(Place { line, col }) => write!(f, "Arguments at {line}:{col}"),
            ParseFault::Memory => write!(f, "no memory"),
        }
    }
}

impl Error for ParseFault {}

/// What is wrong, and at which line and column; or how many there are, and the limit.
impl fmt::Display for TextFault {
    ghost use Rattle.std.specs.Prelude.{Some};
    ghost use Rattle.tc_parser.specs.Faults.{text_fault_text};

    ghost output = { λ f. Some (text_fault_text f) };

    fn fmt<W: fmt::Write>(&self, f: &mut fmt::Formatter<W>) -> fmt::Result {
        match self {
            TextFault::Lex(fault) => write!(f, "{fault}"),
            TextFault::Parse(fault) => write!(f, "{fault}"),
        }
    }
}

impl Error for TextFault {}

impl From<NameFault> for ParseFault {
    ghost use Rattle.tc_parser.specs.helpers.Parts.{fault_of};

    ghost from_gives = { λ fault result. result ≡ fault_of fault };

    fn from(fault: NameFault) -> Self {
        match fault {
            NameFault::Unknown(place) => ParseFault::Unknown(place),
            NameFault::Twice(place) => ParseFault::Twice(place),
            NameFault::Kind(place) => ParseFault::Kind(place),
            NameFault::Arguments(place) => ParseFault::Arguments(place),
            NameFault::Memory => ParseFault::Memory,
        }
    }
}

impl From<AllocError> for ParseFault {
    ghost use Rattle.tc_parser.specs.declared.fault.ParseFault.TheVariants.{Memory};

    ghost from_gives = { λ _ fault. fault ≡ Memory };

    fn from(_error: AllocError) -> Self {
        ParseFault::Memory
    }
}
