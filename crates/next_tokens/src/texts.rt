//! The tokens that are possible where a text stops being a program.
ghost use Rattle.std.specs.Prelude.{◌≡◌, ◌≤◌, length, IfOk};
ghost use Rattle.tc_lexer.specs.tc_limits.declared.limits.TheConstants.{PROGRAM_BYTES};
ghost use Rattle.tc_lexer.specs.Text.{AreTokens};
ghost use Rattle.tc_parser.specs.Programs.{IsTextFault};
ghost use Rattle.tc_parser.specs.declared.fault.TextFault.TheVariants.{Parse};
ghost use Rattle.next_tokens.specs.Texts.{Tells};
ghost use Rattle.next_tokens.specs.helpers.Searched.{IsSearched};

use crate::stuck::{Stuck, find_stuck};
use std::alloc::{AllocError, Global};
use tc_lexer::{Tokens, lex};
use tc_parser::{ParseFault, TextFault};

/// The tokens that are possible at the fault of a text, if it is a syntax fault.
pub fn stuck_of(alloc: Global, text: &[u8], fault: &TextFault) -> Result<Option<Stuck>, AllocError>
    requires size { length text.now ≤ PROGRAM_BYTES }
    requires fault { IsTextFault 4 text.now fault.now }
    ensures { IfOk result (Tells text.now fault.now) }
{
    match fault {
        TextFault::Lex(_) => Ok(None),
        TextFault::Parse(fault) => stuck_of_parse(alloc, text, fault),
    }
}

/// The same for a text that has tokens.
fn stuck_of_parse(
    alloc: Global,
    text: &[u8],
    fault: &ParseFault,
) -> Result<Option<Stuck>, AllocError>
    requires size { length text.now ≤ PROGRAM_BYTES }
    requires fault { IsTextFault 4 text.now (Parse fault.now) }
    ensures { IfOk result (Tells text.now (Parse fault.now)) }
{
    match fault {
        ParseFault::Syntax(_) => search(alloc, text),
        _ => Ok(None),
    }
}

/// Where the tokens of a text stop being a program's, if it has tokens.
fn search(alloc: Global, text: &[u8]) -> Result<Option<Stuck>, AllocError>
    requires { length text.now ≤ PROGRAM_BYTES }
    ensures { IfOk result (IsSearched text.now) }
{
    let Ok(tokens) = lex(alloc, text) else {
        return Err(AllocError);
    };
    search_tokens(alloc, text, &tokens)
}

/// Where the tokens of a text stop being a program's.
fn search_tokens(alloc: Global, text: &[u8], tokens: &Tokens) -> Result<Option<Stuck>, AllocError>
    requires { AreTokens 4 text.now tokens.now }
    ensures { IfOk result (IsSearched text.now) }
{
    find_stuck(alloc, text, tokens.as_slice())
}
