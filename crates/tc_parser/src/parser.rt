//! From a text to its tree.
ghost use Rattle.std.specs.Prelude.{◌≡◌, ◌≢◌, ◌≤◌, length, IfOk, IfErr, MatchResult};
ghost use Rattle.tc_limits.specs.declared.limits.TheConstants.{PROGRAM_BYTES};
ghost use Rattle.tc_lexer.specs.Text.{AreTokens};
ghost use Rattle.tc_lexer.specs.declared.fault.LexFault.TheVariants as lex_fault;
ghost use Rattle.tc_tree.specs.Grammar.{IsSpelled};
ghost use Rattle.tc_tree.specs.Seen.{program_of};
ghost use Rattle.tc_tree.specs.Words.{words_of};
ghost use Rattle.tc_parser.specs.declared.fault.ParseFault.TheVariants as parse_fault;
ghost use Rattle.tc_parser.specs.declared.fault.TextFault.TheVariants as text_fault;
ghost use Rattle.tc_parser.specs.Programs.{place_at, IsProgram, IsProgramFault, IsTextFault};
ghost use Rattle.tc_parser.specs.helpers.Parts.{IsReadFault};

use crate::counts::{check_globals, check_tokens};
use crate::fault::{ParseFault, TextFault};
use std::alloc::Global;
use tc_lexer::{Place, Token, Tokens, lex, place_after};
use tc_names::check_names;
use tc_syntax::{Stop, read_program};
use tc_tree::{Program, Tree, words_of};

/// The program that the tokens of a text spell.
///
/// The text has exactly one tree or one fault, so only one answer is right, except that memory may
/// run out. Look-ups of names aside, the time grows linearly with the text. Brackets and stretches
/// are counted before the tree is read, which bounds how deep the reader's calls nest.
pub fn parse<'a>(alloc: Global, text: &'a [u8], tokens: &Tokens) -> Result<Tree<'a>, ParseFault>
    requires size { length text.now ≤ PROGRAM_BYTES }
    requires tokens { AreTokens 4 text.now tokens.now }
    ensures found { IfOk result (λ tree. (tree.text.now ≡ text.now) × IsProgram 4 text.now (program_of tree.program)) }
    ensures refused { IfErr result (λ fault. fault ≢ parse_fault.Memory → IsProgramFault 4 text.now fault) }
{
    let tokens = tokens.as_slice();
    check_tokens(tokens)?;
    let program = read_tree(alloc, text, tokens)?;
    let tree = Tree { text, program };
    check_names(alloc, &tree)?;
    check_globals(tree.program.globals.as_slice())?;
    Ok(tree)
}

/// The tree of some tokens; its names aren't checked.
fn read_tree(alloc: Global, text: &[u8], tokens: &[Token]) -> Result<Program, ParseFault>
    requires { length text.now ≤ PROGRAM_BYTES }
    ensures { MatchResult result
        (λ program. IsSpelled 4 (words_of 4 text.now tokens.now) (program_of program))
        (IsReadFault text.now tokens.now) }
{
    let words = words_of(alloc, text, tokens)?;
    match read_program(alloc, words.as_slice()) {
        Ok(program) => Ok(program),
        Err(Stop::Memory) => Err(ParseFault::Memory),
        Err(Stop::Left(left)) => {
            let place = place_at(text, tokens, tokens.len() - left);
            Err(ParseFault::Syntax(place))
        }
    }
}

/// The place of the k-th token, or of the end of the text.
fn place_at(text: &[u8], tokens: &[Token], k: usize) -> Place
    requires { length text.now ≤ PROGRAM_BYTES }
    ensures { result ≡ place_at text.now tokens.now k }
{
    match tokens.get(k) {
        Some(token) => token.place,
        None => place_after(text),
    }
}

/// The program of a text.
///
/// A text is a program or has exactly one fault, so only one answer is right, except that memory
/// may run out.
pub fn read<'a>(alloc: Global, text: &'a [u8]) -> Result<Tree<'a>, TextFault>
    requires { length text.now ≤ PROGRAM_BYTES }
    ensures found { IfOk result (λ tree. (tree.text.now ≡ text.now) × IsProgram 4 text.now (program_of tree.program)) }
    ensures refused { IfErr result (λ fault.
        fault ≢ text_fault.Lex lex_fault.Memory → fault ≢ text_fault.Parse parse_fault.Memory → IsTextFault 4 text.now fault) }
{
    let tokens = lex(alloc, text).map_err(TextFault::Lex)?;
    parse(alloc, text, &tokens).map_err(TextFault::Parse)
}
