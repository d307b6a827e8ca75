//! Explains why a text isn't a program.
ghost use Rattle.std.specs.Prelude.{◌≤◌, length};
ghost use Rattle.tc_limits.specs.declared.limits.TheConstants.{PROGRAM_BYTES};

use crate::bytes::{bytes_hint, kind_of_file};
use crate::counts::{count_hint, count_token};
use crate::expected::expected_words;
use crate::habits::syntax_hint;
use crate::names::Fault;
use crate::quote::{legible, push_quote, rest_at};
use crate::source::Source;
use next_tokens::Stuck;
use std::alloc::{AllocError, Global};
use std::mem::drop;
use tc_lexer::{LexFault, Place, TokenKind, lex};
use tc_parser::{ParseFault, TextFault, What};
use tc_syntax::read_program;
use tc_tree::{Program, words_of};

/// Explains this fault of a text: the line with a caret, the token that was found, the tokens that
/// are possible there, and a hint. For a syntax fault, `stuck` says where the words stop being a
/// program's.
pub fn explain(
    alloc: Global,
    text: &[u8],
    fault: &TextFault,
    stuck: Option<&Stuck>,
) -> Result<String, AllocError>
    requires { length text.now ≤ PROGRAM_BYTES }
{
    let mut out = String::from_str(alloc, "\n")?;
    push_fault(&mut out, text, fault, stuck)?;
    Ok(out)
}

/// Adds why a text isn't a program.
fn push_fault(
    out: &mut String,
    text: &[u8],
    fault: &TextFault,
    stuck: Option<&Stuck>,
) -> Result<(), AllocError>
    requires { length text.now ≤ PROGRAM_BYTES }
{
    match fault {
        TextFault::Lex(fault) => push_lex(out, text, fault),
        TextFault::Parse(fault) => {
            let Ok(tokens) = lex(*out.allocator(), text) else {
                return Err(AllocError);
            };
            let source = Source {
                text,
                tokens: tokens.as_slice(),
            };
            push_parse(out, source, fault, stuck)
        }
    }
}

/// Explains a text that has no tokens.
fn push_lex(out: &mut String, text: &[u8], fault: &LexFault) -> Result<(), AllocError> {
    let place = match fault {
        LexFault::BadByte(place) | LexFault::Number(place) | LexFault::OpenComment(place) => *place,
        LexFault::Memory => return Err(AllocError),
    };
    let rest = rest_at(text, place);
    push_quote(out, text, place)?;
    let found = found_bytes(*out.allocator(), fault, rest)?;
    push_line(out, "found", found.as_str())?;
    push_hint(out, kind_of_file(text).or(bytes_hint(fault, rest)))
}

/// The bytes with which no token begins, in words.
fn found_bytes(alloc: Global, fault: &LexFault, rest: &[u8]) -> Result<String, AllocError> {
    let count = match fault {
        LexFault::Number(_) => word_length(rest),
        LexFault::OpenComment(_) => 2,
        _ => 1,
    };
    match rest {
        [byte @ (0..=31 | 127..=255), ..] => format!(in alloc; "a byte of value {byte}"),
        _ => {
            let word = legible(alloc, rest.get(..count).unwrap_or(rest))?;
            format!(in alloc; "`{word}`")
        }
    }
}

/// The number of letters, digits and `_` at the front.
fn word_length(rest: &[u8]) -> usize {
    rest.iter()
        .take_while(|byte| byte.is_ascii_alphanumeric() || **byte == b'_')
        .count()
}

/// Explains a text whose tokens aren't a program.
fn push_parse(
    out: &mut String,
    source: Source,
    fault: &ParseFault,
    stuck: Option<&Stuck>,
) -> Result<(), AllocError> {
    match fault {
        ParseFault::Syntax(place) => {
            push_quote(out, source.text, *place)?;
            push_stuck(out, source, stuck)
        }
        ParseFault::Count(what, _) => push_count(out, source, *what),
        ParseFault::Unknown(place)
        | ParseFault::Twice(place)
        | ParseFault::Kind(place)
        | ParseFault::Arguments(place) => {
            push_quote(out, source.text, *place)?;
            push_name(out, source, fault, *place)
        }
        ParseFault::Memory => Err(AllocError),
    }
}

/// Adds the token with which no program goes on, the tokens that are possible there, and a hint.
fn push_stuck(out: &mut String, source: Source, stuck: Option<&Stuck>) -> Result<(), AllocError> {
    let Some(stuck) = stuck else {
        return Ok(());
    };
    let found = found_token(*out.allocator(), source, stuck.place)?;
    push_line(out, "found", found.as_str())?;
    let expected = expected_words(*out.allocator(), stuck)?;
    push_line(out, "expected", expected.as_str())?;
    push_hint(
        out,
        kind_of_file(source.text).or(syntax_hint(source, stuck)),
    )
}

/// A token in words.
fn found_token(alloc: Global, source: Source, number: usize) -> Result<String, AllocError> {
    let Some(token) = source.tokens.get(number) else {
        return String::from_str(alloc, "the end of the text");
    };
    let word = source.word(number);
    match token.kind {
        TokenKind::Name => format!(in alloc; "the name `{word}`"),
        TokenKind::Number(_) => format!(in alloc; "the number {word}"),
        TokenKind::Keyword(_) | TokenKind::Sign(_) => format!(in alloc; "`{word}`"),
    }
}

/// Adds where a text passes a limit, and a hint.
fn push_count(out: &mut String, source: Source, what: What) -> Result<(), AllocError> {
    if let Some(token) = count_token(source, what) {
        push_quote(out, source.text, token.place)?;
    }
    push_hint(out, Some(count_hint(what)))
}

/// Adds what is wrong with the name at a place.
fn push_name(
    out: &mut String,
    source: Source,
    fault: &ParseFault,
    place: Place,
) -> Result<(), AllocError> {
    let alloc = *out.allocator();
    let Some(program) = program_of(alloc, source)? else {
        return Ok(());
    };
    let name = Fault::at(alloc, source, &program, place);
    drop(program);
    push_name_fault(out, &name?, fault)
}

/// Adds what is wrong with a name.
fn push_name_fault(out: &mut String, name: &Fault, fault: &ParseFault) -> Result<(), AllocError> {
    match fault {
        ParseFault::Unknown(_) => name.push_unknown(out),
        ParseFault::Twice(_) => name.push_twice(out),
        ParseFault::Kind(_) => name.push_kind(out),
        ParseFault::Arguments(_) => name.push_arguments(out),
        ParseFault::Syntax(_) | ParseFault::Count(..) | ParseFault::Memory => Ok(()),
    }
}

/// The program of these tokens, whatever its names mean; `None` if they aren't a program.
fn program_of(alloc: Global, source: Source) -> Result<Option<Program>, AllocError> {
    let words = words_of(alloc, source.text, source.tokens)?;
    match read_program(alloc, words.as_slice()) {
        Ok(program) => Ok(Some(program)),
        Err(_) => Ok(None),
    }
}

/// Adds a line: its head, a colon, its words.
fn push_line(out: &mut String, head: &str, words: &str) -> Result<(), AllocError> {
    writeln!(out, "{head}: {words}")
}

/// Adds the hint, if there is one.
fn push_hint(out: &mut String, hint: Option<&str>) -> Result<(), AllocError> {
    match hint {
        Some(hint) => push_line(out, "hint", hint),
        None => Ok(()),
    }
}
