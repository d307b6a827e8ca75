//! Texts of programs: tokens, places, faults and trees.
ghost use Rattle.std.specs.Prelude.{◌≤◌, length, IfOk};
ghost use Rattle.tc_limits.specs.declared.limits.TheConstants.{PROGRAM_BYTES};

use anyhow::{Result, bail};
use int_ops::UnOp;
use std::alloc::{AllocError, Global};
use std::str;
use tc_code::Code;
use tc_compile::compile;
use tc_lexer::{Place, Token, TokenKind, lex, place_after};
use tc_limits::limits::PROGRAM_BYTES;
use tc_parser::read;
use tc_tree::{Expression, Node, Operator, Statement};
use test_table::given::Given;

/// A text that isn't longer than a program may be.
fn within(source: &[u8]) -> Result<&[u8]>
    ensures { IfOk result (λ text. length text.now ≤ PROGRAM_BYTES) }
{
    if source.len() as u64 > PROGRAM_BYTES {
        bail!("a text that is too long");
    }
    Ok(source)
}

/// Whether a text is the spelling of a token of this kind.
fn is_spelling(alloc: Global, kind: TokenKind, text: &str) -> Result<bool, AllocError> {
    Ok(match kind {
        TokenKind::Name => true,
        TokenKind::Number(number) => format!(in alloc; "{number}")?.as_str() == text,
        TokenKind::Keyword(keyword) => keyword.text() == text.as_bytes(),
        TokenKind::Sign(sign) => sign.text() == text.as_bytes(),
    })
}

/// What stands around a token to show its kind.
fn marks_of(kind: TokenKind) -> (&'static str, &'static str) {
    match kind {
        TokenKind::Name => ("", ""),
        TokenKind::Number(_) => ("#", ""),
        TokenKind::Keyword(_) => ("\"", "\""),
        TokenKind::Sign(_) => ("`", "`"),
    }
}

/// Adds a token with its place; quotes or backquotes around it show its kind.
fn push_seen(shown: &mut String, token: &Token, source: &[u8]) -> Result<()> {
    let Some(bytes) = source.get(token.start..token.end) else {
        bail!("a token outside of the text");
    };
    let text = str::from_utf8(bytes)?;
    if !is_spelling(*shown.allocator(), token.kind, text)? {
        bail!("a token of another text");
    }
    let comma = if shown.is_empty() { "" } else { ", " };
    let (before, after) = marks_of(token.kind);
    let Place { line, col } = token.place;
    Ok(write!(shown, "{comma}{before}{text}{after} {line}:{col}")?)
}

/// The tokens of a text, or its fault.
pub(crate) fn tokens(alloc: Global, source: &[u8]) -> Result<String> {
    let tokens = match lex(alloc, within(source)?) {
        Ok(tokens) => tokens,
        Err(fault) => return Ok(format!(in alloc; "{fault}")?),
    };
    let shown = all_seen(alloc, tokens.as_slice(), source)?;
    let count = tokens.as_slice().len();
    if tokens.into_vec().len() != count {
        bail!("other tokens");
    }
    Ok(shown)
}

fn all_seen(alloc: Global, tokens: &[Token], source: &[u8]) -> Result<String> {
    if tokens.is_empty() {
        return Ok(String::from_str(alloc, "none")?);
    }
    let mut shown = String::new(alloc);
    for token in tokens {
        push_seen(&mut shown, token, source)?;
    }
    Ok(shown)
}

/// The place after a text.
pub(crate) fn place(alloc: Global, source: &[u8]) -> Result<String> {
    let Place { line, col } = place_after(within(source)?);
    Ok(format!(in alloc; "{line}:{col}")?)
}

/// Whether a text is a program, or its fault.
pub(crate) fn program(alloc: Global, source: &[u8]) -> Result<String> {
    match read(alloc, within(source)?) {
        Ok(_) => Ok(String::from_str(alloc, "a program")?),
        Err(fault) => Ok(format!(in alloc; "{fault}")?),
    }
}

/// The code of a program.
pub(crate) fn code_of(alloc: Global, source: &[u8]) -> Result<Code> {
    Ok(compile(alloc, within(source)?)?)
}

fn operator_text(operator: Operator) -> &'static str {
    match operator {
        Operator::Multiply => "*",
        Operator::Divide => "/",
        Operator::Remainder => "%",
        Operator::Add => "+",
        Operator::Subtract => "-",
        Operator::ShiftLeft => "<<",
        Operator::ShiftRight => ">>",
        Operator::Less => "<",
        Operator::LessOrEqual => "<=",
        Operator::Greater => ">",
        Operator::GreaterOrEqual => ">=",
        Operator::Equal => "==",
        Operator::Unequal => "!=",
        Operator::BitAnd => "&",
        Operator::BitXor => "^",
        Operator::BitOr => "|",
        Operator::And => "&&",
        Operator::Or => "||",
    }
}

fn unary_text(operator: UnOp) -> &'static str {
    match operator {
        UnOp::Neg => "-",
        UnOp::Not => "!",
        UnOp::Inv => "~",
    }
}

/// Adds the tree of an expression, with `[..]` for parentheses of the text. Names are ASCII.
fn push_tree(text: &mut String, source: &[u8], expression: &Expression) -> Result<(), AllocError> {
    match &expression.node {
        Node::Number(number) => write!(text, "{}", number.value),
        Node::Variable(name) => write!(text, "{}", name.text(source).escape_ascii()),
        Node::Element(array, index) => {
            write!(text, "{}[", array.text(source).escape_ascii())?;
            push_tree(text, source, index)?;
            text.push(']')
        }
        Node::Paren(inside) => {
            text.push('[')?;
            push_tree(text, source, inside)?;
            text.push(']')
        }
        Node::Unary(operator, operand) => {
            write!(text, "({} ", unary_text(*operator))?;
            push_tree(text, source, operand)?;
            text.push(')')
        }
        Node::Binary(operator, left, right) => {
            text.push('(')?;
            push_tree(text, source, left)?;
            write!(text, " {} ", operator_text(*operator))?;
            push_tree(text, source, right)?;
            text.push(')')
        }
    }
}

/// A program that assigns the expression.
fn assignment(alloc: Global, expression: &str) -> Result<String, AllocError> {
    let declared = if expression.contains("a[") {
        "int a[9]; "
    } else {
        "int a; "
    };
    let ints = "int b; int c; int d; int e; int f; int g; int h; int i; int j; int k; int x; ";
    format!(in alloc; "{declared}{ints}main {{ x = {expression}; }}")
}

/// The tree of an expression over ints, and over the array `a` if it has an index.
pub(crate) fn tree(alloc: Global, given: &mut Given) -> Result<String> {
    let text = assignment(alloc, given.rest())?;
    let tree = read(alloc, within(text.as_bytes())?)?;
    match tree.program.main.block.statements.as_slice() {
        [Statement::Assign(_, value)] => {
            let mut shown = String::new(alloc);
            push_tree(&mut shown, tree.text, value)?;
            Ok(shown)
        }
        _ => bail!("no assignment"),
    }
}
