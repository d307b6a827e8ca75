//! Reads expressions.
ghost use Rattle.std.specs.Prelude.{◌≡◌, ◌+◌, ◌<◌, ◌≤◌, ◌∷◌, [], MatchResult, MatchOption};
ghost use Rattle.tc_lexer.specs.declared.token.Sign.TheVariants as sign;
ghost use Rattle.tc_tree.specs.Grammar.{binary_sign, unary_sign, expression_then, list_then, IsGrouped, AreGrouped};
ghost use Rattle.tc_tree.specs.declared.word.Word.TheVariants.{Sign as ASign, Name as AName};
ghost use Rattle.tc_tree.specs.Grammar as grammar;
ghost use Rattle.tc_syntax.specs.helpers.Reading.{Just, Operand, Operators, Subscript, Arguments, next_level};
ghost use Rattle.tc_syntax.specs.helpers.Reading as reading;
ghost use Rattle.tc_syntax.specs.helpers.Read.{Stops, IsRead, IsTight, IsOperand};

use crate::reader::{Read, Stop, past};
use int_ops::UnOp;
use std::alloc::Global;
use tc_lexer::Sign;
use tc_tree::{Expression, Name, Operator, Word};

/// The longest expression at the front, and the words after it.
#[cycle(expression)]
pub(crate) fn read_expression<'w>(alloc: Global, words: &'w [Word]) -> Read<'w, Expression>
    ensures { MatchResult result
        (λ x. IsRead expression_then IsGrouped [] (Operand ∷ Operators ∷ []) words.now x.0 x.1.now)
        (λ stop. Stops (Operand ∷ Operators ∷ []) words.now stop) }
{
    let (expression, rest) = read_tight(alloc, words, 1)?;
    Ok((expression, rest))
}

/// The longest expression whose operators bind at least this tightly, and the words after it.
#[cycle(expression)]
fn read_tight<'w>(alloc: Global, words: &'w [Word], least: u8) -> Read<'w, Expression>
    requires least { (1 ≤ least) × (least ≤ 11) }
    ensures { MatchResult result
        (λ x. IsTight least words.now x.0 x.1.now)
        (λ stop. Stops (Operand ∷ Operators ∷ []) words.now stop) }
{
    let (mut left, mut rest) = read_operand(alloc, words)?;
    while let Some((operator, after)) = next_operator(rest, least) {
        let (right, after) = read_tight(alloc, after, level(operator) + 1)?;
        left = Expression::binary(alloc, operator, left, right)?;
        rest = after;
    }
    Ok((left, rest))
}

/// An operand of an operator, and the words after it.
#[cycle(expression)]
fn read_operand<'w>(alloc: Global, words: &'w [Word]) -> Read<'w, Expression>
    ensures { MatchResult result
        (λ x. IsOperand [] (Operand ∷ []) words.now x.0 x.1.now)
        (λ stop. Stops (Operand ∷ []) words.now stop) }
{
    match words {
        [Word::Number(number), rest @ ..] => Ok((Expression::number(*number), rest)),
        [Word::Name(name), rest @ ..] => read_variable(alloc, *name, rest),
        [Word::Sign(Sign::OpenParen), start @ ..] => read_paren(alloc, start),
        [Word::Sign(Sign::Minus), start @ ..] => read_unary(alloc, UnOp::Neg, start),
        [Word::Sign(Sign::Bang), start @ ..] => read_unary(alloc, UnOp::Not, start),
        [Word::Sign(Sign::Tilde), start @ ..] => read_unary(alloc, UnOp::Inv, start),
        _ => Err(Stop::Left(words.len())),
    }
}

/// A variable or an element of an array, after the name, and the words after it.
#[cycle(expression)]
fn read_variable<'w>(alloc: Global, name: Name, words: &'w [Word]) -> Read<'w, Expression>
    ensures { MatchResult result
        (λ x. IsOperand (AName name ∷ []) (Subscript ∷ []) words.now x.0 x.1.now)
        (λ stop. Stops (Subscript ∷ []) words.now stop) }
{
    if let Ok(start) = past(words, Sign::OpenBracket) {
        let (index, end) = read_expression(alloc, start)?;
        let rest = past(end, Sign::CloseBracket)?;
        Ok((Expression::element(alloc, name, index)?, rest))
    } else {
        Ok((Expression::variable(name), words))
    }
}

/// An expression in parentheses, after the opening one, and the words after it.
#[cycle(expression)]
fn read_paren<'w>(alloc: Global, words: &'w [Word]) -> Read<'w, Expression>
    ensures { MatchResult result
        (λ x. IsOperand (ASign sign.OpenParen ∷ []) (Operand ∷ Operators ∷ Just sign.CloseParen ∷ []) words.now x.0 x.1.now)
        (λ stop. Stops (Operand ∷ Operators ∷ Just sign.CloseParen ∷ []) words.now stop) }
{
    let (inside, end) = read_expression(alloc, words)?;
    let rest = past(end, Sign::CloseParen)?;
    Ok((Expression::paren(alloc, inside)?, rest))
}

/// The operand of a prefix operator, and the words after it.
#[cycle(expression)]
fn read_unary<'w>(alloc: Global, operator: UnOp, words: &'w [Word]) -> Read<'w, Expression>
    ensures { MatchResult result
        (λ x. IsOperand (ASign (unary_sign operator) ∷ []) (Operand ∷ []) words.now x.0 x.1.now)
        (λ stop. Stops (Operand ∷ []) words.now stop) }
{
    let (operand, rest) = read_operand(alloc, words)?;
    Ok((Expression::unary(alloc, operator, operand)?, rest))
}

/// The expressions of an argument list, and the words after its closing parenthesis.
pub(crate) fn read_arguments<'w>(alloc: Global, words: &'w [Word]) -> Read<'w, Vec<Expression>>
    ensures { MatchResult result
        (λ x. IsRead (λ es rest. list_then es (ASign sign.CloseParen ∷ rest)) AreGrouped [] (Arguments ∷ Just sign.CloseParen ∷ []) words.now
        x.0.items x.1.now)
        (λ stop. Stops (Arguments ∷ Just sign.CloseParen ∷ []) words.now stop) }
{
    let mut found = Vec::new(alloc);
    if let Ok(rest) = past(words, Sign::CloseParen) {
        return Ok((found, rest));
    }
    let (first, mut rest) = read_expression(alloc, words)?;
    found.push(first)?;
    while let Ok(start) = past(rest, Sign::Comma) {
        let (argument, after) = read_expression(alloc, start)?;
        found.push(argument)?;
        rest = after;
    }
    let rest = past(rest, Sign::CloseParen)?;
    Ok((found, rest))
}

/// The next operator, if it binds at least this tightly, and the words after it.
fn next_operator<'w>(words: &'w [Word], least: u8) -> Option<(Operator, &'w [Word])>
    requires { 1 ≤ least }
    ensures { MatchOption result (next_level words.now < least)
        (λ x. (words.now ≡ ASign (binary_sign x.0) ∷ x.1.now) × (least ≤ grammar.level x.0)) }
{
    let [Word::Sign(sign), rest @ ..] = words else {
        return None;
    };
    match operator_of(*sign) {
        Some(operator) if least <= level(operator) => Some((operator, rest)),
        _ => None,
    }
}

/// The operator that the sign means between two operands.
fn operator_of(sign: Sign) -> Option<Operator>
    ensures { result ≡ reading.operator_of sign }
{
    match sign {
        Sign::Star => Some(Operator::Multiply),
        Sign::Slash => Some(Operator::Divide),
        Sign::Percent => Some(Operator::Remainder),
        Sign::Plus => Some(Operator::Add),
        Sign::Minus => Some(Operator::Subtract),
        Sign::ShiftLeft => Some(Operator::ShiftLeft),
        Sign::ShiftRight => Some(Operator::ShiftRight),
        Sign::Less => Some(Operator::Less),
        Sign::LessEqual => Some(Operator::LessOrEqual),
        Sign::Greater => Some(Operator::Greater),
        Sign::GreaterEqual => Some(Operator::GreaterOrEqual),
        Sign::EqualEqual => Some(Operator::Equal),
        Sign::BangEqual => Some(Operator::Unequal),
        Sign::And => Some(Operator::BitAnd),
        Sign::Caret => Some(Operator::BitXor),
        Sign::Or => Some(Operator::BitOr),
        Sign::AndAnd => Some(Operator::And),
        Sign::OrOr => Some(Operator::Or),
        _ => None,
    }
}

/// How tightly the operator binds, as in C.
fn level(operator: Operator) -> u8
    ensures { result ≡ grammar.level operator }
{
    match operator {
        Operator::Multiply | Operator::Divide | Operator::Remainder => 10,
        Operator::Add | Operator::Subtract => 9,
        Operator::ShiftLeft | Operator::ShiftRight => 8,
        Operator::Less | Operator::LessOrEqual | Operator::Greater | Operator::GreaterOrEqual => 7,
        Operator::Equal | Operator::Unequal => 6,
        Operator::BitAnd => 5,
        Operator::BitXor => 4,
        Operator::BitOr => 3,
        Operator::And => 2,
        Operator::Or => 1,
    }
}
