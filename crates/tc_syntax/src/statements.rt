//! Reads statements.
ghost use Rattle.std.specs.Prelude.{◌≡◌, ◌<◌, ◌≤◌, ◌∷◌, ◌++◌, [], true, MatchResult};
ghost use Rattle.int_ops.specs.Updates.{operands_of};
ghost use Rattle.tc_lexer.specs.declared.token.Keyword.TheVariants as keyword;
ghost use Rattle.tc_lexer.specs.declared.token.Sign.TheVariants as sign;
ghost use Rattle.tc_tree.specs.Grammar.{expression_then, index_then, others_then, IsGrouped, target_by, kind_of, IsGroupedIndex, AreGrouped, statement_then, statements_then, otherwise_then, IsWell, AreWell, IsWellOtherwise};
ghost use Rattle.tc_tree.specs.declared.word.Word.TheVariants.{
  Sign as ASign,
  Name as AName,
  Keyword as AKeyword,
  If as AnIf,
  While as AWhile,
  Action as AnAction,
  Wait as AWait,
  Barrier as ABarrier,
  Assert as AnAssert,
  Update as AnUpdate,
};
ghost use Rattle.tc_tree.specs.Seen.{statement_of, block_of, branch_of};
ghost use Rattle.tc_syntax.specs.helpers.Reading.{Just, AnyName, Operand, Operators, Arguments, Statements, AfterName, AfterAssign, Alternative, End, guarded, an_index, operands, an_update};
ghost use Rattle.tc_tree.specs.helpers.Parts.{statements_seen, otherwise_seen};
ghost use Rattle.tc_syntax.specs.helpers.Read.{Stops, IsRead, IsStatement, block_then, branch_then, IsWellBlock, IsWellBranch};
ghost use Rattle.tc_syntax.specs.helpers.Read as reads;

use crate::expressions::{read_arguments, read_expression};
use crate::reader::{Read, Stop, past, past_end, past_if, past_keyword, past_name, past_update};
use int_ops::Update;
use std::alloc::Global;
use tc_lexer::{Keyword, Place, Sign};
use tc_tree::{
    Action, Barrier, Block, Branch, Expression, Name, Statement, Target, UpdateKind, Word,
};

/// What follows the first branch of an `if`.
type Otherwise = (Vec<Branch>, Option<Block>);

/// As many statements as there are, and the words after them.
#[cycle(statements)]
pub(crate) fn read_statements<'w>(alloc: Global, words: &'w [Word]) -> Read<'w, Vec<Statement>>
    ensures { MatchResult result
        (λ x. IsRead statements_then AreWell [] (Statements ∷ []) words.now (statements_seen x.0.items) x.1.now)
        (λ stop. Stops (Statements ∷ []) words.now stop) }
{
    let mut found = Vec::new(alloc);
    let mut rest = words;
    while begins_statement(rest) {
        let (statement, after) = read_statement(alloc, rest)?;
        found.push(statement)?;
        rest = after;
    }
    Ok((found, rest))
}

/// Whether a statement is next.
fn begins_statement(words: &[Word]) -> bool
    ensures { result ≡ reads.begins_statement words.now }
{
    matches!(
        words,
        [
            Word::Name(_)
                | Word::If(_)
                | Word::While(_)
                | Word::Action(_, _)
                | Word::Wait(_)
                | Word::Barrier(_, _)
                | Word::Assert(_),
            ..
        ]
    )
}

/// A statement, and the words after it.
#[cycle(statements)]
fn read_statement<'w>(alloc: Global, words: &'w [Word]) -> Read<'w, Statement>
    requires { reads.begins_statement words.now ≡ true }
    ensures { MatchResult result
        (λ x. IsStatement words.now (statement_of x.0) x.1.now)
        (λ stop. Stops (Statements ∷ []) words.now stop) }
{
    match words {
        [Word::Name(name), after @ ..] => read_named(alloc, *name, after),
        [Word::If(place), after @ ..] => read_if(alloc, *place, after),
        [Word::While(place), after @ ..] => read_while(alloc, *place, after),
        [Word::Action(action, place), after @ ..] => read_action(*action, *place, after),
        [Word::Wait(place), after @ ..] => read_wait(*place, after),
        [Word::Barrier(barrier, place), after @ ..] => read_barrier(*barrier, *place, after),
        [Word::Assert(place), after @ ..] => read_assert(alloc, *place, after),
        _ => Err(Stop::Left(words.len())),
    }
}

/// The rest of a statement that begins with a name, and the words after it.
fn read_named<'w>(alloc: Global, name: Name, words: &'w [Word]) -> Read<'w, Statement>
    ensures { MatchResult result
        (λ x. IsRead statement_then IsWell (AName name ∷ []) (AfterName ∷ []) words.now (statement_of x.0) x.1.now)
        (λ stop. Stops (AfterName ∷ []) words.now stop) }
{
    if let Ok(start) = past(words, Sign::OpenBracket) {
        read_store(alloc, name, start)
    } else {
        let start = past(words, Sign::Assign)?;
        read_assigned(alloc, name, start)
    }
}

/// `a[i] = e;`, after the opening bracket, and the words after it.
fn read_store<'w>(alloc: Global, array: Name, words: &'w [Word]) -> Read<'w, Statement>
    ensures { MatchResult result
        (λ x. IsRead statement_then IsWell (AName array ∷ ASign sign.OpenBracket ∷ [])
        (Operand ∷ Operators ∷ Just sign.CloseBracket ∷ Just sign.Assign ∷ Operand ∷ Operators ∷ Just sign.Semicolon ∷ []) words.now
        (statement_of x.0) x.1.now)
        (λ stop. Stops (Operand ∷ Operators ∷ Just sign.CloseBracket ∷ Just sign.Assign ∷ Operand ∷ Operators ∷ Just sign.Semicolon ∷ []) words.now stop) }
{
    let (index, end) = read_expression(alloc, words)?;
    let after = past(end, Sign::CloseBracket)?;
    let start = past(after, Sign::Assign)?;
    let (value, end) = read_expression(alloc, start)?;
    let rest = past(end, Sign::Semicolon)?;
    Ok((Statement::Store(array, index, value), rest))
}

/// Reads what a name is assigned, after the `=`; the words after it are left.
fn read_assigned<'w>(alloc: Global, name: Name, words: &'w [Word]) -> Read<'w, Statement>
    ensures { MatchResult result
        (λ x. IsRead statement_then IsWell (AName name ∷ ASign sign.Assign ∷ []) (AfterAssign ∷ []) words.now (statement_of x.0) x.1.now)
        (λ stop. Stops (AfterAssign ∷ []) words.now stop) }
{
    if let Some(start) = past_keyword(words, Keyword::Create) {
        read_create(alloc, name, start)
    } else if let Some(((kind, target), start)) = past_update(words) {
        read_update(alloc, name, kind, target, start)
    } else {
        let (value, end) = read_expression(alloc, words)?;
        let rest = past(end, Sign::Semicolon)?;
        Ok((Statement::Assign(name, value), rest))
    }
}

/// A thread's name and its arguments, and the words after them.
fn read_create<'w>(alloc: Global, handle: Name, words: &'w [Word]) -> Read<'w, Statement>
    ensures { MatchResult result
        (λ x. IsRead statement_then IsWell (AName handle ∷ ASign sign.Assign ∷ AKeyword keyword.Create ∷ [])
        (AnyName ∷ Just sign.OpenParen ∷ Arguments ∷ Just sign.CloseParen ∷ Just sign.Semicolon ∷ []) words.now (statement_of x.0) x.1.now)
        (λ stop. Stops (AnyName ∷ Just sign.OpenParen ∷ Arguments ∷ Just sign.CloseParen ∷ Just sign.Semicolon ∷ []) words.now stop) }
{
    let (thread, after) = past_name(words)?;
    let start = past(after, Sign::OpenParen)?;
    let (arguments, end) = read_arguments(alloc, start)?;
    let rest = past(end, Sign::Semicolon)?;
    Ok((Statement::Create(handle, thread, arguments), rest))
}

/// The parts of an update, and the words after them.
fn read_update<'w>(
    alloc: Global,
    local: Name,
    kind: UpdateKind,
    target: Target,
    words: &'w [Word],
) -> Read<'w, Statement>
    ensures { MatchResult result
        (λ x. IsRead statement_then IsWell (AName local ∷ ASign sign.Assign ∷ AnUpdate kind target ∷ []) (an_update kind target) words.now
        (statement_of x.0) x.1.now)
        (λ stop. Stops (an_update kind target) words.now stop) }
{
    let start = past(words, Sign::OpenParen)?;
    let (global, after) = past_name(start)?;
    let (index, after) = read_index(alloc, target, after)?;
    let (update, end) = read_operands(alloc, kind, after)?;
    let end = past(end, Sign::CloseParen)?;
    let rest = past(end, Sign::Semicolon)?;
    Ok((Statement::Modify(local, global, index, update), rest))
}

/// The index of an update, if it is of an element, and the words after it.
fn read_index<'w>(alloc: Global, target: Target, words: &'w [Word]) -> Read<'w, Option<Expression>>
    ensures { MatchResult result
        (λ x. IsRead index_then (λ i. IsGroupedIndex i × (target_by i ≡ target)) [] (an_index target []) words.now x.0 x.1.now)
        (λ stop. Stops (an_index target []) words.now stop) }
{
    match target {
        Target::Cell => Ok((None, words)),
        Target::Element => {
            let start = past(words, Sign::OpenBracket)?;
            let (index, end) = read_expression(alloc, start)?;
            let rest = past(end, Sign::CloseBracket)?;
            Ok((Some(index), rest))
        }
    }
}

/// The operands of an update, and the words after them.
fn read_operands<'w>(
    alloc: Global,
    kind: UpdateKind,
    words: &'w [Word],
) -> Read<'w, Update<Expression>>
    ensures { MatchResult result
        (λ x. IsRead (λ u rest. others_then (operands_of u) rest) (λ u. AreGrouped (operands_of u) × (kind_of u ≡ kind)) [] (operands kind [])
        words.now x.0 x.1.now)
        (λ stop. Stops (operands kind []) words.now stop) }
{
    let (first, rest) = read_operand(alloc, words)?;
    match kind {
        UpdateKind::Swap => Ok((Update::Swap(first), rest)),
        UpdateKind::Add => Ok((Update::Add(first), rest)),
        UpdateKind::Cas => {
            let (second, rest) = read_operand(alloc, rest)?;
            Ok((Update::Cas(first, second), rest))
        }
    }
}

/// A comma and an expression, and the words after them.
fn read_operand<'w>(alloc: Global, words: &'w [Word]) -> Read<'w, Expression>
    ensures { MatchResult result
        (λ x. IsRead (λ e rest. ASign sign.Comma ∷ expression_then e rest) IsGrouped [] (Just sign.Comma ∷ Operand ∷ Operators ∷ []) words.now x.0 x.1.now)
        (λ stop. Stops (Just sign.Comma ∷ Operand ∷ Operators ∷ []) words.now stop) }
{
    let start = past(words, Sign::Comma)?;
    read_expression(alloc, start)
}

/// The one name of a statement, and the words after it.
fn read_action<'w>(action: Action, place: Place, words: &'w [Word]) -> Read<'w, Statement>
    ensures { MatchResult result
        (λ x. IsRead statement_then IsWell (AnAction action place ∷ [])
        (Just sign.OpenParen ∷ AnyName ∷ Just sign.CloseParen ∷ Just sign.Semicolon ∷ []) words.now (statement_of x.0) x.1.now)
        (λ stop. Stops (Just sign.OpenParen ∷ AnyName ∷ Just sign.CloseParen ∷ Just sign.Semicolon ∷ []) words.now stop) }
{
    let start = past(words, Sign::OpenParen)?;
    let (name, end) = past_name(start)?;
    let end = past(end, Sign::CloseParen)?;
    let rest = past(end, Sign::Semicolon)?;
    Ok((Statement::Act(place, action, name), rest))
}

/// The names of a `wait`, and the words after them.
fn read_wait<'w>(place: Place, words: &'w [Word]) -> Read<'w, Statement>
    ensures { MatchResult result
        (λ x. IsRead statement_then IsWell (AWait place ∷ [])
        (Just sign.OpenParen ∷ AnyName ∷ Just sign.Comma ∷ AnyName ∷ Just sign.CloseParen ∷ Just sign.Semicolon ∷ []) words.now (statement_of x.0) x.1.now)
        (λ stop. Stops (Just sign.OpenParen ∷ AnyName ∷ Just sign.Comma ∷ AnyName ∷ Just sign.CloseParen ∷ Just sign.Semicolon ∷ []) words.now stop) }
{
    let start = past(words, Sign::OpenParen)?;
    let (condition, after) = past_name(start)?;
    let start = past(after, Sign::Comma)?;
    let (mutex, end) = past_name(start)?;
    let end = past(end, Sign::CloseParen)?;
    let rest = past(end, Sign::Semicolon)?;
    Ok((Statement::Wait(place, condition, mutex), rest))
}

/// The rest of a `fence` or `stbar`, and the words after it.
fn read_barrier<'w>(barrier: Barrier, place: Place, words: &'w [Word]) -> Read<'w, Statement>
    ensures { MatchResult result
        (λ x. IsRead statement_then IsWell (ABarrier barrier place ∷ []) (Just sign.OpenParen ∷ Just sign.CloseParen ∷ Just sign.Semicolon ∷ [])
        words.now (statement_of x.0) x.1.now)
        (λ stop. Stops (Just sign.OpenParen ∷ Just sign.CloseParen ∷ Just sign.Semicolon ∷ []) words.now stop) }
{
    let start = past(words, Sign::OpenParen)?;
    let end = past(start, Sign::CloseParen)?;
    let rest = past(end, Sign::Semicolon)?;
    Ok((Statement::Order(place, barrier), rest))
}

/// The condition of an `assert`, and the words after it.
fn read_assert<'w>(alloc: Global, place: Place, words: &'w [Word]) -> Read<'w, Statement>
    ensures { MatchResult result
        (λ x. IsRead statement_then IsWell (AnAssert place ∷ [])
        (Just sign.OpenParen ∷ Operand ∷ Operators ∷ Just sign.CloseParen ∷ Just sign.Semicolon ∷ []) words.now (statement_of x.0) x.1.now)
        (λ stop. Stops (Just sign.OpenParen ∷ Operand ∷ Operators ∷ Just sign.CloseParen ∷ Just sign.Semicolon ∷ []) words.now stop) }
{
    let start = past(words, Sign::OpenParen)?;
    let (condition, end) = read_expression(alloc, start)?;
    let end = past(end, Sign::CloseParen)?;
    let rest = past(end, Sign::Semicolon)?;
    Ok((Statement::Assert(place, condition), rest))
}

/// The condition and the body of a loop, and the words after them.
#[cycle(statements)]
fn read_while<'w>(alloc: Global, place: Place, words: &'w [Word]) -> Read<'w, Statement>
    ensures { MatchResult result
        (λ x. IsRead statement_then IsWell (AWhile place ∷ []) guarded words.now (statement_of x.0) x.1.now)
        (λ stop. Stops guarded words.now stop) }
{
    let (branch, rest) = read_branch(alloc, place, words)?;
    Ok((Statement::While(branch), rest))
}

/// The branches of an `if`, and the words after them.
#[cycle(statements)]
fn read_if<'w>(alloc: Global, place: Place, words: &'w [Word]) -> Read<'w, Statement>
    ensures { MatchResult result
        (λ x. IsRead statement_then IsWell (AnIf place ∷ []) (guarded ++ Alternative ∷ []) words.now (statement_of x.0) x.1.now)
        (λ stop. Stops (guarded ++ Alternative ∷ []) words.now stop) }
{
    let (branch, end) = read_branch(alloc, place, words)?;
    let ((others, last), rest) = read_otherwise(alloc, end)?;
    Ok((Statement::If(branch, others, last), rest))
}

/// As many branches after the first as there are, and the words after them.
#[cycle(statements)]
fn read_otherwise<'w>(alloc: Global, words: &'w [Word]) -> Read<'w, Otherwise>
    ensures { MatchResult result
        (λ x. IsRead otherwise_then IsWellOtherwise [] (Alternative ∷ []) words.now (otherwise_seen x.0.0.items x.0.1) x.1.now)
        (λ stop. Stops (Alternative ∷ []) words.now stop) }
{
    let mut others = Vec::new(alloc);
    let mut rest = words;
    while let Some(after) = past_keyword(rest, Keyword::Else) {
        if let Some((place, start)) = past_if(after) {
            let (branch, end) = read_branch(alloc, place, start)?;
            others.push(branch)?;
            rest = end;
        } else {
            let (block, rest) = read_block(alloc, after)?;
            return Ok(((others, Some(block)), rest));
        }
    }
    Ok(((others, None), rest))
}

/// A condition in parentheses and a block, and the words after them.
#[cycle(statements)]
fn read_branch<'w>(alloc: Global, place: Place, words: &'w [Word]) -> Read<'w, Branch>
    ensures { MatchResult result
        (λ x. IsRead branch_then (IsWellBranch place) [] guarded words.now (branch_of x.0) x.1.now)
        (λ stop. Stops guarded words.now stop) }
{
    let start = past(words, Sign::OpenParen)?;
    let (condition, end) = read_expression(alloc, start)?;
    let start = past(end, Sign::CloseParen)?;
    let (body, rest) = read_block(alloc, start)?;
    Ok((
        Branch {
            place,
            condition,
            body,
        },
        rest,
    ))
}

/// Statements in braces, and the words after them.
#[cycle(statements)]
fn read_block<'w>(alloc: Global, words: &'w [Word]) -> Read<'w, Block>
    ensures { MatchResult result
        (λ x. IsRead block_then IsWellBlock [] (Just sign.OpenBrace ∷ Statements ∷ End ∷ []) words.now (block_of x.0) x.1.now)
        (λ stop. Stops (Just sign.OpenBrace ∷ Statements ∷ End ∷ []) words.now stop) }
{
    let start = past(words, Sign::OpenBrace)?;
    let (statements, last) = read_statements(alloc, start)?;
    let (end, rest) = past_end(last)?;
    Ok((Block { statements, end }, rest))
}
