//! Reads programs.
ghost use Rattle.std.specs.Prelude.{◌≡◌, List, ◌∷◌, [], true, MatchResult, map};
ghost use Rattle.tc_lexer.specs.declared.token.Keyword.TheVariants as keyword;
ghost use Rattle.tc_lexer.specs.declared.token.Sign.TheVariants as sign;
ghost use Rattle.tc_tree.specs.Grammar.{
  global_then,
  globals_then,
  locals_then,
  local_then,
  body_then,
  parameters_then,
  thread_then,
  threads_then,
  program_words,
  AreWellThreads,
  IsWellProgram,
  IsSpelled,
};
ghost use Rattle.tc_tree.specs.declared.word.Word.TheVariants.{Sign as ASign, Name as AName, Keyword as AKeyword};
ghost use Rattle.tc_tree.specs.declared.word.Word.{Word as GrammarWord};
ghost use Rattle.tc_tree.specs.Seen.{body_of, thread_of, program_of};
ghost use Rattle.tc_syntax.specs.Faults.{IsStop};
ghost use Rattle.tc_syntax.specs.helpers.Reading.{AnyName, Locals, Parameters, Globals, Threads, AfterGlobal, Initial as AnInitial, a_body, a_thread};
ghost use Rattle.tc_syntax.specs.helpers.Read.{Stops, Ends, IsRead, IsPassed, IsAny, IsWellBody, IsWellThread, initial_ends};
ghost use Rattle.tc_syntax.specs.helpers.Read as reads;

use crate::reader::{Read, Stop, past, past_end, past_int, past_keyword, past_name, past_number};
use crate::statements::read_statements;
use std::alloc::Global as Heap;
use tc_lexer::{Keyword, Sign};
use tc_tree::{Block, Body, Global, Initial, Local, Name, Program, Thread, Word};

/// The program that the words spell.
pub fn read_program(alloc: Heap, words: &[Word]) -> Result<Program, Stop>
    ensures { MatchResult result
        (λ program. IsSpelled 4 words.now (program_of program))
        (λ stop. IsStop 4 words.now stop) }
{
    match read_all(alloc, words) {
        Ok(program) => Ok(program),
        Err(stop) => Err(stop),
    }
}

/// Global declarations, threads and main, up to the end of the words.
fn read_all(alloc: Heap, words: &[Word]) -> Result<Program, Stop>
    ensures { MatchResult result
        (λ program. (words.now ≡ program_words (program_of program)) × IsWellProgram (program_of program))
        (λ stop. Ends words.now stop) }
{
    let (globals, after) = read_globals(alloc, words)?;
    let (threads, after) = read_threads(alloc, after)?;
    let (main, rest) = read_main(alloc, after)?;
    if rest.is_empty() {
        Ok(Program {
            globals,
            threads,
            main,
        })
    } else {
        Err(Stop::Left(rest.len()))
    }
}

/// What main does, and the words after it.
fn read_main<'w>(alloc: Heap, words: &'w [Word]) -> Read<'w, Body>
    requires { (rest : List GrammarWord) → words.now ≡ AKeyword keyword.Thread ∷ rest → ⊥ }
    ensures { MatchResult result
        (λ x. IsRead (λ b rest. AKeyword keyword.Main ∷ body_then b rest) IsWellBody [] (Threads ∷ []) words.now (body_of x.0) x.1.now)
        (λ stop. Stops (Threads ∷ []) words.now stop) }
{
    match past_keyword(words, Keyword::Main) {
        Some(start) => read_body(alloc, start),
        None => Err(Stop::Left(words.len())),
    }
}

/// As many global declarations as there are, and the words after them.
fn read_globals<'w>(alloc: Heap, words: &'w [Word]) -> Read<'w, Vec<Global>>
    ensures { MatchResult result
        (λ x. IsPassed globals_then IsAny Globals Threads words.now x.0.items x.1.now)
        (λ stop. Stops (Globals ∷ []) words.now stop) }
{
    let mut found = Vec::new(alloc);
    let mut rest = words;
    while begins_global(rest) {
        let (global, after) = read_global(rest)?;
        found.push(global)?;
        rest = after;
    }
    Ok((found, rest))
}

/// Whether a global declaration is next.
fn begins_global(words: &[Word]) -> bool
    ensures { result ≡ reads.begins_global words.now }
{
    matches!(
        words,
        [
            Word::Keyword(Keyword::Int | Keyword::Mutex | Keyword::Cond),
            ..
        ]
    )
}

/// A global declaration, and the words after it.
fn read_global<'w>(words: &'w [Word]) -> Read<'w, Global>
    requires { reads.begins_global words.now ≡ true }
    ensures { MatchResult result
        (λ x. IsPassed global_then IsAny Globals Globals words.now x.0 x.1.now)
        (λ stop. Stops (Globals ∷ []) words.now stop) }
{
    match words {
        [Word::Keyword(Keyword::Int), after @ ..] => read_int(after),
        [Word::Keyword(Keyword::Mutex), after @ ..] => {
            let (name, end) = past_name(after)?;
            let rest = past(end, Sign::Semicolon)?;
            Ok((Global::Mutex(name), rest))
        }
        [Word::Keyword(Keyword::Cond), after @ ..] => {
            let (name, end) = past_name(after)?;
            let rest = past(end, Sign::Semicolon)?;
            Ok((Global::Condition(name), rest))
        }
        _ => Err(Stop::Left(words.len())),
    }
}

/// An int or an array, after `int`, and the words after it.
fn read_int<'w>(words: &'w [Word]) -> Read<'w, Global>
    ensures { MatchResult result
        (λ x. IsRead global_then IsAny (AKeyword keyword.Int ∷ []) (AnyName ∷ AfterGlobal ∷ []) words.now x.0 x.1.now)
        (λ stop. Stops (AnyName ∷ AfterGlobal ∷ []) words.now stop) }
{
    let (name, after) = past_name(words)?;
    match after {
        [Word::Sign(Sign::Semicolon), rest @ ..] => Ok((Global::Int(name, Initial::Zero), rest)),
        [Word::Sign(Sign::Assign), start @ ..] => {
            let (initial, rest) = read_initial(start)?;
            Ok((Global::Int(name, initial), rest))
        }
        [Word::Sign(Sign::OpenBracket), start @ ..] => {
            let (size, end) = past_number(start)?;
            let end = past(end, Sign::CloseBracket)?;
            let rest = past(end, Sign::Semicolon)?;
            Ok((Global::Array(name, size), rest))
        }
        _ => Err(Stop::Left(after.len())),
    }
}

/// The initial value of an int, after the `=`, and the words after its semicolon.
fn read_initial<'w>(words: &'w [Word]) -> Read<'w, Initial>
    ensures { MatchResult result
        (λ x. IsRead initial_ends IsAny (ASign sign.Assign ∷ []) (AnInitial ∷ []) words.now x.0 x.1.now)
        (λ stop. Stops (AnInitial ∷ []) words.now stop) }
{
    match words {
        [Word::Sign(Sign::Minus), start @ ..] => {
            let (number, end) = past_number(start)?;
            let rest = past(end, Sign::Semicolon)?;
            Ok((Initial::Negated(number), rest))
        }
        [Word::Number(number), end @ ..] => {
            let rest = past(end, Sign::Semicolon)?;
            Ok((Initial::Plain(*number), rest))
        }
        _ => Err(Stop::Left(words.len())),
    }
}

/// As many threads as there are, and the words after them.
fn read_threads<'w>(alloc: Heap, words: &'w [Word]) -> Read<'w, Vec<Thread>>
    ensures { MatchResult result
        (λ x. IsPassed threads_then AreWellThreads Threads Threads words.now (map thread_of x.0.items) x.1.now
        × ((rest : List GrammarWord) → x.1.now ≡ AKeyword keyword.Thread ∷ rest → ⊥))
        (λ stop. Stops (Threads ∷ []) words.now stop) }
{
    let mut found = Vec::new(alloc);
    let mut rest = words;
    while let Some(start) = past_keyword(rest, Keyword::Thread) {
        let (thread, after) = read_thread(alloc, start)?;
        found.push(thread)?;
        rest = after;
    }
    Ok((found, rest))
}

/// A thread, after `thread`, and the words after it.
fn read_thread<'w>(alloc: Heap, words: &'w [Word]) -> Read<'w, Thread>
    ensures { MatchResult result
        (λ x. IsRead thread_then IsWellThread (AKeyword keyword.Thread ∷ []) a_thread words.now (thread_of x.0) x.1.now)
        (λ stop. Stops (a_thread) words.now stop) }
{
    let (name, after) = past_name(words)?;
    let start = past(after, Sign::OpenParen)?;
    let (parameters, end) = read_parameters(alloc, start)?;
    let start = past(end, Sign::CloseParen)?;
    let (body, rest) = read_body(alloc, start)?;
    Ok((
        Thread {
            name,
            parameters,
            body,
        },
        rest,
    ))
}

/// As many parameters as there are, and the words after them.
fn read_parameters<'w>(alloc: Heap, words: &'w [Word]) -> Read<'w, Vec<Name>>
    ensures { MatchResult result
        (λ x. IsRead parameters_then IsAny [] (Parameters ∷ []) words.now x.0.items x.1.now)
        (λ stop. Stops (Parameters ∷ []) words.now stop) }
{
    let mut found = Vec::new(alloc);
    let Ok(start) = past_int(words) else {
        return Ok((found, words));
    };
    let (first, mut rest) = past_name(start)?;
    found.push(first)?;
    while let Ok(start) = past(rest, Sign::Comma) {
        let start = past_int(start)?;
        let (name, after) = past_name(start)?;
        found.push(name)?;
        rest = after;
    }
    Ok((found, rest))
}

/// A body, and the words after it.
fn read_body<'w>(alloc: Heap, words: &'w [Word]) -> Read<'w, Body>
    ensures { MatchResult result
        (λ x. IsRead body_then IsWellBody [] a_body words.now (body_of x.0) x.1.now)
        (λ stop. Stops (a_body) words.now stop) }
{
    let start = past(words, Sign::OpenBrace)?;
    let (locals, first) = read_locals(alloc, start)?;
    let (statements, last) = read_statements(alloc, first)?;
    let (end, rest) = past_end(last)?;
    let block = Block { statements, end };
    Ok((Body { locals, block }, rest))
}

/// As many declarations of a body as there are, and the words after them.
fn read_locals<'w>(alloc: Heap, words: &'w [Word]) -> Read<'w, Vec<Local>>
    ensures { MatchResult result
        (λ x. IsRead locals_then IsAny [] (Locals ∷ []) words.now x.0.items x.1.now)
        (λ stop. Stops (Locals ∷ []) words.now stop) }
{
    let mut found = Vec::new(alloc);
    let mut rest = words;
    while begins_local(rest) {
        let (local, after) = read_local(rest)?;
        found.push(local)?;
        rest = after;
    }
    Ok((found, rest))
}

/// Whether a declaration of a body is next.
fn begins_local(words: &[Word]) -> bool
    ensures { result ≡ reads.begins_local words.now }
{
    matches!(words, [Word::Keyword(Keyword::Int | Keyword::Tid), ..])
}

/// A declaration of a body, and the words after it.
fn read_local<'w>(words: &'w [Word]) -> Read<'w, Local>
    requires { reads.begins_local words.now ≡ true }
    ensures { MatchResult result
        (λ x. IsPassed local_then IsAny Locals Locals words.now x.0 x.1.now)
        (λ stop. Stops (Locals ∷ []) words.now stop) }
{
    match words {
        [Word::Keyword(Keyword::Int), after @ ..] => {
            let (name, end) = past_name(after)?;
            let rest = past(end, Sign::Semicolon)?;
            Ok((Local::Int(name), rest))
        }
        [Word::Keyword(Keyword::Tid), after @ ..] => {
            let (name, end) = past_name(after)?;
            let rest = past(end, Sign::Semicolon)?;
            Ok((Local::Handle(name), rest))
        }
        _ => Err(Stop::Left(words.len())),
    }
}
