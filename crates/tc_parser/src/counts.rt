//! The limits of a program.
ghost use Rattle.std.specs.Prelude.{◌≡◌, ◌≤◌, ◌<◌, List, length, MatchResult, ℕ, None};
ghost use Rattle.tc_limits.specs.declared.limits.TheConstants.{PROGRAM_BYTES};
ghost use Rattle.tc_tree.specs.Counts as count;
ghost use Rattle.tc_parser.specs.declared.fault.ParseFault.TheVariants.{Count};
ghost use Rattle.tc_parser.specs.Faults.{limit_of};
ghost use Rattle.tc_parser.specs.Programs.{IsNested, long_stretch, IsTokensFault};
ghost use Rattle.tc_parser.specs.helpers.Parts.{HaveRoom, IsCountFault};

use crate::brackets::is_too_deep;
use crate::fault::{ParseFault, What};
use crate::stretches::long_stretch;
use tc_lexer::Token;
use tc_limits::limits::BRACKETS;
use tc_tree::Global;

/// Rejects tokens with too many brackets open at once, or with too long a stretch.
pub(crate) fn check_tokens(tokens: &[Token]) -> Result<(), ParseFault>
    ensures { MatchResult result
        (λ _. IsNested tokens.now × (long_stretch tokens.now ≡ None))
        (λ fault. (text : List ℕ) → IsTokensFault 4 text tokens.now fault) }
{
    if is_too_deep(tokens) {
        return Err(ParseFault::Count(What::Brackets, BRACKETS as u64 + 1));
    }
    match long_stretch(tokens) {
        Some(n) => Err(ParseFault::Count(What::Stretch, n as u64)),
        None => Ok(()),
    }
}

/// Rejects declarations of too many cells, mutexes or conditions.
pub(crate) fn check_globals(globals: &[Global]) -> Result<(), ParseFault>
    requires { length globals.now ≤ PROGRAM_BYTES }
    ensures { MatchResult result (λ _. HaveRoom globals.now) (IsCountFault globals.now) }
{
    check_count(What::Cells, cells(globals))?;
    check_count(What::Mutexes, mutexes(globals) as u64)?;
    check_count(What::Conditions, conditions(globals) as u64)
}

/// Rejects more of something than a program may have.
fn check_count(what: What, n: u64) -> Result<(), ParseFault>
    ensures { MatchResult result
        (λ _. n ≤ limit_of what)
        (λ fault. (limit_of what < n) × (fault ≡ Count what n)) }
{
    if n > what.limit() as u64 {
        Err(ParseFault::Count(what, n))
    } else {
        Ok(())
    }
}

/// How many cells are declared.
fn cells(globals: &[Global]) -> u64
    requires { length globals.now ≤ PROGRAM_BYTES }
    ensures { result ≡ count.cells globals.now }
{
    let mut sum = 0;
    for global in globals {
        sum += cells_of(global);
    }
    sum
}

fn cells_of(global: &Global) -> u64
    ensures exact { result ≡ count.cells_of global.now }
    ensures small { result < 2147483648 }
{
    match global {
        Global::Int(_, _) => 1,
        Global::Array(_, number) => elements(number.value),
        Global::Mutex(_) | Global::Condition(_) => 0,
    }
}

fn elements(size: i32) -> u64
    ensures exact { result ≡ count.elements size }
    ensures small { result < 2147483648 }
{
    if size < 0 { 0 } else { size as u64 }
}

/// How many mutexes are declared.
fn mutexes(globals: &[Global]) -> usize
    ensures { result ≡ count.mutexes globals.now }
{
    let mut found = 0;
    for global in globals {
        found += usize::from(matches!(global, Global::Mutex(_)));
    }
    found
}

/// How many conditions are declared.
fn conditions(globals: &[Global]) -> usize
    ensures { result ≡ count.conditions globals.now }
{
    let mut found = 0;
    for global in globals {
        found += usize::from(matches!(global, Global::Condition(_)));
    }
    found
}
