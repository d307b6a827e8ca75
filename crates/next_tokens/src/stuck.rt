//! The first token with which no program goes on, and those that are possible in its place.
ghost use Rattle.std.specs.Prelude.{◌≡◌, ◌≤◌, ◌↔◌, ◌++◌, ◌∷◌, [], true, length, IfOk, MatchOption, OnOk, if◌then◌else◌};
ghost use Rattle.tc_tree.specs.Grammar.{Begins, IsSyntaxFault};
ghost use Rattle.tc_tree.specs.Words.{words_of};
ghost use Rattle.next_tokens.specs.Next.{all_kinds, sample, AreProgram, ArePicked, GoesOnWith, IsStuck};
ghost use Rattle.next_tokens.specs.helpers.Searched.{IsLeft};

use crate::kinds::ALL_KINDS;
use std::alloc::{AllocError, Global};
use tc_lexer::{Place, Token, TokenKind};
use tc_syntax::{Stop, read_program};
use tc_tree::{Word, words_of};

/// Where tokens stop being a program's.
#[derive(Debug, Drop)]
pub struct Stuck {
    /// The number of tokens before the first with which no program goes on.
    pub place: usize,
    /// The kinds of tokens that are possible there, in the order of [`ALL_KINDS`].
    pub kinds: Vec<TokenKind>,
    /// Whether the text could end there.
    pub may_end: bool,
}

/// Where the tokens of a text stop being a program's, or `None` if they are a program.
pub fn find_stuck(alloc: Global, text: &[u8], tokens: &[Token]) -> Result<Option<Stuck>, AllocError>
    ensures { IfOk result (λ stuck. MatchOption stuck (AreProgram text.now tokens.now) (IsStuck text.now tokens.now)) }
{
    let end = tokens_left(alloc, text, tokens)?;
    match end {
        None => Ok(None),
        Some(left) => {
            let place = tokens.len() - left;
            Ok(Some(stuck_at(alloc, text, tokens, place)?))
        }
    }
}

/// The number of tokens left from the first with which no program goes on, or `None` if they are a
/// program.
fn tokens_left(alloc: Global, text: &[u8], tokens: &[Token]) -> Result<Option<usize>, AllocError>
    ensures { IfOk result (IsLeft (words_of 4 text.now tokens.now)) }
{
    let words = words_of(alloc, text, tokens)?;
    words_left(alloc, words.as_slice())
}

/// The same for words.
fn words_left(alloc: Global, words: &[Word]) -> Result<Option<usize>, AllocError>
    ensures { IfOk result (IsLeft words.now) }
{
    match read_program(alloc, words) {
        Ok(_) => Ok(None),
        Err(Stop::Memory) => Err(AllocError),
        Err(Stop::Left(left)) => Ok(Some(left)),
    }
}

/// The kinds of tokens that are possible at a place where tokens stop being a program's.
fn stuck_at(alloc: Global, text: &[u8], tokens: &[Token], place: usize) -> Result<Stuck, AllocError>
    requires within { place ≤ length tokens.now }
    requires fault { IsSyntaxFault 4 (words_of 4 text.now tokens.now) place }
    ensures { IfOk result (IsStuck text.now tokens.now) }
{
    let before = &tokens[..place];
    let kinds = kinds_after(alloc, text, before)?;
    let may_end = is_program(alloc, text, before)?;
    Ok(Stuck {
        place,
        kinds,
        may_end,
    })
}

/// The kinds of tokens with which some program goes on after these.
fn kinds_after(alloc: Global, text: &[u8], before: &[Token]) -> Result<Vec<TokenKind>, AllocError>
    ensures { IfOk result (λ found. ArePicked (GoesOnWith text.now before.now) all_kinds found.items) }
{
    let mut found = Vec::new(alloc);
    let mut rest: &[TokenKind] = &ALL_KINDS;
    while let Some((kind, later)) = first_of(rest) {
        let goes_on = goes_on_with(alloc, text, before, kind)?;
        push_if(&mut found, kind, goes_on)?;
        rest = later;
    }
    Ok(found)
}

/// The first of some kinds, and the others.
fn first_of(kinds: &[TokenKind]) -> Option<(TokenKind, &[TokenKind])>
    ensures { MatchOption result (kinds.now ≡ []) (λ x. kinds.now ≡ x.0 ∷ x.1.now) }
{
    match kinds {
        [first, others @ ..] => Some((*first, others)),
        [] => None,
    }
}

/// Adds the kind, if it is wanted.
fn push_if(found: &mut Vec<TokenKind>, kind: TokenKind, is_wanted: bool) -> Result<(), AllocError>
    ensures { OnOk result (found.new.items ≡ (if is_wanted then found.old.items ++ kind ∷ [] else found.old.items)) }
{
    if is_wanted {
        found.push(kind)?;
    }
    Ok(())
}

/// Whether some program begins with these tokens and then one of this kind.
fn goes_on_with(
    alloc: Global,
    text: &[u8],
    before: &[Token],
    kind: TokenKind,
) -> Result<bool, AllocError>
    ensures { IfOk result (λ goes_on. (goes_on ≡ true) ↔ GoesOnWith text.now before.now kind) }
{
    let tokens = with_sample(alloc, before, kind)?;
    begins_program(alloc, text, tokens.as_slice())
}

/// The tokens, and then one of this kind.
fn with_sample(alloc: Global, before: &[Token], kind: TokenKind) -> Result<Vec<Token>, AllocError>
    ensures { IfOk result (λ tokens. tokens.items ≡ before.now ++ sample kind ∷ []) }
{
    let mut tokens = before.to_vec(alloc)?;
    tokens.push(sample(kind))?;
    Ok(tokens)
}

/// A token of this kind.
fn sample(kind: TokenKind) -> Token
    ensures { result ≡ sample kind }
{
    Token {
        kind,
        start: 0,
        end: 0,
        place: Place { line: 1, col: 1 },
    }
}

/// Whether some program begins with these tokens: then none of them is left at their fault.
fn begins_program(alloc: Global, text: &[u8], tokens: &[Token]) -> Result<bool, AllocError>
    ensures { IfOk result (λ begins. (begins ≡ true) ↔ Begins 4 (words_of 4 text.now tokens.now)) }
{
    let left = tokens_left(alloc, text, tokens)?;
    Ok(left.unwrap_or(0) == 0)
}

/// Whether the tokens are a program.
fn is_program(alloc: Global, text: &[u8], tokens: &[Token]) -> Result<bool, AllocError>
    ensures { IfOk result (λ is. (is ≡ true) ↔ AreProgram text.now tokens.now) }
{
    let left = tokens_left(alloc, text, tokens)?;
    Ok(left.is_none())
}
