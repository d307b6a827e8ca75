//! Reads one word at a time.
ghost use Rattle.std.specs.Prelude.{◌≡◌, List, ◌∷◌, [], MatchOption, MatchResult};
ghost use Rattle.tc_lexer.specs.declared.place.Place.{Place as PlainPlace};
ghost use Rattle.tc_lexer.specs.declared.token.Keyword.TheVariants as keyword;
ghost use Rattle.tc_tree.specs.declared.word.Word.TheVariants.{Sign as ASign, Name as AName, Number as ANumber, If as AnIf, Keyword as AKeyword, Update as AnUpdate, End as AnEnd};
ghost use Rattle.tc_tree.specs.declared.statement.Target.{Target as OneTarget};
ghost use Rattle.tc_tree.specs.declared.statement.UpdateKind.{UpdateKind as OneKind};
ghost use Rattle.tc_tree.specs.declared.word.Word.{Word as GrammarWord};
ghost use Rattle.tc_syntax.specs.helpers.Reading.{Just, AnyName, AnyNumber, AnInt, End};
ghost use Rattle.tc_syntax.specs.helpers.Read.{Stops, Moves};

use std::alloc::{AllocError, AllocFailed};
use tc_lexer::{Keyword, Place, Sign};
use tc_tree::{Name, Number, Target, UpdateKind, Word};

/// Why a reader stopped.
#[derive(Clone, Copy, Debug, PartialEq, Eq)]
pub enum Stop {
    /// Memory ran out.
    Memory,
    /// This many words were left.
    Left(usize),
}

impl From<AllocError> for Stop {
    ghost use Rattle.tc_syntax.specs.declared.reader.Stop.TheVariants.{Memory};

    ghost from_gives = { λ _ stop. stop ≡ Memory };

    fn from(_error: AllocError) -> Self {
        Stop::Memory
    }
}

impl<T: Drop> From<AllocFailed<T>> for Stop {
    ghost use Rattle.tc_syntax.specs.declared.reader.Stop.TheVariants.{Memory};

    ghost from_gives = { λ _ stop. stop ≡ Memory };

    fn from(_failed: AllocFailed<T>) -> Self {
        Stop::Memory
    }
}

/// What a reader found, and the words after it.
pub(crate) type Read<'w, T> = Result<(T, &'w [Word]), Stop>;

/// The words after this sign.
pub(crate) fn past<'w>(words: &'w [Word], wanted: Sign) -> Result<&'w [Word], Stop>
    ensures { MatchResult result
        (λ rest. (words.now ≡ ASign wanted ∷ rest.now) × Moves (Just wanted ∷ []) words.now rest.now)
        (λ stop. Stops (Just wanted ∷ []) words.now stop × ((rest : List GrammarWord) → words.now ≡ ASign wanted ∷ rest → ⊥)) }
{
    match words {
        [Word::Sign(sign), rest @ ..] if *sign == wanted => Ok(rest),
        _ => Err(Stop::Left(words.len())),
    }
}

/// The words after this keyword, if it is next.
pub(crate) fn past_keyword<'w>(words: &'w [Word], wanted: Keyword) -> Option<&'w [Word]>
    ensures { MatchOption result
        ((rest : List GrammarWord) → words.now ≡ AKeyword wanted ∷ rest → ⊥)
        (λ rest. words.now ≡ AKeyword wanted ∷ rest.now) }
{
    match words {
        [Word::Keyword(keyword), rest @ ..] if *keyword == wanted => Some(rest),
        _ => None,
    }
}

/// An update and what it changes, and the words after it, if one is next.
pub(crate) fn past_update<'w>(words: &'w [Word]) -> Option<((UpdateKind, Target), &'w [Word])>
    ensures { MatchOption result
        ((k : OneKind) (t : OneTarget) (rest : List GrammarWord) → words.now ≡ AnUpdate k t ∷ rest → ⊥)
        (λ x. words.now ≡ AnUpdate x.0.0 x.0.1 ∷ x.1.now) }
{
    match words {
        [Word::Update(kind, target), rest @ ..] => Some(((*kind, *target), rest)),
        _ => None,
    }
}

/// The place of an `if` and the words after it, if one is next.
pub(crate) fn past_if<'w>(words: &'w [Word]) -> Option<(Place, &'w [Word])>
    ensures { MatchOption result
        ((place : PlainPlace) (rest : List GrammarWord) → words.now ≡ AnIf place ∷ rest → ⊥)
        (λ x. words.now ≡ AnIf x.0 ∷ x.1.now) }
{
    match words {
        [Word::If(place), rest @ ..] => Some((*place, rest)),
        _ => None,
    }
}

/// The place of a closing brace, and the words after it.
pub(crate) fn past_end<'w>(words: &'w [Word]) -> Read<'w, Place>
    ensures { MatchResult result
        (λ x. (words.now ≡ AnEnd x.0 ∷ x.1.now) × Moves (End ∷ []) words.now x.1.now)
        (λ stop. Stops (End ∷ []) words.now stop) }
{
    match words {
        [Word::End(place), rest @ ..] => Ok((*place, rest)),
        _ => Err(Stop::Left(words.len())),
    }
}

/// The words after `int`.
pub(crate) fn past_int<'w>(words: &'w [Word]) -> Result<&'w [Word], Stop>
    ensures { MatchResult result
        (λ rest. (words.now ≡ AKeyword keyword.Int ∷ rest.now) × Moves (AnInt ∷ []) words.now rest.now)
        (λ stop. Stops (AnInt ∷ []) words.now stop × ((rest : List GrammarWord) → words.now ≡ AKeyword keyword.Int ∷ rest → ⊥)) }
{
    match words {
        [Word::Keyword(Keyword::Int), rest @ ..] => Ok(rest),
        _ => Err(Stop::Left(words.len())),
    }
}

/// A name, and the words after it.
pub(crate) fn past_name<'w>(words: &'w [Word]) -> Read<'w, Name>
    ensures { MatchResult result
        (λ x. (words.now ≡ AName x.0 ∷ x.1.now) × Moves (AnyName ∷ []) words.now x.1.now)
        (λ stop. Stops (AnyName ∷ []) words.now stop) }
{
    match words {
        [Word::Name(name), rest @ ..] => Ok((*name, rest)),
        _ => Err(Stop::Left(words.len())),
    }
}

/// A number, and the words after it.
pub(crate) fn past_number<'w>(words: &'w [Word]) -> Read<'w, Number>
    ensures { MatchResult result
        (λ x. (words.now ≡ ANumber x.0 ∷ x.1.now) × Moves (AnyNumber ∷ []) words.now x.1.now)
        (λ stop. Stops (AnyNumber ∷ []) words.now stop) }
{
    match words {
        [Word::Number(number), rest @ ..] => Ok((*number, rest)),
        _ => Err(Stop::Left(words.len())),
    }
}
