//! Tokens as the grammar sees them.
ghost use Rattle.std.specs.Prelude.{◌≡◌, ◌∷◌, [], false, map, ◌&&◌, IfOk, MatchOption};
ghost use Rattle.tc_tree.specs.Words.{word_of, words_of, words_after, is_add, begin_call, is_name, is_assign, target_of, word_after};
ghost use Rattle.tc_tree.specs.Words as words;

use crate::expression::{Name, Number};
use crate::statement::{Action, Barrier, Target, UpdateKind};
use std::alloc::{AllocError, Global};
use tc_lexer::{Keyword, Place, Sign, Token, TokenKind};

/// A token as the grammar sees it, with its place if a tree keeps that.
#[derive(Clone, Copy, Debug, PartialEq, Eq)]
pub enum Word {
    /// A name.
    Name(Name),
    /// A number.
    Number(Number),
    /// `if`
    If(Place),
    /// `while`
    While(Place),
    /// `join`, `lock`, `unlock`, `signal` or `broadcast`
    Action(Action, Place),
    /// `wait`
    Wait(Place),
    /// `fence` or `stbar`
    Barrier(Barrier, Place),
    /// `assert`
    Assert(Place),
    /// `swap`, `cas` or `add`, with what it updates
    Update(UpdateKind, Target),
    /// Another keyword.
    Keyword(Keyword),
    /// A sign other than `}`.
    Sign(Sign),
    /// `}`
    End(Place),
}

impl Word {
    /// The token as a word.
    pub fn new(token: &Token) -> Self
        ensures { result ≡ word_of token.now }
    {
        let place = token.place;
        match token.kind {
            TokenKind::Name => Word::Name(Name {
                start: token.start,
                end: token.end,
                place,
            }),
            TokenKind::Number(value) => Word::Number(Number { value, place }),
            TokenKind::Keyword(keyword) => keyword_word(keyword, place),
            TokenKind::Sign(Sign::CloseBrace) => Word::End(place),
            TokenKind::Sign(sign) => Word::Sign(sign),
        }
    }
}

/// The word of a keyword at a place.
fn keyword_word(keyword: Keyword, place: Place) -> Word
    ensures { result ≡ words.keyword_word keyword place }
{
    match keyword {
        Keyword::If => Word::If(place),
        Keyword::While => Word::While(place),
        Keyword::Join => Word::Action(Action::Join, place),
        Keyword::Lock => Word::Action(Action::Lock, place),
        Keyword::Unlock => Word::Action(Action::Unlock, place),
        Keyword::Signal => Word::Action(Action::Signal, place),
        Keyword::Broadcast => Word::Action(Action::Broadcast, place),
        Keyword::Wait => Word::Wait(place),
        Keyword::Fence => Word::Barrier(Barrier::Fence, place),
        Keyword::Stbar => Word::Barrier(Barrier::Stores, place),
        Keyword::Assert => Word::Assert(place),
        Keyword::Swap => Word::Update(UpdateKind::Swap, Target::Cell),
        Keyword::Cas => Word::Update(UpdateKind::Cas, Target::Cell),
        _ => Word::Keyword(keyword),
    }
}

/// The tokens of a text as words of language 4.
pub fn words_of(alloc: Global, text: &[u8], tokens: &[Token]) -> Result<Vec<Word>, AllocError>
    ensures { IfOk result (λ words. words.items ≡ words_of 4 text.now tokens.now) }
{
    let plain = plain_words(alloc, tokens)?;
    words_in_text(alloc, text, plain.as_slice())
}

/// The words of tokens, each by itself.
fn plain_words(alloc: Global, tokens: &[Token]) -> Result<Vec<Word>, AllocError>
    ensures { IfOk result (λ words. words.items ≡ map word_of tokens.now) }
{
    tokens.iter().map(Word::new).collect(alloc)
}

/// Words of tokens as words of language 4, which depend on their neighbours.
fn words_in_text(alloc: Global, text: &[u8], plain: &[Word]) -> Result<Vec<Word>, AllocError>
    ensures { IfOk result (λ words. words.items ≡ words_after text.now false false plain.now) }
{
    let mut words = Vec::new(alloc);
    let mut rest = plain;
    let mut named = false;
    let mut assigned = false;
    while let Some((word, after)) = first_of(rest) {
        words.push(word_after(text, assigned, word, after))?;
        assigned = is_assigned(word, named);
        named = is_name(word);
        rest = after;
    }
    Ok(words)
}

/// The first of some words, and the others.
fn first_of(words: &[Word]) -> Option<(Word, &[Word])>
    ensures { MatchOption result (words.now ≡ []) (λ x. words.now ≡ x.0 ∷ x.1.now) }
{
    match words {
        [first, others @ ..] => Some((*first, others)),
        [] => None,
    }
}

/// A word in language 4, given whether it is assigned to a name, and the words after it.
fn word_after(text: &[u8], assigned: bool, word: Word, after: &[Word]) -> Word
    ensures { result ≡ word_after text.now assigned word after.now }
{
    match word {
        Word::Name(name) if assigned && begin_call(after) && is_add(text, &name) => {
            Word::Update(UpdateKind::Add, target_of(after))
        }
        Word::Update(kind, _) if assigned && begin_call(after) => {
            Word::Update(kind, target_of(after))
        }
        _ => word,
    }
}

fn is_name(word: Word) -> bool
    ensures { result ≡ is_name word }
{
    matches!(word, Word::Name(_))
}

/// Whether a word is `=` right after a name.
fn is_assigned(word: Word, named: bool) -> bool
    ensures { result ≡ (is_assign word && named) }
{
    match word {
        Word::Sign(Sign::Assign) => named,
        _ => false,
    }
}

/// Whether a name is `add`.
fn is_add(text: &[u8], name: &Name) -> bool
    ensures { result ≡ is_add text.now name.now }
{
    name.text(text) == b"add".as_slice()
}

/// Whether `(` is next.
fn begin_call(words: &[Word]) -> bool
    ensures { result ≡ begin_call words.now }
{
    matches!(words, [Word::Sign(Sign::OpenParen), ..])
}

/// What an update changes: an element if `( a [` is next.
fn target_of(words: &[Word]) -> Target
    ensures { result ≡ target_of words.now }
{
    match words {
        [_, Word::Name(_), Word::Sign(Sign::OpenBracket), ..] => Target::Element,
        _ => Target::Cell,
    }
}
