//! The words in a line of values.
ghost use Rattle.std.specs.Prelude.{◌≡◌, ◌<◌, ◌^◌, neg_ℤ, pos, if◌then◌else◌};
ghost use Rattle.dimacs_text.specs.helpers.Reading as reading;

use cnf_core::Lit;
use tc_decimal::number_of;

/// The greatest variable.
const LAST_VAR: u32 = 2_147_483_647;

/// The meaning of a word in a line of values.
#[derive(Clone, Copy, Debug, PartialEq, Eq)]
pub(crate) enum Word {
    /// A literal that is true.
    Literal(Lit),
    /// The 0 after the last literal.
    End,
}

/// The word of these bytes, none of them a blank.
pub(crate) fn word_in(bytes: &[u8]) -> Option<Word>
    ensures { result ≡ reading.word_in bytes.now }
{
    match bytes {
        [b'-', digits @ ..] => match number_of(LAST_VAR, digits)? {
            0 => None,
            var => Some(Word::Literal(literal(var, true))),
        },
        _ => match number_of(LAST_VAR, bytes)? {
            0 => Some(Word::End),
            var => Some(Word::Literal(literal(var, false))),
        },
    }
}

/// The literal of a variable.
fn literal(var: u32, negative: bool) -> Lit
    requires positive { 0 < var }
    requires small { var < 2 ^ 31 }
    ensures { result ≡ (if negative then neg_ℤ (pos var) else pos var) }
{
    Lit::new(var, negative)
}
