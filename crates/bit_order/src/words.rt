//! Words of variables.
ghost use Rattle.std.specs.Prelude.{◌≡◌, ◌<◌, ◌+◌, ◌-◌, ◌^◌};
ghost use Rattle.bit_order.specs.Layouts.{word_from, position_word};

use cnf_core::Lit;

/// The word of the `W` variables from `first` on, the lowest bit first; that is the last variable.
pub(crate) fn word_from<const W: usize>(first: u32) -> [Lit; W]
    requires positive { 0 < first }
    requires small { first + W < 2 ^ 31 }
    ensures { result ≡ word_from first W }
{
    let mut word = [Lit::new(first, false); W];
    for place in 0..W {
        word[place] = Lit::new(first + (W - 1 - place) as u32, false);
    }
    word
}

/// The position of an event.
pub(crate) fn position_word(event: u32) -> [Lit; 8]
    requires { event < 2 ^ 28 - 1 }
    ensures { result ≡ position_word event }
{
    word_from(2 + 8 * event)
}
