//! Reads numbers from a word, and from the front of a text.
ghost use Rattle.std.specs.Prelude.{◌≡◌, ◌<◌, ◌≤◌, ◌^◌, length, option_map, IsTrue, IfSome};
ghost use Rattle.std.specs.List.{list_all, prefix_len};
ghost use Rattle.std.specs.Option.{SomeIff};
ghost use Rattle.std.specs.Str.Parse.{digits_value};
ghost use Rattle.tc_decimal.specs.Decimals.{is_digit, leads_with_zero, number_of, number_at};

use std::str;

/// The number that a word writes, at most `last`: `0`, or digits that don't begin with `0`.
pub fn number_of(last: u32, word: &[u8]) -> Option<u32>
    ensures number { result ≡ number_of last word.now }
    ensures within { IfSome result (λ number. number ≤ last) }
{
    if !is_all_digits(word) || leads_with_zero(word) {
        return None;
    }
    let number = value_of(word)?;
    if number <= last { Some(number) } else { None }
}

/// The number from `low` to `last` at the front of a text, and the text after it.
#[tactic(auto, unfolding(crate::specs::Decimals::number_at))]
pub fn number_at(low: u32, last: u32, text: &[u8]) -> Option<(u32, &[u8])>
    ensures number { option_map (λ x. (x.0, x.1.now)) result ≡ number_at low last text.now }
    ensures above { IfSome result (λ x. low ≤ x.0) }
    ensures within { IfSome result (λ x. x.0 ≤ last) }
{
    let (digits, rest) = text.split_at(digits_len(text));
    let number = number_of(last, digits)?;
    if low <= number {
        Some((number, rest))
    } else {
        None
    }
}

/// How many digits the text begins with.
fn digits_len(text: &[u8]) -> usize
    ensures len { result ≡ prefix_len is_digit text.now }
    ensures within { result ≤ length text.now }
{
    text.iter().take_while(|b| b.is_ascii_digit()).count()
}

fn is_all_digits(word: &[u8]) -> bool
    ensures { result ≡ list_all is_digit word.now }
{
    word.iter().all(|b| b.is_ascii_digit())
}

fn leads_with_zero(word: &[u8]) -> bool
    ensures { result ≡ leads_with_zero word.now }
{
    matches!(word, [b'0', _, ..])
}

/// The value of some digits, if it fits 32 bits.
fn value_of(digits: &[u8]) -> Option<u32>
    requires { IsTrue (list_all is_digit digits.now) }
    ensures { SomeIff result ((0 < length digits.now) × (digits_value 10 digits.now < 2 ^ 32)) (digits_value 10 digits.now) }
{
    str::from_utf8(digits).ok()?.parse().ok()
}
