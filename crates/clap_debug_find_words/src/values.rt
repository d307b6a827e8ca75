//! The values that matches give.
ghost use Rattle.std.specs.Prelude.{◌≡◌, ◌≤◌};
ghost use Rattle.clap.specs.Words.{found_of, rows_of};
ghost use Rattle.clap_debug_find_words.specs.Values as spec;
ghost use Rattle.clap_debug_find_words.specs.Values.{has_value, number_of, plain_text, text_of, within};

use clap::ArgMatches;

/// The value of a positional or an option.
pub(crate) fn text<'a>(matches: &ArgMatches<'a>, id: &str) -> &'a str
    ensures { result.now ≡ text_of id.now (rows_of (found_of matches.now)) }
{
    matches.get_str(id).unwrap_or("")
}

/// Whether a flag is given.
pub(crate) fn is_given(matches: &ArgMatches<'_>, id: &str) -> bool
    ensures { result ≡ spec.is_given id.now (rows_of (found_of matches.now)) }
{
    is_true(matches.get_str(id))
}

/// Whether an option has a value.
pub(crate) fn has_value(matches: &ArgMatches<'_>, id: &str) -> bool
    ensures { result ≡ has_value id.now (rows_of (found_of matches.now)) }
{
    matches.get_str(id).is_some()
}

/// Whether the value of a flag says that the flag is given.
fn is_true(word: Option<&str>) -> bool
    ensures { result ≡ spec.is_true (plain_text word.entry) }
{
    match word {
        Some(word) => word == "true",
        None => false,
    }
}

/// The value of an option that takes a number.
pub(crate) fn number(matches: &ArgMatches<'_>, id: &str, low: u64, high: u64, default: u64) -> u64
    ensures value { result ≡ number_of low high default id.now (rows_of (found_of matches.now)) }
    ensures least { low ≤ default → low ≤ result }
    ensures within { default ≤ high → result ≤ high }
{
    within(matches.get_one::<u64>(id), low, high, default)
}

/// The number, if it is in the range, else the default.
fn within(number: Option<u64>, low: u64, high: u64, default: u64) -> u64
    ensures value { result ≡ within low high default number }
    ensures least { low ≤ default → low ≤ result }
    ensures within { default ≤ high → result ≤ high }
{
    match number {
        Some(number) if low <= number && number <= high => number,
        _ => default,
    }
}
