//! The values of options and numbers.
ghost use Rattle.std.specs.Prelude.{◌≡◌, ◌≤◌, codes, IfSome, option_and_then, option_map};
ghost use Rattle.clap.specs.Words.{first_of, found_of, rows_of};
ghost use Rattle.tc_limits.specs.declared.limits.TheConstants.{BUDGET, MOVES};
ghost use Rattle.clap_debug_words.specs.declared.call.TheConstants.{WORKERS};
ghost use Rattle.clap_debug_words.specs.Values as spec;
ghost use Rattle.clap_debug_words.specs.helpers.Parts.{within};

use crate::call::{Budget, WORKERS, Workers};
use clap::ArgMatches;
use memory_models::Model;
use tc_limits::limits::{BUDGET, MOVES};

/// The most moves of a recorded run.
const MOST_MOVES: u64 = MOVES as u64;

/// The most conflicts of a search.
const MOST_CONFLICTS: u64 = BUDGET as u64;

/// The most workers of a workload.
const MOST_WORKERS: u64 = WORKERS as u64;

/// The text of a positional or an option.
pub(crate) fn text<'a>(matches: &ArgMatches<'a>, id: &str) -> Option<&'a str>
    ensures { option_map (λ s. s.now) result ≡ first_of id.now (rows_of (found_of matches.now)) }
{
    matches.get_str(id)
}

/// The value of `--model`.
pub(crate) fn model_in(matches: &ArgMatches<'_>) -> Option<Option<Model>>
    ensures { result ≡ spec.model_in (rows_of (found_of matches.now)) }
{
    match text(matches, "model") {
        Some(name) => written(model_named(name)),
        None => Some(None),
    }
}

/// The value of `--seed`.
pub(crate) fn seed_in(matches: &ArgMatches<'_>) -> Option<Option<u64>>
    ensures { result ≡ spec.seed_in (rows_of (found_of matches.now)) }
{
    match text(matches, "seed") {
        Some(seed) => written(seed_named(seed)),
        None => Some(None),
    }
}

/// The value of `--steps`.
pub(crate) fn steps_in(matches: &ArgMatches<'_>) -> Option<Option<u32>>
    ensures { result ≡ spec.steps_in (rows_of (found_of matches.now)) }
{
    match text(matches, "steps") {
        Some(steps) => written(steps_named(steps)),
        None => Some(None),
    }
}

/// The value of `--budget`.
pub(crate) fn budget_in(matches: &ArgMatches<'_>) -> Option<Option<Budget>>
    ensures { option_map (option_map (λ b. b.conflicts)) result ≡ spec.budget_in (rows_of (found_of matches.now)) }
{
    match text(matches, "budget") {
        Some(budget) => written(budget_named(budget)),
        None => Some(None),
    }
}

/// The number of workers.
pub(crate) fn workers_in(matches: &ArgMatches<'_>) -> Option<Workers>
    ensures { option_map (λ w. w.count) result ≡ option_and_then (spec.number_named 1 WORKERS) (first_of (codes "workers") (rows_of (found_of matches.now))) }
{
    let workers = text(matches, "workers")?;
    workers_named(workers)
}

/// The seed, where it is a positional.
pub(crate) fn given_seed_in(matches: &ArgMatches<'_>) -> Option<u64>
    ensures { result ≡ option_and_then (spec.number_named 0 spec.last_seed) (first_of (codes "seed") (rows_of (found_of matches.now))) }
{
    let seed = text(matches, "seed")?;
    seed_named(seed)
}

/// The value that was written, if it is one.
fn written<T>(value: Option<T>) -> Option<Option<T>>
    ensures { result ≡ option_map Some value }
{
    match value {
        Some(value) => Some(Some(value)),
        None => None,
    }
}

/// The memory model with this name.
fn model_named(name: &str) -> Option<Model>
    ensures { result ≡ spec.model_named name.now }
{
    if name == Model::Sc.name() {
        Some(Model::Sc)
    } else if name == Model::Tso.name() {
        Some(Model::Tso)
    } else if name == Model::Pso.name() {
        Some(Model::Pso)
    } else {
        None
    }
}

/// The seed that the text writes.
fn seed_named(text: &str) -> Option<u64>
    ensures { result ≡ spec.number_named 0 spec.last_seed text.now }
{
    number_named(text, 0, u64::MAX)
}

/// The number of steps that the text writes.
fn steps_named(text: &str) -> Option<u32>
    ensures { result ≡ spec.number_named 1 MOVES text.now }
{
    match number_named(text, 1, MOST_MOVES) {
        Some(steps) => Some(steps as u32),
        None => None,
    }
}

/// The number of conflicts that the text writes.
fn budget_named(text: &str) -> Option<Budget>
    ensures { option_map (λ b. b.conflicts) result ≡ spec.number_named 1 BUDGET text.now }
{
    match number_named(text, 1, MOST_CONFLICTS) {
        Some(conflicts) => Some(Budget {
            conflicts: conflicts as u32,
        }),
        None => None,
    }
}

/// The number of workers that the text writes.
fn workers_named(text: &str) -> Option<Workers>
    ensures { option_map (λ w. w.count) result ≡ spec.number_named 1 WORKERS text.now }
{
    match number_named(text, 1, MOST_WORKERS) {
        Some(count) => Some(Workers {
            count: count as u32,
        }),
        None => None,
    }
}

/// The number that a text writes, if it is one in the range.
fn number_named(text: &str, low: u64, high: u64) -> Option<u64>
    ensures value { result ≡ spec.number_named low high text.now }
    ensures least { IfSome result (λ n. low ≤ n) }
    ensures most { IfSome result (λ n. n ≤ high) }
{
    match text.parse::<u64>() {
        Ok(number) => within(number, low, high),
        Err(_) => None,
    }
}

/// The number, if it is in the range.
fn within(number: u64, low: u64, high: u64) -> Option<u64>
    ensures value { result ≡ within low high number }
    ensures least { IfSome result (λ n. low ≤ n) }
    ensures most { IfSome result (λ n. n ≤ high) }
{
    if low <= number && number <= high {
        Some(number)
    } else {
        None
    }
}
