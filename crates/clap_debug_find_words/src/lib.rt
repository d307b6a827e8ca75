//! The words of a command line, read by `clap`: a search of a program, or a check of a certificate,
//! with its files and options.
#![tactic(auto)]

ghost use Rattle.std.specs.Prelude.{◌≡◌, ◌≤◌, ◌||◌, map, IfOk, option_map, string_bytes};
ghost use Rattle.tc_limits.specs.declared.limits.TheConstants.{BUDGET};
ghost use Rattle.clap.specs.Words.{found_of, rows_of};
ghost use Rattle.find_command.specs.Calls.{plain_search};
ghost use Rattle.certificate_check.specs.Meanings.{plain_check};
ghost use Rattle.clap_debug_find_words.specs.Calls.{plain_call, call_of, call_in, check_call, check_in, search_call, search_in};
ghost use Rattle.clap_debug_find_words.specs.Calls.{asked_in, has_bound, has_kind, has_options, kind_in, model_in, model_named};

mod call;
mod line;
mod values;

pub use call::Call;
use certificate_check::CheckCertificate;
use clap::ArgMatches;
use clap::error::ErrorKind;
use command_inputs::ProgramFile;
use find_command::Search;
use find_failures::Asked;
use line::{LOGS, OUTCOMES, USUAL_BUDGET, USUAL_LOGS, USUAL_OUTCOMES, command_line};
use log_walk::Kind;
use memory_models::Model;
use std::alloc::{AllocError, Global};
use tc_limits::limits::BUDGET;
use values::{has_value, is_given, number, text};

/// The call that the words ask for, or `None` if they aren't accepted; a request for help isn't.
///
/// The first word is the program's own name. `Err` means that there is no memory.
pub fn call_of<'a>(alloc: Global, words: &'a [String]) -> Result<Option<Call<'a>>, AllocError>
    ensures { IfOk result (λ call. option_map plain_call call ≡ call_of (map string_bytes words.now)) }
{
    match command_line(alloc)?.try_get_matches_from(words) {
        Ok(matches) => Ok(call_in(&matches)),
        Err(error) => match error.kind() {
            ErrorKind::OutOfMemory => Err(AllocError),
            _ => Ok(None),
        },
    }
}

/// The call that the matches ask for.
fn call_in<'a>(matches: &ArgMatches<'a>) -> Option<Call<'a>>
    ensures { option_map plain_call result ≡ call_in (rows_of (found_of matches.now)) }
{
    if is_given(matches, "check") {
        check_call(matches)
    } else {
        search_call(matches)
    }
}

/// The check that the matches ask for, if they have no option of a search.
fn check_call<'a>(matches: &ArgMatches<'a>) -> Option<Call<'a>>
    ensures { option_map plain_call result ≡ check_call (rows_of (found_of matches.now)) }
{
    if has_options(matches) {
        None
    } else {
        Some(Call::Check(check_in(matches)))
    }
}

/// Whether some option of a search is given.
fn has_options(matches: &ArgMatches<'_>) -> bool
    ensures { result ≡ has_options (rows_of (found_of matches.now)) }
{
    has_kind(matches) || has_bound(matches)
}

/// Whether some option says what is looked for.
fn has_kind(matches: &ArgMatches<'_>) -> bool
    ensures { result ≡ has_kind (rows_of (found_of matches.now)) }
{
    has_value(matches, "model") || is_given(matches, "deadlock")
}

/// Whether some option says how far the search goes.
fn has_bound(matches: &ArgMatches<'_>) -> bool
    ensures { result ≡ has_bound (rows_of (found_of matches.now)) }
{
    has_value(matches, "outcomes") || has_value(matches, "logs") || has_value(matches, "budget")
}

/// The check of a certificate.
fn check_in<'a>(matches: &ArgMatches<'a>) -> CheckCertificate<'a>
    ensures { plain_check result ≡ check_in (rows_of (found_of matches.now)) }
{
    let program = ProgramFile {
        name: text(matches, "program"),
    };
    CheckCertificate {
        program,
        certificate: text(matches, "out"),
    }
}

/// The search that the matches ask for, if they name a memory model.
fn search_call<'a>(matches: &ArgMatches<'a>) -> Option<Call<'a>>
    ensures { option_map plain_call result ≡ search_call (rows_of (found_of matches.now)) }
{
    match model_in(matches) {
        Some(model) => Some(Call::Search(search_in(matches, model))),
        None => None,
    }
}

/// The memory model that is asked for, `tso` if none is.
fn model_in(matches: &ArgMatches<'_>) -> Option<Model>
    ensures { result ≡ model_in (rows_of (found_of matches.now)) }
{
    match matches.get_str("model") {
        Some(name) => model_named(name),
        None => Some(Model::Tso),
    }
}

/// The search that the matches ask for, under a memory model.
fn search_in<'a>(matches: &ArgMatches<'a>, model: Model) -> Search<'a>
    ensures { plain_search result ≡ search_in model (rows_of (found_of matches.now)) }
{
    let program = ProgramFile {
        name: text(matches, "program"),
    };
    Search {
        program,
        out: text(matches, "out"),
        model,
        asked: asked_in(matches),
    }
}

/// What is looked for, and how far the search goes.
fn asked_in(matches: &ArgMatches<'_>) -> Asked
    ensures value { result ≡ asked_in (rows_of (found_of matches.now)) }
    ensures some { 1 ≤ result.budget }
    ensures room { result.budget ≤ BUDGET }
{
    let outcomes = number(matches, "outcomes", 0, OUTCOMES, USUAL_OUTCOMES);
    let logs = number(matches, "logs", 1, LOGS, USUAL_LOGS);
    let budget = number(matches, "budget", 1, BUDGET as u64, USUAL_BUDGET);
    Asked {
        kind: kind_in(matches),
        outcomes: outcomes as u16,
        logs: logs as u32,
        budget: budget as u32,
    }
}

/// How the runs end that are looked for.
fn kind_in(matches: &ArgMatches<'_>) -> Kind
    ensures { result ≡ kind_in (rows_of (found_of matches.now)) }
{
    if is_given(matches, "deadlock") {
        Kind::Deadlock
    } else {
        Kind::Failure
    }
}

/// The memory model with this name.
fn model_named(name: &str) -> Option<Model>
    ensures { result ≡ model_named name.now }
{
    if name == Model::Sc.name() {
        Some(Model::Sc)
    } else if name == Model::Tso.name() {
        Some(Model::Tso)
    } else if name == Model::Pso.name() {
        Some(Model::Pso)
    } else {
        None
    }
}
