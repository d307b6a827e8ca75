//! The call that matches ask for.
ghost use Rattle.std.specs.Prelude.{◌≡◌, false, codes, bytes_eq, option_map};
ghost use Rattle.clap.specs.Words.{found_of, rows_of};
ghost use Rattle.clap_debug_words.specs.Calls as spec;
ghost use Rattle.clap_debug_words.specs.Calls.{plain_call};
ghost use Rattle.clap_debug_words.specs.helpers.Parts.{plain_three, plain_two};

use crate::call::Call;
use crate::values::{budget_in, given_seed_in, model_in, seed_in, steps_in, text, workers_in};
use clap::ArgMatches;

/// The call of a command, from its matches.
pub(crate) fn called<'a>(name: &str, matches: &ArgMatches<'a>) -> Option<Call<'a>>
    ensures { option_map plain_call result ≡ spec.called (name.now, rows_of (found_of matches.now)) }
{
    if name == "list" {
        list_in(matches)
    } else if name == "replay" {
        replay_in(matches)
    } else if name == "record" {
        record_in(matches)
    } else if name == "migrate" {
        migrate_in(matches)
    } else if name == "solve" {
        solve_in(matches)
    } else {
        called_later(name, matches)
    }
}

/// The call of one of the other commands.
fn called_later<'a>(name: &str, matches: &ArgMatches<'a>) -> Option<Call<'a>>
    requires no_list { bytes_eq name.now (codes "list") ≡ false }
    requires no_replay { bytes_eq name.now (codes "replay") ≡ false }
    requires no_record { bytes_eq name.now (codes "record") ≡ false }
    requires no_migrate { bytes_eq name.now (codes "migrate") ≡ false }
    requires no_solve { bytes_eq name.now (codes "solve") ≡ false }
    ensures { option_map plain_call result ≡ spec.called (name.now, rows_of (found_of matches.now)) }
{
    if name == "check" {
        check_in(matches)
    } else if name == "workload" {
        workload_in(matches)
    } else if name == "cnf" {
        export_in(matches)
    } else if name == "import" {
        import_in(matches)
    } else if name == "why" {
        explain_in(matches)
    } else {
        None
    }
}

fn list_in<'a>(matches: &ArgMatches<'a>) -> Option<Call<'a>>
    ensures { option_map plain_call result ≡ spec.list_in (rows_of (found_of matches.now)) }
{
    let program = text(matches, "program")?;
    Some(Call::List { program })
}

fn replay_in<'a>(matches: &ArgMatches<'a>) -> Option<Call<'a>>
    ensures { option_map plain_call result ≡ spec.replay_in (rows_of (found_of matches.now)) }
{
    let ((program, log), schedule) = three_in(matches, "schedule")?;
    Some(Call::Replay {
        program,
        log,
        schedule,
    })
}

fn record_in<'a>(matches: &ArgMatches<'a>) -> Option<Call<'a>>
    ensures { option_map plain_call result ≡ spec.record_in (rows_of (found_of matches.now)) }
{
    let (program, log) = both_in(matches)?;
    let model = model_in(matches)?;
    let seed = seed_in(matches)?;
    let steps = steps_in(matches)?;
    Some(Call::Record {
        program,
        log,
        model,
        seed,
        steps,
    })
}

fn migrate_in<'a>(matches: &ArgMatches<'a>) -> Option<Call<'a>>
    ensures { option_map plain_call result ≡ spec.migrate_in (rows_of (found_of matches.now)) }
{
    let ((program, log), out) = three_in(matches, "out")?;
    Some(Call::Migrate { program, log, out })
}

fn solve_in<'a>(matches: &ArgMatches<'a>) -> Option<Call<'a>>
    ensures { option_map plain_call result ≡ spec.solve_in (rows_of (found_of matches.now)) }
{
    let ((program, log), out) = three_in(matches, "out")?;
    let model = model_in(matches)?;
    let budget = budget_in(matches)?;
    Some(Call::Solve {
        program,
        log,
        out,
        model,
        budget,
        least: text(matches, "least"),
    })
}

fn check_in<'a>(matches: &ArgMatches<'a>) -> Option<Call<'a>>
    ensures { option_map plain_call result ≡ spec.check_in (rows_of (found_of matches.now)) }
{
    let ((program, log), refutation) = three_in(matches, "refutation")?;
    Some(Call::Check {
        program,
        log,
        refutation,
    })
}

fn workload_in<'a>(matches: &ArgMatches<'a>) -> Option<Call<'a>>
    ensures { option_map plain_call result ≡ spec.workload_in (rows_of (found_of matches.now)) }
{
    let workers = workers_in(matches)?;
    let seed = given_seed_in(matches)?;
    Some(Call::Workload { workers, seed })
}

fn export_in<'a>(matches: &ArgMatches<'a>) -> Option<Call<'a>>
    ensures { option_map plain_call result ≡ spec.export_in (rows_of (found_of matches.now)) }
{
    let ((program, log), out) = three_in(matches, "out")?;
    let model = model_in(matches)?;
    Some(Call::Cnf {
        program,
        log,
        out,
        model,
    })
}

fn import_in<'a>(matches: &ArgMatches<'a>) -> Option<Call<'a>>
    ensures { option_map plain_call result ≡ spec.import_in (rows_of (found_of matches.now)) }
{
    let ((program, log), answer) = three_in(matches, "answer")?;
    let out = text(matches, "out")?;
    let model = model_in(matches)?;
    Some(Call::Import {
        program,
        log,
        answer,
        out,
        model,
    })
}

fn explain_in<'a>(matches: &ArgMatches<'a>) -> Option<Call<'a>>
    ensures { option_map plain_call result ≡ spec.explain_in (rows_of (found_of matches.now)) }
{
    let ((program, log), refutation) = three_in(matches, "refutation")?;
    Some(Call::Why {
        program,
        log,
        refutation,
    })
}

/// The names of a program, its log and one more file.
fn three_in<'a>(matches: &ArgMatches<'a>, id: &str) -> Option<((&'a str, &'a str), &'a str)>
    ensures { option_map plain_three result ≡ spec.three_in id.now (rows_of (found_of matches.now)) }
{
    let both = both_in(matches)?;
    let file = text(matches, id)?;
    Some((both, file))
}

/// The names of a program and its log.
fn both_in<'a>(matches: &ArgMatches<'a>) -> Option<(&'a str, &'a str)>
    ensures { option_map plain_two result ≡ spec.both_in (rows_of (found_of matches.now)) }
{
    let program = text(matches, "program")?;
    let log = text(matches, "log")?;
    Some((program, log))
}
