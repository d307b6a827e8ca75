//! The top call: from the words to the command that they ask for.
#![tactic(auto)]

ghost use Rattle.std.specs.Prelude.{◌≡◌, ◌≤◌, List, ℕ, None, Option, Some, length, map, option_map, string_bytes, true, unwrap_or};
ghost use Rattle.tc_io.specs.Outside.{Files, bytes_at};
ghost use Rattle.command_frame.specs.End.{End};
ghost use Rattle.clap_debug_words.specs.Calls.{Records, Solves};
ghost use Rattle.record_command.specs.Logs.{allows};
ghost use Rattle.replay_command.specs.memory_models.declared.model.Model.TheVariants.{Tso};
ghost use Rattle.command_frame.specs.Answers.{SaysLine};
ghost use Rattle.command_frame.specs.declared.status.Status.TheVariants.{Usage};
ghost use Rattle.list_command.specs.command_inputs.Forms.{IsSchedule};
ghost use Rattle.cnf_command.specs.log_tasks.Tasks.{Reproduces, Task, model_of};
ghost use Rattle.replay_command.specs.memory_models.declared.model.Model.{Model};
ghost use Rattle.replay_command.specs.Causes.{IsReplayed};
ghost use Rattle.replay_command.specs.schedule_replay.declared.verdict.Verdict.TheVariants as verdict;
ghost use Rattle.record_command.specs.tc_base.declared.moves.Move.{Move};
ghost use Rattle.migrate_command.specs.tc_limits.declared.limits.TheConstants.{SCHEDULE_BYTES};
ghost use Rattle.solve_command.specs.Calls.{plain_solve};
ghost use Rattle.clap_debug_words.specs.Calls.{call_of, plain_call};
ghost use Rattle.clap_debug_cli.specs.Call.{Answers, Does, IfTold, RunsCall, RunsSearch, usage_text};
ghost use Rattle.clap_debug_cli.specs.Sound.{SoundOf};

mod requests;

use check_command::check_refutation;
use clap_debug_words::{Call, call_of};
use cnf_command::export_clauses;
use command_frame::{say_no_memory, say_usage};
use import_command::import_answer;
use least_command::find_least;
use list_command::list;
use migrate_command::migrate_log;
use record_command::record_run;
use replay_command::replay_files;
use requests::{
    checked, explained, exported, imported, listed, migrated, minimized, recorded, replayed,
    solved, worked,
};
use solve_command::{Solve, solve_log};
use std::alloc::Global;
use tc_io::{Shelf, Sink};
use why_command::explain_refutation;
use workload_command::try_workload;

const USAGE: &str = concat!(
    "usage: clap_debug record PROGRAM LOG [--model sc|tso|pso] [--seed N] [--steps N]\n",
    "usage: clap_debug solve PROGRAM LOG OUT [--model sc|tso|pso] [--budget N] [--least REFUTATION]\n",
    "usage: clap_debug replay PROGRAM LOG SCHEDULE\n",
    "usage: clap_debug check PROGRAM LOG REFUTATION\n",
    "usage: clap_debug list PROGRAM\n",
    "usage: clap_debug workload N SEED\n",
    "usage: clap_debug migrate PROGRAM LOG OUT\n",
    "usage: clap_debug cnf PROGRAM LOG OUT [--model sc|tso|pso]\n",
    "usage: clap_debug import PROGRAM LOG ANSWER OUT [--model sc|tso|pso]\n",
    "usage: clap_debug why PROGRAM LOG REFUTATION\n",
);

/// Does what the words ask for with the files of the shelf, puts one line or a listing into the
/// sink, and returns the exit status.
///
/// The first word is the program's own name.
pub fn clap_debug<H: Shelf, K: Sink>(
    alloc: Global,
    words: &[String],
    shelf: &mut H,
    sink: &mut K,
) -> u8
    ensures sound { IfTold (map string_bytes words.now) (H.tells shelf.old).held (λ call files. SoundOf call files (H.tells shelf.new).held result) }
    ensures call { Does (call_of (map string_bytes words.now)) (H.tells shelf.old) (H.tells shelf.new) result (K.tells sink.old) (K.tells sink.new) }
    ensures answers { IfTold (map string_bytes words.now) (H.tells shelf.old).held (λ call files. Answers call files
        (record { status = result; held = (H.tells shelf.new).held; before = K.tells sink.old; after = K.tells sink.new })) }
{
    match call_of(alloc, words) {
        Ok(Some(call)) => run_call(alloc, &call, shelf, sink),
        Ok(None) => put_usage(sink),
        Err(_) => say_no_memory(sink),
    }
}

/// Runs the command of a call.
fn run_call<H: Shelf, K: Sink>(alloc: Global, call: &Call<'_>, shelf: &mut H, sink: &mut K) -> u8
    ensures { RunsCall (plain_call call.now) (H.tells shelf.old) (H.tells shelf.new) result (K.tells sink.old) (K.tells sink.new) }
{
    match *call {
        Call::List { program } => list(alloc, &listed(program), shelf, sink),
        Call::Replay {
            program,
            log,
            schedule,
        } => replay_files(alloc, &replayed(program, log, schedule), shelf, sink),
        Call::Record {
            program,
            log,
            model,
            seed,
            steps,
        } => {
            let record = recorded(program, log, model, seed, steps);
            record_run(alloc, &record, shelf, sink)
        }
        Call::Migrate { program, log, out } => {
            migrate_log(alloc, &migrated(program, log, out), shelf, sink)
        }
        Call::Solve {
            program,
            log,
            out,
            model,
            budget,
            least,
        } => {
            let solve = solved(program, log, out, model, budget);
            search(alloc, &solve, least, shelf, sink)
        }
        Call::Check {
            program,
            log,
            refutation,
        } => check_refutation(alloc, &checked(program, log, refutation), shelf, sink),
        Call::Workload { workers, seed } => {
            try_workload(alloc, &worked(workers, seed), shelf, sink)
        }
        Call::Cnf {
            program,
            log,
            out,
            model,
        } => export_clauses(alloc, &exported(program, log, out, model), shelf, sink),
        Call::Import {
            program,
            log,
            answer,
            out,
            model,
        } => {
            let import = imported(program, log, answer, out, model);
            import_answer(alloc, &import, shelf, sink)
        }
        Call::Why {
            program,
            log,
            refutation,
        } => explain_refutation(alloc, &explained(program, log, refutation), shelf, sink),
    }
}

/// Solves a log, with the fewest switches if there is a name for the refutation of fewer.
fn search<'a, H: Shelf, K: Sink>(
    alloc: Global,
    solve: &Solve<'a>,
    refutation: Option<&'a str>,
    shelf: &mut H,
    sink: &mut K,
) -> u8
    ensures { RunsSearch (plain_solve solve.now) (option_map (λ s. s.now) refutation.entry)
        (H.tells shelf.old) (H.tells shelf.new) result (K.tells sink.old) (K.tells sink.new) }
{
    match refutation {
        Some(refutation) => find_least(alloc, &minimized(solve, refutation), shelf, sink),
        None => solve_log(alloc, solve, shelf, sink),
    }
}

/// Puts the usage.
fn put_usage<K: Sink>(sink: &mut K) -> u8
    ensures { SaysLine usage_text Usage result (K.tells sink.old) (K.tells sink.new) }
{
    say_usage(USAGE, sink)
}

/// A schedule that `solve`, `solve --least` or `import` keeps is accepted: it isn't too long for
/// `replay`, which answers, for the same program and log, that it reproduces the log.
pub fn schedules_are_accepted()
    ensures { (program log : List ℕ) (task : Task program log) (asked : Option Model) (moves : List Move) (text : List ℕ)
        → Reproduces asked task.pair moves → IsSchedule text (record { model = model_of asked task.pair; moves = moves })
        → (length text ≤ SCHEDULE_BYTES) × IsReplayed program log text verdict.Reproduces }
{}

/// `solve` never ends with status 1 for a log that `record` kept, under the memory model of the run
/// or one that allows more, as long as PROGRAM holds the same program.
pub fn recorded_logs_are_never_impossible()
    ensures { (program log out : List ℕ) (model asked : Option Model) (seed steps budget : Option ℕ) (files held : Files) (end : End) (now : Option Files) (status : ℕ)
        → Answers (Records program log model seed steps) files end → end.status ≡ 0 → end.held ≡ Some held
        → bytes_at held program ≡ bytes_at files program
        → allows (unwrap_or model Tso) (unwrap_or asked (unwrap_or model Tso)) ≡ true
        → SoundOf (Solves program log out asked budget None) held now status → status ≡ 1 → ⊥ }
{}
