//! What the commands are asked, by what the words say.
ghost use Rattle.std.specs.Prelude.{◌≡◌, option_map, unwrap_or};
ghost use Rattle.check_command.specs.Meanings.{names_of};
ghost use Rattle.cnf_command.specs.Calls.{plain_cnf};
ghost use Rattle.import_command.specs.Calls.{plain_import};
ghost use Rattle.least_command.specs.Calls.{plain_least};
ghost use Rattle.log_tasks.specs.declared.budget.TheConstants.{USUAL_BUDGET};
ghost use Rattle.migrate_command.specs.Meanings.{plain_migrate};
ghost use Rattle.record_command.specs.Runs.{plain_record};
ghost use Rattle.solve_command.specs.Calls.{plain_solve};
ghost use Rattle.why_command.specs.Meanings as why;
ghost use Rattle.workload_command.specs.Works.{plain_workload};
ghost use Rattle.clap_debug_cli.specs.Requests as spec;

use check_command::Check;
use clap_debug_words::{Budget as Written, Workers as Counted};
use cnf_command::Cnf;
use command_frame::Entire;
use command_inputs::{LogFile, ProgramFile, ScheduleFile};
use import_command::{AnswerFile, Import};
use least_command::Least;
use list_command::List;
use log_tasks::{Budget, USUAL_BUDGET};
use memory_models::Model;
use migrate_command::Migrate;
use record_command::Record;
use replay_command::Replay;
use solve_command::Solve;
use tc_limits::limits::MOVES;
use why_command::Why;
use workload_command::{Workers, Workload};

pub(crate) fn listed<'a>(program: &'a str) -> List<'a>
    ensures { result.program.name ≡ program.entry }
{
    List {
        program: ProgramFile { name: program },
    }
}

pub(crate) fn replayed<'a>(program: &'a str, log: &'a str, schedule: &'a str) -> Replay<'a>
    ensures program { result.inputs.0.0.name ≡ program.entry }
    ensures log { result.inputs.0.1.name ≡ log.entry }
    ensures schedule { result.inputs.1.name ≡ schedule.entry }
{
    Replay {
        inputs: (both(program, log), ScheduleFile { name: schedule }),
    }
}

/// `record`, with the defaults of options that aren't written.
pub(crate) fn recorded<'a>(
    program: &'a str,
    log: &'a str,
    model: Option<Model>,
    seed: Option<u64>,
    steps: Option<u32>,
) -> Record<'a>
    ensures { plain_record result ≡ spec.recorded program.entry.now log.entry.now model seed steps }
{
    Record {
        program: ProgramFile { name: program },
        log,
        model: model.unwrap_or(Model::Tso),
        seed: seed.unwrap_or(0),
        steps: steps.unwrap_or(MOVES),
    }
}

pub(crate) fn migrated<'a>(program: &'a str, log: &'a str, out: &'a str) -> Migrate<'a>
    ensures { plain_migrate result ≡ spec.migrated program.entry.now log.entry.now out.entry.now }
{
    Migrate {
        inputs: both(program, log),
        out,
    }
}

/// `solve`, with the default budget if none is written.
pub(crate) fn solved<'a>(
    program: &'a str,
    log: &'a str,
    out: &'a str,
    model: Option<Model>,
    budget: Option<Written>,
) -> Solve<'a>
    ensures { plain_solve result
        ≡ spec.solved program.entry.now log.entry.now out.entry.now model (option_map (λ b. b.conflicts) budget) }
{
    Solve {
        inputs: both(program, log),
        out,
        model,
        budget: usual(budget),
    }
}

/// The budget that is written, or the default.
fn usual(budget: Option<Written>) -> Budget
    ensures { result.conflicts ≡ unwrap_or (option_map (λ b. b.conflicts) budget) USUAL_BUDGET }
{
    match budget {
        Some(budget) => Budget {
            conflicts: budget.conflicts,
        },
        None => Budget {
            conflicts: USUAL_BUDGET,
        },
    }
}

/// The same search, for the fewest switches.
pub(crate) fn minimized<'a>(solve: &Solve<'a>, refutation: &'a str) -> Least<'a>
    ensures { plain_least result ≡ spec.minimized (plain_solve solve.now) refutation.entry.now }
{
    Least {
        inputs: solve.inputs,
        out: solve.out,
        refutation,
        model: solve.model,
        budget: solve.budget,
    }
}

pub(crate) fn checked<'a>(program: &'a str, log: &'a str, refutation: &'a str) -> Check<'a>
    ensures { names_of result ≡ spec.refuted program.entry.now log.entry.now refutation.entry.now }
{
    Check {
        inputs: both(program, log),
        refutation,
    }
}

pub(crate) fn worked(workers: Counted, seed: u64) -> Workload
    ensures { plain_workload result ≡ spec.worked workers.count seed }
{
    Workload {
        workers: Workers {
            count: workers.count,
        },
        seed,
    }
}

pub(crate) fn exported<'a>(
    program: &'a str,
    log: &'a str,
    out: &'a str,
    model: Option<Model>,
) -> Cnf<'a>
    ensures { plain_cnf result ≡ spec.asked program.entry.now log.entry.now out.entry.now model }
{
    Cnf {
        inputs: both(program, log),
        out,
        model,
    }
}

pub(crate) fn imported<'a>(
    program: &'a str,
    log: &'a str,
    answer: &'a str,
    out: &'a str,
    model: Option<Model>,
) -> Import<'a>
    ensures { plain_import result
        ≡ spec.imported program.entry.now log.entry.now answer.entry.now out.entry.now model }
{
    Import {
        inputs: (both(program, log), AnswerFile { name: answer }),
        out,
        model,
    }
}

pub(crate) fn explained<'a>(program: &'a str, log: &'a str, refutation: &'a str) -> Why<'a>
    ensures { why.names_of result ≡ spec.refuted program.entry.now log.entry.now refutation.entry.now }
{
    Why {
        inputs: (both(program, log), Entire { name: refutation }),
    }
}

/// The files of a program and its log.
fn both<'a>(program: &'a str, log: &'a str) -> (ProgramFile<'a>, LogFile<'a>)
    ensures program { result.0.name ≡ program.entry }
    ensures log { result.1.name ≡ log.entry }
{
    (ProgramFile { name: program }, LogFile { name: log })
}
