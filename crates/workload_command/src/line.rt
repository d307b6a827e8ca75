//! The line and the status of what comes of a workload.
ghost use Rattle.std.specs.Prelude.{◌≡◌, IfOk, string_bytes};
ghost use Rattle.workload_command.specs.Lines.{found_words, work_line, work_status};
ghost use Rattle.workload_command.specs.Works.{plain_workload};

use crate::command::Workload;
use crate::work::Work;
use clap_solve::Answer;
use command_frame::Status;
use schedule_file::Schedule;
use std::alloc::{AllocError, Global};

/// The line that says it.
pub(crate) fn work_line(
    alloc: Global,
    workload: &Workload,
    work: &Work,
) -> Result<String, AllocError>
    ensures { IfOk result (λ text. string_bytes text ≡ work_line (plain_workload workload.now) work.now) }
{
    let (workers, seed, end) = (workload.workers.count, workload.seed, work.end);
    let tso = found_words(alloc, &work.tso)?;
    let sc = found_words(alloc, &work.sc)?;
    format!(in alloc; "workload {workers} {seed}: record {end}, tso {tso}, sc {sc}\n")
}

fn found_words(alloc: Global, found: &Answer<Schedule>) -> Result<String, AllocError>
    ensures { IfOk result (λ text. string_bytes text ≡ found_words found.now) }
{
    match found {
        Answer::Found(schedule) => {
            let moves = schedule.moves.len();
            format!(in alloc; "{moves} moves")
        }
        Answer::Impossible(_) => String::from_str(alloc, "impossible"),
        Answer::Spent(_) => String::from_str(alloc, "spent"),
    }
}

/// Its status.
pub(crate) fn work_status(work: &Work) -> Status
    ensures { result ≡ work_status work.now }
{
    match (&work.tso, &work.sc) {
        (Answer::Spent(_), _) | (_, Answer::Spent(_)) => Status::Open,
        _ => Status::Done,
    }
}
