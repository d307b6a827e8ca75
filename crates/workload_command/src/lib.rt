//! `workload N SEED`: a generated program, a run of it, and searches of its log.
#![tactic(auto)]

ghost use Rattle.std.specs.Prelude.{IfSome};
ghost use Rattle.command_frame.specs.Run.{Runs};
ghost use Rattle.workload_command.specs.Answers.{WorkloadAnswers};
ghost use Rattle.workload_command.specs.Meanings.{workload_of};
ghost use Rattle.workload_command.specs.Works.{plain_workload};

mod command;
mod line;
mod work;
mod workers;

pub use command::Workload;
use command_frame::run;
use std::alloc::Global;
use tc_io::{Shelf, Sink};
pub use work::Work;
pub use workers::{WORKERS, Workers};

/// Generates a program, runs it, and searches its log. It reads and keeps no file.
pub fn try_workload<H: Shelf, K: Sink>(
    alloc: Global,
    workload: &Workload,
    shelf: &mut H,
    sink: &mut K,
) -> u8
    ensures runs { Runs (workload_of (plain_workload workload.now)) (H.tells shelf.old) (H.tells shelf.new) result (K.tells sink.old) (K.tells sink.new) }
    ensures answers { IfSome (H.tells shelf.old).held (λ files. WorkloadAnswers (plain_workload workload.now) files
        (record { status = result; held = (H.tells shelf.new).held; before = K.tells sink.old; after = K.tells sink.new })) }
{
    run(alloc, workload, shelf, sink)
}
