//! The lines of what searches find.
ghost use Rattle.std.specs.Prelude.{◌≡◌, IfOk, string_bytes};
ghost use Rattle.log_tasks.specs.Lines.{impossible_line, moves_line, spent_line};

use refute_check::Derivation;
use schedule_file::Schedule;
use std::alloc::{AllocError, Global};

/// The line for a schedule.
pub fn moves_line(alloc: Global, schedule: &Schedule) -> Result<String, AllocError>
    ensures { IfOk result (λ text. string_bytes text ≡ moves_line schedule.now.moves.items) }
{
    let moves = schedule.moves.len();
    format!(in alloc; "schedule {moves} moves\n")
}

/// The line for a refutation of all schedules.
pub fn impossible_line(alloc: Global, derivation: &Derivation) -> Result<String, AllocError>
    ensures { IfOk result (λ text. string_bytes text ≡ impossible_line derivation.now) }
{
    let lines = derivation.lines().len();
    format!(in alloc; "impossible, {lines} lines\n")
}

/// The line for a search that was given up after this many conflicts.
pub fn spent_line(alloc: Global, conflicts: u32) -> Result<String, AllocError>
    ensures { IfOk result (λ text. string_bytes text ≡ spent_line conflicts) }
{
    format!(in alloc; "spent after {conflicts} conflicts\n")
}
