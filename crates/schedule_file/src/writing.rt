//! From a schedule to its text.
ghost use Rattle.std.specs.Prelude.{◌≡◌, ◌++◌, IfOk, string_bytes};
ghost use Rattle.schedule_file.specs.Schedules.{header, line, schedule_text};

use crate::schedule::Schedule;
use memory_models::Model;
use std::alloc::{AllocError, Global};
use tc_base::Move;

/// The text of a schedule.
pub fn write_schedule(alloc: Global, schedule: &Schedule) -> Result<Vec<u8>, AllocError>
    ensures { IfOk result (λ text. text.items ≡ schedule_text schedule.now.model schedule.now.moves.items) }
{
    let mut text = header_text(alloc, schedule.model)?;
    for next in &schedule.moves {
        text.push_str(line_text(alloc, next)?.as_str())?;
    }
    Ok(text.into_bytes())
}

fn header_text(alloc: Global, model: Model) -> Result<String, AllocError>
    ensures { IfOk result (λ text. string_bytes text ≡ header model) }
{
    format!(in alloc; "clap-schedule 1 {model}\n")
}

fn line_text(alloc: Global, next: &Move) -> Result<String, AllocError>
    ensures { IfOk result (λ text. string_bytes text ≡ line next.now) }
{
    match next {
        Move::Run(name) => format!(in alloc; "r {name}\n"),
        Move::Wake(name, waiter) => format!(in alloc; "w {name} {waiter}\n"),
        Move::Drain(name, None) => format!(in alloc; "d {name}\n"),
        Move::Drain(name, Some(cell)) => format!(in alloc; "d {name} {cell}\n"),
    }
}
