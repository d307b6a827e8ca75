//! From a text to its schedule.
ghost use Rattle.std.specs.Prelude.{◌≡◌, ◌<◌, ◌+◌, ◌++◌, length, IfOk, IfErr};
ghost use Rattle.schedule_file.specs.Schedules.{schedule_text, header};
ghost use Rattle.schedule_file.specs.Faults.{IsFault};

use crate::fault::ScheduleFault;
use crate::moves::{header_at, move_at};
use crate::schedule::Schedule;
use std::alloc::Global;
use tc_base::Move;
use tc_limits::limits::SCHEDULE_BYTES;

/// The most lines of a schedule, with the header: as many as it may have bytes.
const MOST_LINES: usize = SCHEDULE_BYTES as usize;

/// Reads a schedule from its text.
///
/// A text is either exactly one schedule or breaks the format at exactly one line, so only one
/// answer is right, apart from `Memory`. The time is linear in the text.
pub fn read_schedule(alloc: Global, text: &[u8]) -> Result<Schedule, ScheduleFault>
    ensures found { IfOk result (λ schedule. text.now ≡ schedule_text schedule.model schedule.moves.items) }
    ensures refused { IfErr result (λ fault. IsFault text.now fault) }
{
    let Some((model, lines)) = header_at(text) else {
        return Err(ScheduleFault::Form(1));
    };
    let mut moves: Vec<Move> = Vec::new(alloc);
    let mut rest = lines;
    while !rest.is_empty() {
        let line = moves.len() + 2;
        if line > MOST_LINES {
            return Err(ScheduleFault::Form(line as u32));
        }
        let Some((next, after)) = move_at(alloc, model, rest)? else {
            return Err(ScheduleFault::Form(line as u32));
        };
        moves.push(next)?;
        rest = after;
    }
    Ok(Schedule { model, moves })
}
