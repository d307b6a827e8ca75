//! The page of a schedule.

use crate::fixed::MOVES;
use crate::list::{Item, begin_page, end_page, push_entry};
use crate::script::MOVES_SCRIPT;
use schedule_file::Schedule;
use show_deeds::Deed;
use show_rows::{End, Row, Standing, Told};
use show_words::{Effect, Program, Shown, push_end, show_moves};
use std::alloc::{AllocError, Global};

/// The page of a schedule's moves. It has a lane for each thread, with time downwards, and an arrow
/// from the store to each load that took its value and from each store's issue to its drain. It
/// also has the program with the line of each thread, and memory, buffers, mutexes and threads
/// after the selected move. `name` is the program's name in the title.
pub fn schedule_page(
    alloc: Global,
    name: &str,
    program: Program<'_>,
    schedule: &Schedule,
    told: &Told,
) -> Result<String, AllocError> {
    let shown = show_moves(alloc, program, schedule.model, told.rows.as_slice())?;
    let mut out = begin_page(alloc)?;
    push_run(&mut out, name, program, schedule, told)?;
    push_program(&mut out, program)?;
    push_names(&mut out, "mutex", program.names.mutexes())?;
    push_names(&mut out, "condition", program.names.conditions())?;
    for thread in told.standing.iter() {
        push_standing(&mut out, program, thread)?;
    }
    for (row, shown) in told.rows.iter().zip(shown.as_slice()) {
        push_move(&mut out, row, shown)?;
    }
    end_page(&mut out, MOVES, &MOVES_SCRIPT)?;
    Ok(out)
}

/// Adds the names of the program and of the memory model, and how the run ended.
fn push_run(
    out: &mut String,
    name: &str,
    program: Program<'_>,
    schedule: &Schedule,
    told: &Told,
) -> Result<(), AllocError> {
    let mut end = String::new(*out.allocator());
    push_end(&mut end, program, told)?;
    let is_failure = matches!(told.end, End::Failed | End::Deadlock);
    let items = [
        Item::Text(name),
        Item::Text(schedule.model.name()),
        Item::Number(i64::from(is_failure)),
        Item::Text(end.as_str()),
    ];
    push_entry(out, "run", &items)
}

/// Adds the lines of the program, each as it is written and as it is shown at a move, and the cells
/// with their values at the start.
fn push_program(out: &mut String, program: Program<'_>) -> Result<(), AllocError> {
    let mut number = 0u32;
    for line in program.names.source() {
        number = number.saturating_add(1);
        let shown = program.names.line(number);
        push_entry(out, "line", &[Item::Text(line.as_str()), Item::Text(shown)])?;
    }
    for (cell, value) in program.names.cells().iter().zip(program.code.memory()) {
        let items = [Item::Text(cell.as_str()), Item::Number(i64::from(*value))];
        push_entry(out, "cell", &items)?;
    }
    Ok(())
}

/// Adds names of a kind.
fn push_names(out: &mut String, kind: &str, names: &[String]) -> Result<(), AllocError> {
    for name in names {
        push_entry(out, kind, &[Item::Text(name.as_str())])?;
    }
    Ok(())
}

/// Adds the place of a thread at the end, and what its next step asks of others.
fn push_standing(
    out: &mut String,
    program: Program<'_>,
    thread: &Standing,
) -> Result<(), AllocError> {
    let title = program.title(*out.allocator(), &thread.thread, thread.function)?;
    let line = program.line(thread.function, thread.instruction);
    let effect = Effect::asked(thread.asks, 0, false);
    push_place(out, title.as_str(), line, effect)
}

/// Adds a thread at a line, and the effect of its next step.
fn push_place(out: &mut String, title: &str, line: u32, effect: Effect) -> Result<(), AllocError> {
    let items = [
        Item::Text(title),
        Item::Number(i64::from(line)),
        Item::Text(effect.kind),
        Item::number(effect.mutex),
        Item::number(effect.child),
    ];
    push_entry(out, "standing", &items)
}

/// Adds a move.
fn push_move<'a>(out: &mut String, row: &'a Row, shown: &'a Shown) -> Result<(), AllocError> {
    let other = match &row.deed {
        Deed::Did(step) => step.other.as_ref(),
        Deed::Drained(_) => None,
    };
    let effect = shown.effect;
    let items = [
        Item::Text(shown.thread.as_str()),
        Item::Number(i64::from(shown.line)),
        Item::Number(i64::from(row.deed.number())),
        Item::Text(effect.kind),
        Item::number(effect.cell),
        Item::number(effect.mutex),
        Item::number(effect.condition),
        Item::value(effect.took),
        Item::value(effect.put),
        Item::thread(other),
        Item::number(effect.child),
        Item::Text(shown.words.as_str()),
        Item::text(shown.brief.as_ref()),
    ];
    push_entry(out, "move", &items)
}
