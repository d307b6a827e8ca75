//! How a schedule ended, in words.

use crate::program::Program;
use crate::values::push_values;
use crate::wording::waker_of;
use show_deeds::Deed;
use show_rows::{End, Row, Standing, Told};
use std::alloc::AllocError;
use tc_base::{Request, ThreadName};

/// Adds how a schedule ended, in lines: a failure with the values that the failing statement used,
/// else the place of each thread that hasn't exited.
pub fn push_end(out: &mut String, program: Program<'_>, told: &Told) -> Result<(), AllocError> {
    match told.end {
        End::Failed => return push_failure(out, program, told.rows.as_slice()),
        End::Finished => out.push_str("every thread has exited\n")?,
        End::Deadlock => out.push_str("deadlock: no move is enabled\n")?,
        End::Open => out.push_str("the schedule ends here, other moves are enabled\n")?,
        End::Stopped(why) => {
            let number = told.rows.len().saturating_add(1);
            writeln!(out, "stops at move {number}: {why}")?;
        }
    }
    for thread in told.standing.iter() {
        push_place(out, program, thread)?;
        push_wait(out, program, told.rows.as_slice(), thread)?;
    }
    Ok(())
}

/// Adds the thread that failed, its place, and the values that the failing statement used.
fn push_failure(out: &mut String, program: Program<'_>, rows: &[Row]) -> Result<(), AllocError> {
    let Some(row) = rows.last() else {
        return Ok(());
    };
    let name = row.deed.thread();
    let line = program.line(row.function, row.instruction);
    let source = program.names.line(line);
    writeln!(out, "{name} fails at line {line}: {source}")?;
    push_values(out, program, rows, name)
}

/// Adds the place of a thread.
fn push_place(out: &mut String, program: Program<'_>, thread: &Standing) -> Result<(), AllocError> {
    let name = &thread.thread;
    let function = program.called(thread.function);
    let line = program.line(thread.function, thread.instruction);
    let source = program.names.line(line);
    write!(out, "  {name} {function} is at line {line}: {source}")
}

/// Adds what a thread waits for, if it waits, and the end of its line.
fn push_wait(
    out: &mut String,
    program: Program<'_>,
    rows: &[Row],
    thread: &Standing,
) -> Result<(), AllocError> {
    let name = &thread.thread;
    match thread.asks {
        Request::EndWait(condition, _) if waker_of(rows, name, condition).is_none() => {
            let condition = program.names.condition(condition);
            writeln!(out, "  waits for a signal on {condition}")
        }
        Request::Acquire(mutex) | Request::EndWait(_, mutex) => {
            push_owner(
                out,
                program.names.mutex(mutex),
                rows,
                owner_of(rows, mutex),
                name,
            )
        }
        Request::Await(number) if number > 0 && !has_exited(rows, name, Some(number)) => {
            writeln!(out, "  waits for the end of {name}.{number}")
        }
        _ => out.push('\n'),
    }
}

/// Adds the wait of a thread for a mutex, if another thread or itself holds it.
fn push_owner(
    out: &mut String,
    mutex: &str,
    rows: &[Row],
    owner: Option<&ThreadName>,
    name: &ThreadName,
) -> Result<(), AllocError> {
    let Some(owner) = owner else {
        return out.push('\n');
    };
    if owner == name {
        return writeln!(out, "  waits for {mutex}, which it has itself");
    }
    let exited = if has_exited(rows, owner, None) {
        ", though it has exited"
    } else {
        ""
    };
    writeln!(out, "  waits for {mutex}, which {owner} has{exited}")
}

/// The thread that holds a mutex after the rows: that of the last step which took it, if none has
/// released it since.
fn owner_of(rows: &[Row], mutex: u32) -> Option<&ThreadName> {
    for row in rows.iter().rev() {
        if let Deed::Did(step) = &row.deed {
            match step.asks {
                Request::Acquire(taken) | Request::EndWait(_, taken) if taken == mutex => {
                    return Some(&step.thread);
                }
                Request::Release(left) | Request::BeginWait(_, left) if left == mutex => {
                    return None;
                }
                _ => {}
            }
        }
    }
    None
}

/// Whether a thread, or its child of a number, has exited after the rows.
fn has_exited(rows: &[Row], name: &ThreadName, child: Option<u32>) -> bool {
    for row in rows {
        if let Deed::Did(step) = &row.deed
            && matches!(step.asks, Request::Finish)
            && is_named(&step.thread, name, child)
        {
            return true;
        }
    }
    false
}

/// Whether a thread is the one of a name, or its child of a number.
fn is_named(thread: &ThreadName, name: &ThreadName, child: Option<u32>) -> bool {
    match child {
        Some(number) => thread.is_child_of(name, number),
        None => thread == name,
    }
}
