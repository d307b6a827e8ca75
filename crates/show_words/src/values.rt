//! The values that a failing statement used.

use crate::program::Program;
use show_deeds::{Deed, Step};
use show_rows::Row;
use std::alloc::AllocError;
use tc_base::{Request, ThreadName};
use tc_code::{Cell, Expr, Instr, Node};

/// Adds the values that the last statement of a thread used, a line for each: of each load, and of
/// each int of the body once.
pub(crate) fn push_values(
    out: &mut String,
    program: Program<'_>,
    rows: &[Row],
    thread: &ThreadName,
) -> Result<(), AllocError> {
    let mut ints = Vec::new(*out.allocator());
    for row in rows.iter().skip(first_at_end(program, rows, thread)) {
        if let Some(step) = step_of(row, thread) {
            if let Some(e) = used_by(program, row) {
                push_ints(out, program, row, e, &mut ints)?;
            }
            push_load(out, program, step)?;
        }
    }
    Ok(())
}

/// The place of the first row in the last statement of a thread.
fn first_at_end(program: Program<'_>, rows: &[Row], thread: &ThreadName) -> usize {
    let mut first = rows.len();
    for place in (0..rows.len()).rev() {
        if step_of(&rows[place], thread).is_some() {
            if first < rows.len() && !program.leads_on(&rows[place]) {
                return first;
            }
            first = place;
        }
    }
    first
}

/// The step of a row, if it is one of a thread.
fn step_of<'r>(row: &'r Row, thread: &ThreadName) -> Option<&'r Step> {
    match &row.deed {
        Deed::Did(step) if step.thread == *thread => Some(step),
        _ => None,
    }
}

/// The expression whose value a row's instruction uses.
fn used_by<'a>(program: Program<'a>, row: &Row) -> Option<&'a Expr> {
    match program.instr(row)? {
        Instr::Branch { condition: e, .. }
        | Instr::Set { value: e, .. }
        | Instr::Inside { index: e, .. }
        | Instr::Load {
            cell: Cell::Element { index: e, .. },
            ..
        }
        | Instr::Assert(e)
        | Instr::Nonzero(e)
        | Instr::InRange(e) => Some(e),
        _ => None,
    }
}

/// Adds the value that a step loaded, if it did.
fn push_load(out: &mut String, program: Program<'_>, step: &Step) -> Result<(), AllocError> {
    match step.asks {
        Request::Read(cell) => {
            let (name, took) = (program.names.cell(cell), step.took);
            writeln!(out, "  {name} = {took}")
        }
        _ => Ok(()),
    }
}

/// Adds the ints of the body that an expression names, but for those whose slots are in the list,
/// and adds theirs there.
fn push_ints(
    out: &mut String,
    program: Program<'_>,
    row: &Row,
    e: &Expr,
    ints: &mut Vec<u32>,
) -> Result<(), AllocError> {
    match &e.node {
        Node::Number(_) => Ok(()),
        Node::Slot(slot) => {
            if let (Some(name), Some(value)) = (
                program.names.int(row.function, *slot),
                row.slots.get(*slot as usize),
            )
                && !ints.contains(slot)
            {
                ints.push(*slot)?;
                writeln!(out, "  {name} = {value}")
            } else {
                Ok(())
            }
        }
        Node::Unary(_, operand) => push_ints(out, program, row, operand, ints),
        Node::Binary(_, left, right) => {
            push_ints(out, program, row, left, ints)?;
            push_ints(out, program, row, right, ints)
        }
    }
}
