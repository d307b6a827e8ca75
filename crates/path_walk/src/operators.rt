//! The number of operators in instructions.
ghost use Rattle.std.specs.Prelude.{◌≡◌, ℕ, map, sum, IfOk, slice_get, slice_index_or};
ghost use Rattle.tc_code.specs.Code.{instr_at};
ghost use Rattle.tc_code.specs.int_ops.Updates.{operands_of};
ghost use Rattle.path_walk.specs.Steps.{step_at, steps_at};
ghost use Rattle.path_walk.specs.Events.{operators, operators_in, operators_of};
ghost use Rattle.path_walk.specs.Paths.{saturated_count};

use int_ops::Update;
use std::alloc::{AllocError, Global};
use tc_code::{Cell, Code, Expr, Instr, Node};

/// The number of operators in an expression.
fn in_expr(e: &Expr) -> u64
    ensures { result ≡ saturated_count (operators e.now) }
{
    match &e.node {
        Node::Number(_) | Node::Slot(_) => 0,
        Node::Unary(_, operand) => in_expr(operand).saturating_add(1),
        Node::Binary(_, left, right) => in_expr(left)
            .saturating_add(in_expr(right))
            .saturating_add(1),
    }
}

/// The number of operators in a list of expressions.
fn in_exprs(exprs: &[Expr]) -> u64
    ensures { result ≡ saturated_count (sum (map operators exprs.now)) }
{
    let mut count: u64 = 0;
    for e in exprs {
        count = count.saturating_add(in_expr(e));
    }
    count
}

/// The number of operators in the index of an element.
fn in_cell(cell: &Cell<Expr>) -> u64
    ensures { result ≡ saturated_count (operators_in cell.now) }
{
    match cell {
        Cell::Fixed(_) => 0,
        Cell::Element { index, .. } => in_expr(index),
    }
}

/// The number of operators in the operands of an update.
fn in_update(update: &Update<Expr>) -> u64
    ensures { result ≡ saturated_count (sum (map operators (operands_of update.now))) }
{
    match update {
        Update::Swap(value) | Update::Add(value) => in_expr(value),
        Update::Cas(expected, value) => in_expr(expected).saturating_add(in_expr(value)),
    }
}

/// The number of operators in an instruction's expressions.
fn in_instr(instr: &Instr) -> u64
    ensures { result ≡ saturated_count (operators_of instr.now) }
{
    match instr {
        Instr::Set { value, .. } => in_expr(value),
        Instr::Load { cell, .. } => in_cell(cell),
        Instr::Store { cell, value } => in_cell(cell).saturating_add(in_expr(value)),
        Instr::Modify { cell, update, .. } => in_cell(cell).saturating_add(in_update(update)),
        Instr::Inside { index, .. } => in_expr(index),
        Instr::Branch { condition, .. } => in_expr(condition),
        Instr::Create { arguments, .. } => in_exprs(arguments.as_slice()),
        Instr::Assert(e) | Instr::Nonzero(e) | Instr::InRange(e) => in_expr(e),
        _ => 0,
    }
}

/// The instructions of a function; none if there is no such function.
fn instrs_of(code: &Code, function: usize) -> &[Instr]
    ensures { (k : ℕ) → slice_get result.now k ≡ instr_at code.now function k }
{
    match code.functions().get(function) {
        Some(f) => f.instrs.as_slice(),
        None => &[],
    }
}

/// The number of operators in each instruction of a function, in order.
fn in_function(alloc: Global, code: &Code, function: usize) -> Result<Vec<u64>, AllocError>
    ensures { IfOk result (λ counts. (k : ℕ) → slice_index_or counts.items k 0 ≡ saturated_count (operators_of (step_at code.now function k).instr)) }
{
    let mut counts = Vec::new(alloc);
    for instr in instrs_of(code, function) {
        counts.push(in_instr(instr))?;
    }
    Ok(counts)
}

/// The number of operators in the instructions of all steps at these places, saturating. It counts
/// the operators of an instruction once, however often the instruction is done.
pub fn operators(
    alloc: Global,
    code: &Code,
    function: usize,
    places: &[usize],
) -> Result<u64, AllocError>
    ensures { IfOk result (λ n. n ≡ saturated_count (sum (map (λ s. operators_of s.instr) (steps_at code.now function places.now)))) }
{
    let counts = in_function(alloc, code, function)?;
    let mut total: u64 = 0;
    for place in places {
        let count = counts.get(*place).copied().unwrap_or(0);
        total = total.saturating_add(count);
    }
    Ok(total)
}
