//! The slots that an instruction reads and writes.
ghost use Rattle.std.specs.Prelude.{◌≡◌};
ghost use Rattle.std.specs.List.{list_any};
ghost use Rattle.tc_code.specs.int_ops.Updates.{operands_of};
ghost use Rattle.tc_code.specs.Expr.{names_slot};
ghost use Rattle.tc_code.specs.Lawful.{index_of};
ghost use Rattle.pure_turns.specs.Live.{reads_slot};
ghost use Rattle.slot_liveness.specs.helpers.Closed.{writes_slot};

use int_ops::Update;
use tc_code::{Cell, Expr, Instr, Node};

/// Whether an expression uses a slot.
fn names_slot(e: &Expr, slot: usize) -> bool
    ensures { result ≡ names_slot slot e.now }
{
    match &e.node {
        Node::Number(_) => false,
        Node::Slot(k) => *k as usize == slot,
        Node::Unary(_, operand) => names_slot(operand, slot),
        Node::Binary(_, left, right) => names_slot(left, slot) || names_slot(right, slot),
    }
}

/// Whether the index of an element uses a slot.
fn cell_names(cell: &Cell<Expr>, slot: usize) -> bool
    ensures { result ≡ list_any (names_slot slot) (index_of cell.now) }
{
    match cell {
        Cell::Fixed(_) => false,
        Cell::Element { index, .. } => names_slot(index, slot),
    }
}

/// Whether the operands of an update use a slot.
fn update_names(update: &Update<Expr>, slot: usize) -> bool
    ensures { result ≡ list_any (names_slot slot) (operands_of update.now) }
{
    match update {
        Update::Swap(value) | Update::Add(value) => names_slot(value, slot),
        Update::Cas(expected, value) => names_slot(expected, slot) || names_slot(value, slot),
    }
}

/// Whether an instruction reads a slot.
#[tactic(auto, using(crate::proofs::Names::names_both))]
pub fn reads_slot(instr: &Instr, slot: usize) -> bool
    ensures { result ≡ reads_slot slot instr.now }
{
    match instr {
        Instr::Set { value, .. } => names_slot(value, slot),
        Instr::Load { cell, .. } => cell_names(cell, slot),
        Instr::Store { cell, value } => cell_names(cell, slot) || names_slot(value, slot),
        Instr::Modify { cell, update, .. } => {
            cell_names(cell, slot) || update_names(update, slot)
        }
        Instr::Inside { index, .. } => names_slot(index, slot),
        Instr::Branch { condition, .. } => names_slot(condition, slot),
        Instr::Create { arguments, .. } => arguments
            .as_slice()
            .iter()
            .any(|argument| names_slot(argument, slot)),
        Instr::Assert(value) | Instr::Nonzero(value) | Instr::InRange(value) => {
            names_slot(value, slot)
        }
        _ => false,
    }
}

/// Whether an instruction writes a slot.
pub fn writes_slot(instr: &Instr, slot: usize) -> bool
    ensures { result ≡ writes_slot slot instr.now }
{
    match instr {
        Instr::Set { slot: written, .. }
        | Instr::Load { slot: written, .. }
        | Instr::Modify { slot: written, .. } => *written as usize == slot,
        _ => false,
    }
}
