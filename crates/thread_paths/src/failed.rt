//! Branches that show that a compare-and-exchange failed.
ghost use Rattle.std.specs.Prelude.{◌≡◌, ◌+◌, ◌<◌, ◌^◌, pos, slice_index_or, List, ℤ, IfSome, IsTrue};
ghost use Rattle.tc_code.specs.Expr.{value_of};
ghost use Rattle.thread_paths.specs.Turns.{RulesOut};

use crate::leads::place_after;
use int_ops::arith;
use tc_code::{Expr, Instr, Node};

/// The value of an expression that uses no slot but this one, given the slot's value.
fn value_with(e: &Expr, slot: usize, value: i32) -> Option<i32>
    ensures { IfSome result (λ v. (slots : List ℤ) → slice_index_or slots slot (pos 0) ≡ value → value_of e.now slots ≡ v) }
{
    match &e.node {
        Node::Number(number) => Some(*number),
        Node::Slot(used) => if *used as usize == slot {
            Some(value)
        } else {
            None
        },
        Node::Unary(op, operand) => { Some(arith::unary(*op, value_with(operand, slot, value)?)) }
        Node::Binary(op, left, right) => {
            let left = value_with(left, slot, value)?;
            let right = value_with(right, slot, value)?;
            Some(arith::binary(*op, left, right))
        }
    }
}

/// Whether a branch at one place can't lead to another while the slot has this value.
pub fn rules_out(instr: &Instr, from: usize, to: usize, slot: usize, value: i32) -> bool
    requires { from + 1 < 2 ^ 64 }
    ensures { IsTrue result → RulesOut instr.now from to slot value }
{
    let Instr::Branch { condition, .. } = instr else {
        return false;
    };
    let Some(tested) = value_with(condition, slot, value) else {
        return false;
    };
    place_after(instr, from, tested != 0) != to
}
