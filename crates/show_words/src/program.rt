//! The program of the rows.

use int_ops::BinOp;
use show_names::Names;
use show_rows::Row;
use std::alloc::{AllocError, Global};
use std::slice::EscapeAscii;
use tc_base::ThreadName;
use tc_code::{Code, Expr, Instr, Node};

/// A program's code, with the names of its parts in the text.
#[derive(Clone, Copy)]
pub struct Program<'a> {
    pub names: &'a Names,
    pub code: &'a Code,
}

/// A `&&` or `||` of the text, which the code keeps in a slot of its own.
#[derive(Clone, Copy)]
pub(crate) struct Choice<'a> {
    /// Whether it is `||`.
    pub(crate) is_or: bool,
    pub(crate) left: &'a Expr,
}

impl<'a> Choice<'a> {
    /// The operator.
    pub(crate) fn sign(&self) -> &'static str {
        if self.is_or { "||" } else { "&&" }
    }
}

impl<'a> Program<'a> {
    /// The number of an instruction's line, from 1, or 0 if there is none.
    pub fn line(&self, function: usize, instruction: usize) -> u32 {
        self.code.line(function, instruction).unwrap_or(0)
    }

    /// The name of a thread, and that of its function.
    pub fn title(
        &self,
        alloc: Global,
        thread: &ThreadName,
        function: usize,
    ) -> Result<String, AllocError> {
        let called = self.called(function);
        format!(in alloc; "{thread} {called}")
    }

    /// The letters of a function's name, which are ASCII; none if there is no such function.
    pub(crate) fn called(&self, function: usize) -> EscapeAscii<'a> {
        let letters: &[u8] = match self.code.functions().get(function) {
            Some(func) => func.name.as_bytes(),
            None => &[],
        };
        letters.escape_ascii()
    }

    /// The instruction at which a row's thread is.
    pub(crate) fn instr(&self, row: &Row) -> Option<&'a Instr> {
        self.code.instr(row.function, row.instruction)
    }

    /// The `&&` or `||` for whose left side an instruction sets a slot, just before the branch on
    /// that side.
    pub(crate) fn choice(&self, function: usize, instruction: usize) -> Option<Choice<'a>> {
        let Some(Instr::Set { slot, value }) = self.code.instr(function, instruction) else {
            return None;
        };
        if self.names.int(function, *slot).is_some() {
            return None;
        }
        let next = instruction.checked_add(1)?;
        let Some(Instr::Branch { condition, .. }) = self.code.instr(function, next) else {
            return None;
        };
        match (&value.node, &condition.node) {
            (Node::Number(0), _) => Some(Choice {
                is_or: false,
                left: condition,
            }),
            (Node::Number(_), Node::Unary(_, left)) => Some(Choice { is_or: true, left }),
            _ => None,
        }
    }

    /// The `&&` or `||` of a slot, if the first instruction before a row's that sets the slot does
    /// so for its left side.
    pub(crate) fn choice_of(&self, row: &Row, slot: u32) -> Option<Choice<'a>> {
        for place in 0..row.instruction {
            if self.sets(row.function, place, slot) {
                return self.choice(row.function, place);
            }
        }
        None
    }

    /// Whether an instruction sets a slot.
    pub(crate) fn sets(&self, function: usize, instruction: usize, slot: u32) -> bool {
        matches!(self.code.instr(function, instruction), Some(Instr::Set { slot: to, .. }) if *to == slot)
    }

    /// The `&&` or `||` on whose left side an instruction branches.
    pub(crate) fn branched(&self, function: usize, instruction: usize) -> Option<Choice<'a>> {
        self.choice(function, instruction.checked_sub(1)?)
    }

    /// The right side of a `&&` or `||`, if an instruction sets its slot to whether that side isn't
    /// 0.
    pub(crate) fn right_side(&self, function: usize, instruction: usize) -> Option<&'a Expr> {
        let Some(Instr::Set { slot, value }) = self.code.instr(function, instruction) else {
            return None;
        };
        match &value.node {
            Node::Binary(BinOp::Ne, right, _) if self.names.int(function, *slot).is_none() => {
                Some(right)
            }
            _ => None,
        }
    }

    /// Whether the instruction of a row's step is followed by another of the same statement.
    pub(crate) fn leads_on(&self, row: &Row) -> bool {
        match self.instr(row) {
            Some(Instr::Set { slot, .. }) => self.names.int(row.function, *slot).is_none(),
            Some(Instr::Branch { .. }) => self.branched(row.function, row.instruction).is_some(),
            Some(
                Instr::Load { .. }
                | Instr::Inside { .. }
                | Instr::Nonzero(_)
                | Instr::InRange(_)
                | Instr::Holds { .. }
                | Instr::Ready { .. }
                | Instr::Modify { .. },
            ) => true,
            _ => false,
        }
    }
}
