//! The values of slots that a path alone determines.
ghost use Rattle.std.specs.Prelude.{ℕ, ◌≡◌, ◌≢◌, ◌+◌, ◌<◌, ◌^◌, None, Some, slice_index_or, IfOk, IsTrue};
ghost use Rattle.tc_code.specs.Lawful.{IsLawful};
ghost use Rattle.tc_code.specs.Step.{ints_of};
ghost use Rattle.thread_paths.specs.Known.{params_of, known_at_start, known_value, known_write, known_after, leads_to};

use crate::leads::place_after;
use crate::rounds::written;
use int_ops::arith;
use std::alloc::{AllocError, Global};
use std::marker::Model;
use tc_code::{Code, Expr, Instr, Node};

/// The value of each slot, if it is known.
#[derive(Drop)]
pub struct Known {
    slots: Vec<Option<i32>>,
}

impl Model for Known {
    ghost use Rattle.thread_paths.specs.Known.{Known as PlainKnown};

    ghost Value = { PlainKnown };

    ghost view = { λ k. k.slots.items };
}

/// The number of parameters of a function, and of all its slots.
fn sizes(code: &Code, function: usize) -> (usize, usize)
    ensures sizes { result ≡ (params_of code.now function, ints_of code.now function) }
    ensures lawful { IsLawful code.now }
{
    match code.functions().get(function) {
        Some(func) => (func.params as usize, func.ints as usize),
        None => (0, 0),
    }
}

impl Known {
    /// The values at the start of a function: 0, except those of the parameters.
    pub fn at_start(alloc: Global, code: &Code, function: usize) -> Result<Known, AllocError>
        ensures { IfOk result (λ known. known ≡ known_at_start code.now function) }
    {
        let (params, ints) = sizes(code, function);
        let mut slots = Vec::new(alloc);
        slots.resize(params, None)?;
        slots.resize(ints, Some(0))?;
        Ok(Known { slots })
    }

    /// The value of a slot.
    fn slot(&self, slot: u32) -> Option<i32>
        ensures { result ≡ slice_index_or self.now slot None }
    {
        match self.slots.get(slot as usize) {
            Some(value) => *value,
            None => None,
        }
    }

    /// The value of an expression, if each slot that it names is known.
    fn value(&self, e: &Expr) -> Option<i32>
        ensures { result ≡ known_value self.now e.now }
    {
        match &e.node {
            Node::Number(number) => Some(*number),
            Node::Slot(slot) => self.slot(*slot),
            Node::Unary(op, operand) => Some(arith::unary(*op, self.value(operand)?)),
            Node::Binary(op, left, right) => {
                let left = self.value(left)?;
                let right = self.value(right)?;
                Some(arith::binary(*op, left, right))
            }
        }
    }

    /// The value that an instruction writes, if it is known.
    fn write(&self, instr: &Instr) -> Option<i32>
        ensures { result ≡ known_write self.now instr.now }
    {
        match instr {
            Instr::Set { value, .. } => self.value(value),
            _ => None,
        }
    }

    /// Does a step.
    pub fn apply(&mut self, instr: &Instr)
        ensures { self.new ≡ known_after self.old instr.now }
    {
        let Some(slot) = written(instr) else {
            return;
        };
        let value = self.write(instr);
        if slot < self.slots.len() {
            self.slots[slot] = value;
        }
    }

    /// The place to which an instruction leads, if it is a branch whose test is known.
    fn leads_to(&self, instr: &Instr, place: usize) -> Option<usize>
        requires { place + 1 < 2 ^ 64 }
        ensures { result ≡ leads_to self.now place instr.now }
    {
        match instr {
            Instr::Branch { condition, .. } => {
                let tested = self.value(condition)?;
                Some(place_after(instr, place, tested != 0))
            }
            _ => None,
        }
    }

    /// Whether an instruction at a place is a branch whose test is known, and leads elsewhere than to
    /// another place.
    pub fn rules_out(&self, instr: &Instr, from: usize, to: usize) -> bool
        requires { from + 1 < 2 ^ 64 }
        ensures { IsTrue result → (target : ℕ) × (leads_to self.now from instr.now ≡ Some target) × (to ≢ target) }
    {
        match self.leads_to(instr, from) {
            Some(target) => to != target,
            None => false,
        }
    }
}
