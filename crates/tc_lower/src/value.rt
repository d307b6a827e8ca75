//! Expressions lowered to instructions, and to an expression over slots.
ghost use Rattle.std.specs.Prelude.{◌≡◌, ◌+◌, ◌<◌, ◌≤◌, ◌^◌, [], ◌∷◌, ◌++◌, length, Ok, OnOk, IfOk, Some, None, slice_set};
ghost use Rattle.tc_code.specs.tc_limits.declared.limits.TheConstants.{PROGRAM_BYTES};
ghost use Rattle.tc_code.specs.Expr as plain;
ghost use Rattle.tc_code.specs.declared.instr.Instr.TheVariants as flat;
ghost use Rattle.tc_lower.specs.Values as spec;
ghost use Rattle.tc_lower.specs.helpers.Seen.{evaluated_by};

use crate::draft::Draft;
use crate::things::{Scope, Thing, thing_of};
use int_ops::{BinOp, UnOp};
use std::alloc::{AllocError, Global};
use tc_code::{Cell, Expr, Instr, Node as Part};
use tc_tree::{Expression, Node, Operator};

/// The instructions of a function so far, and the next free slot.
#[derive(Drop)]
pub(crate) struct Writer {
    pub(crate) draft: Draft,
    pub(crate) free: u32,
}

/// What an `&&` or `||` keeps until its right side is written.
#[derive(Drop)]
struct Choice {
    /// The slot that takes its value.
    slot: u32,
    /// An expression that is 0 if the left side decides the result alone.
    undecided: Expr,
    /// The place of the branch past the right side, which isn't written yet.
    branch: usize,
}

impl Writer {
    /// Writes an expression's instructions, and returns the expression that then has its value.
    #[tactic(auto, using(crate::proofs::Lists::choices))]
    pub(crate) fn evaluate(
        &mut self,
        alloc: Global,
        scope: Scope,
        expression: &Expression,
    ) -> Result<Expr, AllocError>
        requires room { self.old.free ≤ length self.old.draft + PROGRAM_BYTES }
        requires fits { length self.old.draft + length (evaluated_by scope self.old expression.now).instrs < 2 ^ 18 }
        ensures value { IfOk result (λ value. value ≡ (evaluated_by scope.entry self.old expression.now).value) }
        ensures instrs { OnOk result (self.new.draft ≡ self.old.draft ++ (evaluated_by scope.entry self.old expression.now).instrs) }
        ensures free { OnOk result (self.new.free ≡ (evaluated_by scope.entry self.old expression.now).free) }
        ensures room { OnOk result (self.new.free ≤ length self.new.draft + PROGRAM_BYTES) }
    {
        match &expression.node {
            Node::Number(number) => Ok(Expr::number(number.value)),
            Node::Variable(name) => self.read(thing_of(scope, name)),
            Node::Element(array, index) => {
                let index = self.evaluate(alloc, scope, index)?;
                self.read_element(alloc, thing_of(scope, array), index)
            }
            Node::Paren(inside) => self.evaluate(alloc, scope, inside),
            Node::Unary(op, operand) => {
                let operand = self.evaluate(alloc, scope, operand)?;
                Expr::unary(alloc, *op, operand)
            }
            Node::Binary(op, left, right) => {
                match over_both(*op) {
                    Some(op) => {
                        let left = self.evaluate(alloc, scope, left)?;
                        let right = self.evaluate(alloc, scope, right)?;
                        self.join(alloc, op, left, right)
                    }
                    None => {
                        let left = self.evaluate(alloc, scope, left)?;
                        let choice = self.begin_choice(alloc, *op, left)?;
                        let slot = choice.slot;
                        let right = self.evaluate(alloc, scope, right)?;
                        self.end_choice(alloc, choice, right)?;
                        Ok(Expr::slot(slot))
                    }
                }
            }
        }
    }

    /// Takes the next free slot.
    pub(crate) fn take_slot(&mut self) -> u32
        requires { self.old.free < 2 ^ 31 }
        ensures taken { result ≡ self.old.free }
        ensures draft { self.new.draft ≡ self.old.draft }
        ensures next { self.new.free ≡ self.old.free + 1 }
    {
        let slot = self.free;
        self.free += 1;
        slot
    }

    /// The value of a variable.
    fn read(&mut self, variable: Option<Thing>) -> Result<Expr, AllocError>
        requires room { self.old.free ≤ length self.old.draft + PROGRAM_BYTES }
        requires fits { length self.old.draft + length (spec.variable variable self.old.free).instrs < 2 ^ 18 }
        ensures value { IfOk result (λ value. value ≡ (spec.variable variable self.old.free).value) }
        ensures instrs { OnOk result (self.new.draft ≡ self.old.draft ++ (spec.variable variable self.old.free).instrs) }
        ensures free { OnOk result (self.new.free ≡ (spec.variable variable self.old.free).free) }
        ensures room { OnOk result (self.new.free ≤ length self.new.draft + PROGRAM_BYTES) }
    {
        match variable {
            Some(Thing::Slot(slot)) => Ok(Expr::slot(slot)),
            Some(Thing::Cell(cell)) => {
                let slot = self.take_slot();
                let cell = Cell::Fixed(cell);
                self.draft.push(Instr::Load { slot, cell })?;
                Ok(Expr::slot(slot))
            }
            _ => Ok(Expr::number(0)),
        }
    }

    /// The value of an array's element, given the value of its index.
    fn read_element(
        &mut self,
        alloc: Global,
        array: Option<Thing>,
        index: Expr,
    ) -> Result<Expr, AllocError>
        requires { self.old.free < 2 ^ 31 }
        ensures value { IfOk result (λ value. value ≡ (spec.element array index self.old.free).value) }
        ensures instrs { OnOk result (self.new.draft ≡ self.old.draft ++ (spec.element array index self.old.free).instrs) }
        ensures free { OnOk result (self.new.free ≡ (spec.element array index self.old.free).free) }
    {
        let Some(Thing::Array(first, length)) = array else {
            return Ok(index);
        };
        let tested = copy(alloc, &index)?;
        self.draft.push(Instr::Inside {
            length,
            index: tested,
        })?;
        let slot = self.take_slot();
        let cell = Cell::Element {
            first,
            length,
            index,
        };
        self.draft.push(Instr::Load { slot, cell })?;
        Ok(Expr::slot(slot))
    }

    /// An operator on two values, after the test of the right one.
    fn join(
        &mut self,
        alloc: Global,
        op: BinOp,
        left: Expr,
        right: Expr,
    ) -> Result<Expr, AllocError>
        ensures value { IfOk result (λ value. value ≡ plain.Binary op left right) }
        ensures instrs { OnOk result (self.new.draft ≡ self.old.draft ++ spec.tested op right) }
        ensures free { self.new.free ≡ self.old.free }
    {
        match op {
            BinOp::Div | BinOp::Rem => {
                self.draft.push(Instr::Nonzero(copy(alloc, &right)?))?;
            }
            BinOp::Shl | BinOp::Shr => {
                self.draft.push(Instr::InRange(copy(alloc, &right)?))?;
            }
            _ => {}
        }
        Expr::binary(alloc, op, left, right)
    }

    /// Writes the result if the left side of `&&` or `||` decides alone, and leaves room for the
    /// branch past the right side.
    fn begin_choice(
        &mut self,
        alloc: Global,
        op: Operator,
        left: Expr,
    ) -> Result<Choice, AllocError>
        requires { self.old.free < 2 ^ 31 }
        ensures instrs { OnOk result (self.new.draft ≡ self.old.draft ++ flat.Set self.old.free (plain.Number (spec.decided op)) ∷ flat.Goto 0 ∷ []) }
        ensures free { OnOk result (self.new.free ≡ self.old.free + 1) }
        ensures slot { IfOk result (λ choice. choice.slot ≡ self.old.free) }
        ensures undecided { IfOk result (λ choice. choice.undecided ≡ spec.undecided op left) }
        ensures branch { IfOk result (λ choice. choice.branch ≡ length self.old.draft + 1) }
    {
        let slot = self.take_slot();
        let undecided = undecided(alloc, op, left)?;
        self.draft.push(Instr::Set {
            slot,
            value: Expr::number(decided(op)),
        })?;
        let branch = self.draft.leave_room()?;
        Ok(Choice {
            slot,
            undecided,
            branch,
        })
    }

    /// Writes the result of the right side, and the branch past it.
    fn end_choice(&mut self, alloc: Global, choice: Choice, right: Expr) -> Result<(), AllocError>
        requires room { length self.old.draft < 2 ^ 31 }
        requires branch { choice.branch < length self.old.draft }
        ensures instrs { OnOk result (self.new.draft ≡ slice_set (self.old.draft ++ flat.Set choice.slot (spec.isnt_zero right) ∷ [])
            choice.branch (flat.Branch choice.undecided (length self.old.draft + 1))) }
        ensures free { self.new.free ≡ self.old.free }
    {
        let Choice {
            slot,
            undecided,
            branch,
        } = choice;
        let value = Expr::binary(alloc, BinOp::Ne, right, Expr::number(0))?;
        self.draft.push(Instr::Set { slot, value })?;
        self.draft.put(
            branch,
            Instr::Branch {
                condition: undecided,
                target: self.draft.len() as u32,
            },
        );
        Ok(())
    }
}

/// The operator on the values of both sides; none for `&&` and `||`, which may skip the right side.
fn over_both(op: Operator) -> Option<BinOp>
    ensures { result ≡ spec.over_both op }
{
    match op {
        Operator::Multiply => Some(BinOp::Mul),
        Operator::Divide => Some(BinOp::Div),
        Operator::Remainder => Some(BinOp::Rem),
        Operator::Add => Some(BinOp::Add),
        Operator::Subtract => Some(BinOp::Sub),
        Operator::ShiftLeft => Some(BinOp::Shl),
        Operator::ShiftRight => Some(BinOp::Shr),
        Operator::Less => Some(BinOp::Lt),
        Operator::LessOrEqual => Some(BinOp::Le),
        Operator::Greater => Some(BinOp::Gt),
        Operator::GreaterOrEqual => Some(BinOp::Ge),
        Operator::Equal => Some(BinOp::Eq),
        Operator::Unequal => Some(BinOp::Ne),
        Operator::BitAnd => Some(BinOp::And),
        Operator::BitXor => Some(BinOp::Xor),
        Operator::BitOr => Some(BinOp::Or),
        Operator::And | Operator::Or => None,
    }
}

/// The result of `&&` or `||` if the left side decides it alone.
fn decided(op: Operator) -> i32
    ensures { result ≡ spec.decided op }
{
    match op {
        Operator::And => 0,
        _ => 1,
    }
}

/// An expression that is 0 if the left side decides the result alone.
fn undecided(alloc: Global, op: Operator, left: Expr) -> Result<Expr, AllocError>
    ensures { IfOk result (λ e. e ≡ spec.undecided op left) }
{
    match op {
        Operator::And => Ok(left),
        _ => Expr::unary(alloc, UnOp::Not, left),
    }
}

/// A copy of the expression.
pub(crate) fn copy(alloc: Global, e: &Expr) -> Result<Expr, AllocError>
    ensures { IfOk result (λ same. same ≡ e.now) }
{
    match &e.node {
        Part::Number(number) => Ok(Expr::number(*number)),
        Part::Slot(slot) => Ok(Expr::slot(*slot)),
        Part::Unary(op, operand) => {
            let operand = copy(alloc, operand)?;
            Expr::unary(alloc, *op, operand)
        }
        Part::Binary(op, left, right) => {
            let left = copy(alloc, left)?;
            let right = copy(alloc, right)?;
            Expr::binary(alloc, *op, left, right)
        }
    }
}
