//! Expressions of the code, as the program's text writes them.
ghost use Rattle.std.specs.Prelude.{◌≡◌};
ghost use Rattle.tc_code.specs.Expr.{value_of};

use crate::program::{Choice, Program};
use int_ops::{BinOp, UnOp, arith};
use show_rows::Row;
use std::alloc::AllocError;
use tc_code::{Cell, Expr, Instr, Node};

/// How a name is written.
#[derive(Clone, Copy, PartialEq, Eq)]
pub(crate) enum Form {
    /// As it is.
    Name,
    /// As its value. `..` is written for a side of `&&` or `||` that wasn't evaluated.
    Value,
}

/// The place of an expression, which may name slots that earlier instructions have set.
#[derive(Clone, Copy)]
struct At<'a> {
    program: Program<'a>,
    row: &'a Row,
    form: Form,
}

/// An expression as the text has it.
#[derive(Clone, Copy)]
enum Shape<'a> {
    Name(&'a str),
    Number(i32),
    /// An operator before its operand.
    Sign(&'static str, &'a Expr),
    /// An element of an array.
    Element(&'a str, &'a Expr),
    Pair(Pair<'a>),
}

/// An operator between its operands.
#[derive(Clone, Copy)]
struct Pair<'a> {
    /// How tightly it binds.
    own: u32,
    left: &'a Expr,
    sign: &'static str,
    /// The right side, unless it wasn't evaluated.
    right: Option<&'a Expr>,
}

/// More than the depth of any expression: a statement has at most 512 tokens.
const DEPTH: u32 = 4096;

/// How tightly an operator before its operand binds.
const UNARY: u32 = 11;

/// Adds an expression of a row's instruction.
pub(crate) fn push_expression(
    out: &mut String,
    program: Program<'_>,
    row: &Row,
    e: &Expr,
    form: Form,
) -> Result<(), AllocError> {
    At { program, row, form }.push(out, e, 0, DEPTH)
}

/// The value of an expression over the slots; a slot that doesn't exist has 0.
pub(crate) fn value_over(slots: &[i32], e: &Expr) -> i32
    ensures { result ≡ value_of e.now slots.now }
{
    match &e.node {
        Node::Number(n) => *n,
        Node::Slot(k) => match slots.get(*k as usize) {
            Some(value) => *value,
            None => 0,
        },
        Node::Unary(op, operand) => arith::unary(*op, value_over(slots, operand)),
        Node::Binary(op, left, right) => arith::binary(
            *op,
            value_over(slots, left),
            value_over(slots, right),
        ),
    }
}

impl<'a> At<'a> {
    /// Adds an expression, in parentheses if it binds less tightly than its place needs.
    fn push(
        &self,
        out: &mut String,
        e: &'a Expr,
        level: u32,
        depth: u32,
    ) -> Result<(), AllocError> {
        let Some(depth) = depth.checked_sub(1) else {
            return out.push_str("..");
        };
        match self.shape(e) {
            Shape::Name(name) => out.push_str(name),
            Shape::Number(value) if value < 0 && level >= UNARY => write!(out, "({value})"),
            Shape::Number(value) => write!(out, "{value}"),
            Shape::Sign(sign, operand) => {
                out.push_str(sign)?;
                self.push(out, operand, UNARY, depth)
            }
            Shape::Element(array, index) => {
                write!(out, "{array}[")?;
                self.push(out, index, 0, depth)?;
                out.push(']')
            }
            Shape::Pair(pair) => {
                let is_loose = pair.own < level;
                out.push_str(if is_loose { "(" } else { "" })?;
                self.push(out, pair.left, pair.own, depth)?;
                out.push_str(pair.sign)?;
                match pair.right {
                    Some(right) => self.push(out, right, pair.own.saturating_add(1), depth)?,
                    None => out.push_str("..")?,
                }
                out.push_str(if is_loose { ")" } else { "" })
            }
        }
    }

    /// An expression as the text has it.
    fn shape(&self, e: &'a Expr) -> Shape<'a> {
        match &e.node {
            Node::Number(n) => Shape::Number(*n),
            Node::Slot(slot) => self.shape_of_slot(e, *slot),
            Node::Unary(op, operand) => Shape::Sign(unary_text(*op), operand),
            Node::Binary(op, left, right) => {
                let (own, sign) = binary_text(*op);
                Shape::Pair(Pair {
                    own,
                    left,
                    sign,
                    right: Some(right),
                })
            }
        }
    }

    /// A slot as the text has it.
    fn shape_of_slot(&self, e: &'a Expr, slot: u32) -> Shape<'a> {
        let names = self.program.names;
        if let Some(choice) = self.program.choice_of(self.row, slot) {
            return self.shape_of_choice(slot, choice);
        }
        if self.form == Form::Value {
            return Shape::Number(value_over(self.row.slots.as_slice(), e));
        }
        if let Some(name) = names.int(self.row.function, slot) {
            return Shape::Name(name);
        }
        match self.cell_of(slot) {
            Some(Cell::Fixed(cell)) => Shape::Name(names.cell(*cell)),
            Some(Cell::Element { first, index, .. }) => Shape::Element(names.array(*first), index),
            None => Shape::Name("?"),
        }
    }

    /// A `&&` or `||` as the text has it.
    fn shape_of_choice(&self, slot: u32, choice: Choice<'a>) -> Shape<'a> {
        let (own, sign) = if choice.is_or {
            (1, " || ")
        } else {
            (2, " && ")
        };
        let is_left_true = value_over(self.row.slots.as_slice(), choice.left) != 0;
        let right = if self.form == Form::Name || is_left_true != choice.is_or {
            self.right_of(slot)
        } else {
            None
        };
        Shape::Pair(Pair {
            own,
            left: choice.left,
            sign,
            right,
        })
    }

    /// The right side of the `&&` or `||` of a slot.
    fn right_of(&self, slot: u32) -> Option<&'a Expr> {
        let function = self.row.function;
        for place in (0..self.row.instruction).rev() {
            if self.program.sets(function, place, slot) {
                return self.program.right_side(function, place);
            }
        }
        None
    }

    /// The cell that a slot is loaded from.
    fn cell_of(&self, slot: u32) -> Option<&'a Cell<Expr>> {
        for place in (0..self.row.instruction).rev() {
            match self.program.code.instr(self.row.function, place) {
                Some(Instr::Load { slot: to, cell }) if *to == slot => return Some(cell),
                _ => {}
            }
        }
        None
    }
}

/// An operator before its operand.
fn unary_text(op: UnOp) -> &'static str {
    match op {
        UnOp::Neg => "-",
        UnOp::Not => "!",
        UnOp::Inv => "~",
    }
}

/// How tightly an operator between its operands binds, and its text.
fn binary_text(op: BinOp) -> (u32, &'static str) {
    match op {
        BinOp::Or => (3, " | "),
        BinOp::Xor => (4, " ^ "),
        BinOp::And => (5, " & "),
        BinOp::Eq => (6, " == "),
        BinOp::Ne => (6, " != "),
        BinOp::Lt => (7, " < "),
        BinOp::Le => (7, " <= "),
        BinOp::Gt => (7, " > "),
        BinOp::Ge => (7, " >= "),
        BinOp::Shl => (8, " << "),
        BinOp::Shr => (8, " >> "),
        BinOp::Add => (9, " + "),
        BinOp::Sub => (9, " - "),
        BinOp::Mul => (10, " * "),
        BinOp::Div => (10, " / "),
        BinOp::Rem => (10, " % "),
    }
}
