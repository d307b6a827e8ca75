//! Expressions over the int slots of a thread.
ghost use Rattle.std.specs.Prelude.{◌≡◌, length, IsTrue, IfOk};
ghost use Rattle.tc_code.specs.Expr.{value_of, names_slots};
ghost use Rattle.tc_code.specs.Expr as plain;

use int_ops::{BinOp, UnOp, arith};
use std::alloc::{AllocError, Global};
use std::marker::Model;

/// An expression over the int slots of a thread.
#[cycle(expr)]
#[derive(Debug, Drop)]
pub struct Expr {
    /// What it is.
    pub node: Node,
}

/// What an expression is.
#[cycle(expr)]
#[derive(Debug, Drop)]
pub enum Node {
    /// A number.
    Number(i32),
    /// The slot of that number.
    Slot(u32),
    /// An operator over one value.
    Unary(UnOp, Box<Expr>),
    /// An operator over two values.
    Binary(BinOp, Box<Expr>, Box<Expr>),
}

impl Model for Expr {
    ghost use Rattle.tc_code.specs.Expr as plain;
    ghost use Rattle.tc_code.specs.helpers.CodedExpr.{coded_expr};

    ghost Value = { plain.Expr };

    ghost coded = { coded_expr };

    ghost use Rattle.tc_code.specs.Node.{expr_of};

    ghost view = { λ e. expr_of e.node };

    ghost size = { plain.size };

    ghost use Rattle.tc_code.specs.helpers.Falls.{depth_le-size};

    ghost size_decreases = { λ e h. depth_le-size e.node };
}

impl Expr {
    /// A number.
    pub fn number(value: i32) -> Expr
        ensures { result ≡ plain.Number value }
    {
        Expr {
            node: Node::Number(value),
        }
    }

    /// The slot of that number.
    pub fn slot(slot: u32) -> Expr
        ensures { result ≡ plain.Slot slot }
    {
        Expr {
            node: Node::Slot(slot),
        }
    }

    /// An operator over one value.
    pub fn unary(alloc: Global, op: UnOp, operand: Expr) -> Result<Expr, AllocError>
        ensures { IfOk result (λ e. e ≡ plain.Unary op operand) }
    {
        let operand = Box::new(alloc, operand)?;
        Ok(Expr {
            node: Node::Unary(op, operand),
        })
    }

    /// An operator over two values.
    pub fn binary(alloc: Global, op: BinOp, left: Expr, right: Expr) -> Result<Expr, AllocError>
        ensures { IfOk result (λ e. e ≡ plain.Binary op left right) }
    {
        let left = Box::new(alloc, left)?;
        let right = Box::new(alloc, right)?;
        Ok(Expr {
            node: Node::Binary(op, left, right),
        })
    }
}

/// The value of an expression, given the values of the slots.
pub fn value(e: &Expr, slots: &[i32]) -> i32
    requires { IsTrue (names_slots (length slots.now) e.now) }
    ensures { result ≡ value_of e.now slots.now }
{
    match &e.node {
        Node::Number(n) => *n,
        Node::Slot(k) => slots[*k as usize],
        Node::Unary(op, operand) => arith::unary(*op, value(operand, slots)),
        Node::Binary(op, left, right) => arith::binary(
            *op,
            value(left, slots),
            value(right, slots),
        ),
    }
}

/// Whether an expression names only the first `slots` slots.
pub fn names_slots(e: &Expr, slots: u32) -> bool
    ensures { result ≡ names_slots slots e.now }
{
    match &e.node {
        Node::Number(_) => true,
        Node::Slot(k) => *k < slots,
        Node::Unary(_, operand) => names_slots(operand, slots),
        Node::Binary(_, left, right) => names_slots(left, slots) && names_slots(right, slots),
    }
}

/// Expressions, in order.
#[derive(Debug, Drop)]
pub struct Exprs {
    exprs: Vec<Expr>,
}

impl Model for Exprs {
    ghost use Rattle.std.specs.Prelude.{List};
    ghost use Rattle.std.specs.Coded.{coded_list};
    ghost use Rattle.tc_code.specs.Expr as plain;
    ghost use Rattle.tc_code.specs.helpers.CodedExpr.{coded_expr};

    ghost Value = { List plain.Expr };

    ghost coded = { coded_list coded_expr };

    ghost view = { λ es. es.exprs.items };
}

impl Exprs {
    /// These expressions.
    pub fn new(exprs: Vec<Expr>) -> Exprs
        ensures { result ≡ exprs.items }
    {
        Exprs { exprs }
    }

    /// The expressions, in order.
    pub fn as_slice(&self) -> &[Expr]
        ensures { result.now ≡ self.now }
    {
        self.exprs.as_slice()
    }
}
