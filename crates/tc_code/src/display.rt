//! The texts of expressions and instructions.
ghost use Rattle.std.specs.Prelude.{◌≡◌};
ghost use Rattle.tc_code.specs.Listing.{unary_text, binary_text, at_text};

use crate::{Cell, Expr, Exprs, Instr, Node};
use int_ops::{BinOp, UnOp, Update};
use std::fmt;

fn unary_text(op: UnOp) -> &'static str
    ensures { result.now ≡ unary_text op }
{
    match op {
        UnOp::Neg => "-",
        UnOp::Not => "!",
        UnOp::Inv => "~",
    }
}

fn binary_text(op: BinOp) -> &'static str
    ensures { result.now ≡ binary_text op }
{
    match op {
        BinOp::Add => "+",
        BinOp::Sub => "-",
        BinOp::Mul => "*",
        BinOp::Div => "/",
        BinOp::Rem => "%",
        BinOp::Shl => "<<",
        BinOp::Shr => ">>",
        BinOp::And => "&",
        BinOp::Or => "|",
        BinOp::Xor => "^",
        BinOp::Eq => "==",
        BinOp::Ne => "!=",
        BinOp::Lt => "<",
        BinOp::Le => "<=",
        BinOp::Gt => ">",
        BinOp::Ge => ">=",
    }
}

/// An operator and its operands are in parentheses, so the text needs no rules of precedence.
impl fmt::Display for Expr {
    ghost use Rattle.std.specs.Prelude.{Some};
    ghost use Rattle.tc_code.specs.Listing.{expr_text};

    ghost output = { λ e. Some (expr_text e) };

    fn fmt<W: fmt::Write>(&self, f: &mut fmt::Formatter<W>) -> fmt::Result {
        match &self.node {
            Node::Number(n) => write!(f, "{n}"),
            Node::Slot(k) => write!(f, "${k}"),
            Node::Unary(op, operand) => {
                let op = unary_text(*op);
                write!(f, "({op}")?;
                (**operand).fmt(f)?;
                write!(f, ")")
            }
            Node::Binary(op, left, right) => {
                let op = binary_text(*op);
                write!(f, "(")?;
                (**left).fmt(f)?;
                write!(f, " {op} ")?;
                (**right).fmt(f)?;
                write!(f, ")")
            }
        }
    }
}

/// The expressions, each after a blank.
impl fmt::Display for Exprs {
    ghost use Rattle.std.specs.Prelude.{Some, ◌++◌, codes};
    ghost use Rattle.std.specs.List.{flat_map};
    ghost use Rattle.tc_code.specs.Listing.{expr_text};

    ghost output = { λ es. Some (flat_map (λ e. codes " " ++ expr_text e) es) };

    fn fmt<W: fmt::Write>(&self, f: &mut fmt::Formatter<W>) -> fmt::Result {
        for e in self.as_slice() {
            write!(f, " {e}")?;
        }
        Ok(())
    }
}

/// The cell's number, or the array's first cell, its length and the index.
impl fmt::Display for Cell<Expr> {
    ghost use Rattle.std.specs.Prelude.{Some};
    ghost use Rattle.tc_code.specs.Listing.{cell_text};

    ghost output = { λ c. Some (cell_text c) };

    fn fmt<W: fmt::Write>(&self, f: &mut fmt::Formatter<W>) -> fmt::Result {
        match self {
            Cell::Fixed(cell) => write!(f, "{cell}"),
            Cell::Element {
                first,
                length,
                index,
            } => write!(f, "{first} {length} {index}"),
        }
    }
}

/// What the word of an access ends with.
fn at_text(cell: &Cell<Expr>) -> &'static str
    ensures { result.now ≡ at_text cell.now }
{
    match cell {
        Cell::Fixed(_) => "",
        Cell::Element { .. } => "at",
    }
}

/// The instruction's word, and then everything that it names, by number.
impl fmt::Display for Instr {
    ghost use Rattle.std.specs.Prelude.{Some};
    ghost use Rattle.tc_code.specs.Listing.{instr_text};

    ghost output = { λ i. Some (instr_text i) };

    fn fmt<W: fmt::Write>(&self, f: &mut fmt::Formatter<W>) -> fmt::Result {
        match self {
            Instr::Set { slot, value } => write!(f, "set ${slot} {value}"),
            Instr::Load { slot, cell } => {
                let at = at_text(cell);
                write!(f, "load{at} ${slot} {cell}")
            }
            Instr::Store { cell, value } => {
                let at = at_text(cell);
                write!(f, "store{at} {cell} {value}")
            }
            Instr::Inside { length, index } => write!(f, "inside {length} {index}"),
            Instr::Branch { condition, target } => write!(f, "branch {condition} {target}"),
            Instr::Goto { target } => write!(f, "goto {target}"),
            Instr::Holds { mutex } => write!(f, "holds {mutex}"),
            Instr::Lock { mutex } => write!(f, "lock {mutex}"),
            Instr::Unlock { mutex } => write!(f, "unlock {mutex}"),
            Instr::Sleep { condition, mutex } => write!(f, "sleep {condition} {mutex}"),
            Instr::Wake { condition, mutex } => write!(f, "wake {condition} {mutex}"),
            Instr::Signal { condition } => write!(f, "signal {condition}"),
            Instr::Broadcast { condition } => write!(f, "broadcast {condition}"),
            Instr::Create {
                handle,
                function,
                arguments,
            } => write!(f, "create {handle} {function}{arguments}"),
            Instr::Ready { handle } => write!(f, "ready {handle}"),
            Instr::Join { handle } => write!(f, "join {handle}"),
            Instr::Assert(e) => write!(f, "assert {e}"),
            Instr::Nonzero(e) => write!(f, "nonzero {e}"),
            Instr::InRange(e) => write!(f, "inrange {e}"),
            Instr::Modify { slot, cell, update } => {
                let at = at_text(cell);
                match update {
                    Update::Swap(value) => write!(f, "swap{at} ${slot} {cell} {value}"),
                    Update::Cas(expected, value) => {
                        write!(f, "cas{at} ${slot} {cell} {expected} {value}")
                    }
                    Update::Add(value) => write!(f, "add{at} ${slot} {cell} {value}"),
                }
            }
            Instr::Fence => write!(f, "fence"),
            Instr::Stbar => write!(f, "stbar"),
            Instr::Exit => write!(f, "exit"),
        }
    }
}
