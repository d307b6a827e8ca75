//! Terms of expressions and of tests.
ghost use Rattle.std.specs.Prelude.{◌≡◌, ◌<◌, ◌≤◌, ◌^◌, ℤ, pos, [], length, IfOk, OnOk, IsTrue};
ghost use Rattle.std.specs.List.{list_all};
ghost use Rattle.int_ops.specs.Updates.{operands_of};
ghost use Rattle.tc_code.specs.Expr.{names_slots};
ghost use Rattle.sym_terms.specs.declared.node.Node.TheVariants.{Constant, Symbol, Unary, Binary};
ghost use Rattle.sym_exec.specs.Thread.{AreOf};
ghost use Rattle.sym_exec.specs.Making as spec;
ghost use Rattle.sym_exec.specs.Thread as thread;
ghost use Rattle.sym_exec.specs.Making.{Grows};

use int_ops::{BinOp, UnOp, Update};
use std::alloc::{AllocError, Global};
use sym_terms::{Id, Terms};
use tc_code::{Expr, Node};

/// The term of a constant.
pub(crate) fn constant(terms: &mut Terms, n: i32) -> Result<Id, AllocError>
    ensures made { IfOk result (λ id. record { term = id; nodes = terms.new } ≡ spec.term_of_node terms.old (Constant n)) }
    ensures within { IfOk result (λ id. id < length terms.new) }
    ensures grown { Grows terms.old terms.new }
{
    terms.constant(n)
}

/// The symbol of a load.
pub(crate) fn symbol(terms: &mut Terms, load: u32) -> Result<Id, AllocError>
    ensures made { IfOk result (λ id. record { term = id; nodes = terms.new } ≡ spec.term_of_node terms.old (Symbol load)) }
    ensures within { IfOk result (λ id. id < length terms.new) }
    ensures grown { Grows terms.old terms.new }
{
    terms.symbol(load)
}

/// An operator over a term.
fn unary(terms: &mut Terms, op: UnOp, a: Id) -> Result<Id, AllocError>
    requires { a < length terms.old }
    ensures made { IfOk result (λ id. record { term = id; nodes = terms.new } ≡ spec.term_of_node terms.old (Unary op a)) }
    ensures within { IfOk result (λ id. id < length terms.new) }
    ensures grown { Grows terms.old terms.new }
{
    terms.op1(op, a)
}

/// An operator over two terms.
fn binary(terms: &mut Terms, op: BinOp, a: Id, b: Id) -> Result<Id, AllocError>
    requires first { a < length terms.old }
    requires second { b < length terms.old }
    ensures made { IfOk result (λ id. record { term = id; nodes = terms.new } ≡ spec.term_of_node terms.old (Binary op a b)) }
    ensures within { IfOk result (λ id. id < length terms.new) }
    ensures grown { Grows terms.old terms.new }
{
    terms.op2(op, a, b)
}

/// The term of an expression, given the terms of the slots.
pub fn expr_term(terms: &mut Terms, slots: &[Id], e: &Expr) -> Result<Id, AllocError>
    requires slots { AreOf terms.old slots.now }
    requires names { IsTrue (names_slots (length slots.now) e.now) }
    ensures term { IfOk result (λ term. record { term = term; nodes = terms.new } ≡ spec.expr_term terms.old slots.now e.now) }
    ensures within { IfOk result (λ term. term < length terms.new) }
    ensures grown { Grows terms.old terms.new }
{
    match &e.node {
        Node::Number(n) => terms.constant(*n),
        Node::Slot(k) => Ok(slots[*k as usize]),
        Node::Unary(op, operand) => {
            let operand = expr_term(terms, slots, operand)?;
            terms.op1(*op, operand)
        }
        Node::Binary(op, left, right) => {
            let left = expr_term(terms, slots, left)?;
            let right = expr_term(terms, slots, right)?;
            terms.op2(*op, left, right)
        }
    }
}

/// The terms of expressions, in order.
pub fn expr_terms(
    alloc: Global,
    terms: &mut Terms,
    slots: &[Id],
    es: &[Expr],
) -> Result<Vec<Id>, AllocError>
    requires slots { AreOf terms.old slots.now }
    requires names { IsTrue (list_all (names_slots (length slots.now)) es.now) }
    ensures made { IfOk result (λ made. record { terms = made.items; nodes = terms.new } ≡ spec.expr_terms terms.old slots.now es.now) }
    ensures grown { Grows terms.old terms.new }
{
    let mut made = Vec::new(alloc);
    for e in es {
        made.push(expr_term(terms, slots, e)?)?;
    }
    Ok(made)
}

/// The test whether a term is between 0 and `last`.
pub(crate) fn range_test(terms: &mut Terms, term: Id, last: i32) -> Result<Id, AllocError>
    requires { term < length terms.old }
    ensures term { IfOk result (λ test. record { term = test; nodes = terms.new } ≡ spec.range_test (record { term = term; nodes = terms.old }) last) }
    ensures grown { Grows terms.old terms.new }
{
    let zero = constant(terms, 0)?;
    let low = binary(terms, BinOp::Le, zero, term)?;
    let top = constant(terms, last)?;
    let high = binary(terms, BinOp::Le, term, top)?;
    binary(terms, BinOp::And, low, high)
}

/// The last index of an array of this length, but at most the greatest int.
pub(crate) fn last_index(length: u32) -> i32
    ensures { result ≡ spec.last_index length }
{
    if length > 1 << 31 {
        i32::MAX
    } else {
        (i64::from(length) - 1) as i32
    }
}

/// A cell's value after a compare-and-exchange: the new value if the cell had the expected one, and
/// its old value otherwise. Terms have no conditional, so the term uses bitwise operators.
fn replaced_term(terms: &mut Terms, found: Id, expected: Id, new: Id) -> Result<Id, AllocError>
    requires found { found < length terms.old }
    requires expected { expected < length terms.old }
    requires new { new < length terms.old }
    ensures term { IfOk result (λ term. record { term = term; nodes = terms.new } ≡ spec.replaced_term terms.old found expected new) }
    ensures grown { Grows terms.old terms.new }
{
    let change = binary(terms, BinOp::Xor, found, new)?;
    let same = binary(terms, BinOp::Eq, found, expected)?;
    let mask = unary(terms, UnOp::Neg, same)?;
    let masked = binary(terms, BinOp::And, change, mask)?;
    binary(terms, BinOp::Xor, found, masked)
}

/// A cell's value after an update, given the terms of its operands and of the cell's old value.
pub(crate) fn updated_term(
    terms: &mut Terms,
    update: Update<Id>,
    found: Id,
) -> Result<Id, AllocError>
    requires found { found < length terms.old }
    requires operands { AreOf terms.old (operands_of update) }
    ensures term { IfOk result (λ term. record { term = term; nodes = terms.new } ≡ thread.updated_term terms.old update found) }
    ensures grown { Grows terms.old terms.new }
{
    match update {
        Update::Swap(value) => Ok(value),
        Update::Cas(expected, new) => replaced_term(terms, found, expected, new),
        Update::Add(value) => binary(terms, BinOp::Add, found, value),
    }
}
