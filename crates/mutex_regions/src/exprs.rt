//! Expressions over the state before a region: of terms of the log, and choices by an index.
ghost use Rattle.std.specs.Prelude.{◌≡◌, ◌==◌, ◌^◌, ◌-◌, filter, get_or, min, option_and_then, option_map, pos, IfOk, IsOkAnd};
ghost use Rattle.std.specs.List.{find};
ghost use Rattle.tc_code.specs.Expr as plain;
ghost use Rattle.sym_terms.specs.declared.node.Node.TheVariants.{Constant};
ghost use Rattle.mutex_regions.specs.Functions as spec;
ghost use Rattle.mutex_regions.specs.Variables.{same_variable};

use crate::{Holding, Loaded, Variable};
use int_ops::{BinOp, UnOp};
use std::alloc::{AllocError, Global};
use sym_exec::Cell;
use sym_terms::{Id, Node, Terms};
use tc_code::{Expr, Node as Part};

/// The greatest number of nodes of an expression.
const NODES: usize = 256;

/// How many levels of a term are followed.
const LEVELS: u32 = 8;

/// How many nodes an expression has, as far as that can be counted.
fn size(e: &Expr) -> usize
    ensures { result ≡ min (plain.size e.now) (2 ^ 64 - 1) }
{
    match &e.node {
        Part::Number(_) => 1,
        Part::Slot(_) => 1,
        Part::Unary(_, a) => size(a).saturating_add(1),
        Part::Binary(_, a, b) => size(a).saturating_add(size(b)).saturating_add(1),
    }
}

/// An operator over an expression.
fn unary(alloc: Global, op: UnOp, operand: Result<Expr, AllocError>) -> Result<Expr, AllocError>
    ensures { IfOk result (λ e. IsOkAnd operand (λ a. e ≡ plain.Unary op a)) }
{
    Expr::unary(alloc, op, operand?)
}

/// An operator over two expressions.
fn binary(
    alloc: Global,
    op: BinOp,
    left: Result<Expr, AllocError>,
    right: Result<Expr, AllocError>,
) -> Result<Expr, AllocError>
    ensures { IfOk result (λ e. IsOkAnd left (λ a. IsOkAnd right (λ b. e ≡ plain.Binary op a b))) }
{
    Expr::binary(alloc, op, left?, right?)
}

/// The same expression once more.
fn copy(alloc: Global, e: &Expr) -> Result<Expr, AllocError>
    ensures { IfOk result (λ same. same ≡ e.now) }
{
    match &e.node {
        Part::Number(n) => Ok(Expr::number(*n)),
        Part::Slot(k) => Ok(Expr::slot(*k)),
        Part::Unary(op, a) => unary(alloc, *op, copy(alloc, a)),
        Part::Binary(op, a, b) => binary(alloc, *op, copy(alloc, a), copy(alloc, b)),
    }
}

/// The same value once more.
pub(crate) fn copy_of(alloc: Global, value: &Option<Expr>) -> Result<Option<Expr>, AllocError>
    ensures { IfOk result (λ same. same ≡ value.now) }
{
    match value {
        Some(e) => Ok(Some(copy(alloc, e)?)),
        None => Ok(None),
    }
}

/// An expression, unless it is large.
fn kept(e: Expr) -> Option<Expr>
    ensures { result ≡ spec.kept e }
{
    if size(&e) <= NODES { Some(e) } else { None }
}

/// Whether an operator's circuit is large.
fn is_dear(op: BinOp) -> bool
    ensures { result ≡ spec.is_dear op }
{
    matches!(
        op,
        BinOp::Mul | BinOp::Div | BinOp::Rem | BinOp::Shl | BinOp::Shr
    )
}

/// A term of the log as an expression.
pub fn term_over(
    alloc: Global,
    terms: &Terms,
    loads: &[Loaded],
    term: Id,
) -> Result<Option<Expr>, AllocError>
    ensures { IfOk result (λ value. value ≡ spec.term_over terms.now loads.now term) }
{
    term_expr(alloc, terms, loads, LEVELS, term.place())
}

/// The index of a cell in its variable, as an expression.
pub(crate) fn index_over(
    alloc: Global,
    terms: &Terms,
    loads: &[Loaded],
    cell: Cell,
) -> Result<Option<Expr>, AllocError>
    ensures { IfOk result (λ value. value ≡ spec.index_over terms.now loads.now cell) }
{
    match cell {
        Cell::Fixed(_) => Ok(Some(Expr::number(0))),
        Cell::Element { index, .. } => term_over(alloc, terms, loads, index),
    }
}

/// The node at a place, or 0 if there is none.
fn node_at(terms: &Terms, place: usize) -> Node
    ensures { result ≡ get_or terms.now place (Constant (pos 0)) }
{
    terms
        .nodes()
        .get(place)
        .copied()
        .unwrap_or(Node::Constant(0))
}

/// The term at a place as an expression, at most `levels` deep.
fn term_expr(
    alloc: Global,
    terms: &Terms,
    loads: &[Loaded],
    levels: u32,
    place: usize,
) -> Result<Option<Expr>, AllocError>
    ensures { IfOk result (λ value. value ≡ spec.term_expr terms.now loads.now levels place) }
{
    if levels == 0 {
        return Ok(None);
    }
    let below = levels - 1;
    match node_at(terms, place) {
        Node::Constant(n) => Ok(Some(Expr::number(n))),
        Node::Symbol(load) => loaded(alloc, loads, load),
        Node::Unary(op, a) => {
            let a = term_expr(alloc, terms, loads, below, a.place())?;
            of_unary(alloc, op, a)
        }
        Node::Binary(op, a, b) => {
            if is_dear(op) {
                return Ok(None);
            }
            let a = term_expr(alloc, terms, loads, below, a.place())?;
            let b = term_expr(alloc, terms, loads, below, b.place())?;
            of_binary(alloc, op, a, b)
        }
    }
}

/// The load of this number.
fn load_of(loads: &[Loaded], load: u32) -> Option<&Loaded>
    ensures { option_map (λ x. x.now) result ≡ find (λ x. x.load == load) loads.now }
{
    loads.iter().find(|one| one.load == load)
}

/// The value of a load of the region.
fn loaded(alloc: Global, loads: &[Loaded], load: u32) -> Result<Option<Expr>, AllocError>
    ensures { IfOk result (λ value. value ≡ option_and_then (λ x. x.value) (find (λ x. x.load == load) loads.now)) }
{
    match load_of(loads, load) {
        Some(one) => copy_of(alloc, &one.value),
        None => Ok(None),
    }
}

/// An operator over an expression, if there is one.
fn of_unary(alloc: Global, op: UnOp, a: Option<Expr>) -> Result<Option<Expr>, AllocError>
    ensures { IfOk result (λ value. value ≡ spec.of_one (plain.Unary op) a) }
{
    let Some(a) = a else {
        return Ok(None);
    };
    Ok(kept(Expr::unary(alloc, op, a)?))
}

/// An operator over two expressions, if there are both.
fn of_binary(
    alloc: Global,
    op: BinOp,
    a: Option<Expr>,
    b: Option<Expr>,
) -> Result<Option<Expr>, AllocError>
    ensures { IfOk result (λ value. value ≡ spec.of_two (plain.Binary op) a b) }
{
    let Some(a) = a else {
        return Ok(None);
    };
    let Some(b) = b else {
        return Ok(None);
    };
    Ok(kept(Expr::binary(alloc, op, a, b)?))
}

/// An expression if a comparison of the index with k comes out true, else 0.
fn masked(alloc: Global, test: BinOp, index: &Expr, k: u8, e: &Expr) -> Result<Expr, AllocError>
    ensures { IfOk result (λ masked. masked ≡ spec.masked test index.now k e.now) }
{
    let number = Ok(Expr::number(i32::from(k)));
    let holds = binary(alloc, test, copy(alloc, index), number);
    let mask = unary(alloc, UnOp::Neg, holds);
    binary(alloc, BinOp::And, copy(alloc, e), mask)
}

/// `new` if the index is k, else `old`.
fn choice(alloc: Global, index: &Expr, k: u8, new: &Expr, old: &Expr) -> Result<Expr, AllocError>
    ensures { IfOk result (λ e. e ≡ spec.choice index.now k new.now old.now) }
{
    let here = masked(alloc, BinOp::Eq, index, k, new);
    let elsewhere = masked(alloc, BinOp::Ne, index, k, old);
    binary(alloc, BinOp::Or, here, elsewhere)
}

/// The same where each may be unknown.
fn either(
    alloc: Global,
    index: &Expr,
    k: u8,
    new: &Option<Expr>,
    old: &Option<Expr>,
) -> Result<Option<Expr>, AllocError>
    ensures { IfOk result (λ value. value ≡ spec.of_two (spec.choice index.now k) new.now old.now) }
{
    let Some(new) = new else {
        return Ok(None);
    };
    let Some(old) = old else {
        return Ok(None);
    };
    Ok(kept(choice(alloc, index, k, new, old)?))
}

/// The same where an index that is a number decides.
pub(crate) fn where_is(
    alloc: Global,
    index: &Expr,
    k: u8,
    new: &Option<Expr>,
    old: &Option<Expr>,
) -> Result<Option<Expr>, AllocError>
    ensures { IfOk result (λ value. value ≡ spec.where_is index.now k new.now old.now) }
{
    match &index.node {
        Part::Number(n) => {
            if *n == i32::from(k) {
                copy_of(alloc, new)
            } else {
                copy_of(alloc, old)
            }
        }
        Part::Slot(_) => either(alloc, index, k, new, old),
        Part::Unary(_, _) => either(alloc, index, k, new, old),
        Part::Binary(_, _, _) => either(alloc, index, k, new, old),
    }
}

/// The same where the index may be unknown.
pub(crate) fn where_known(
    alloc: Global,
    index: &Option<Expr>,
    k: u8,
    new: &Option<Expr>,
    old: &Option<Expr>,
) -> Result<Option<Expr>, AllocError>
    ensures { IfOk result (λ value. value ≡ option_and_then (λ i. spec.where_is i k new.now old.now) index.now) }
{
    match index {
        Some(index) => where_is(alloc, index, k, new, old),
        None => Ok(None),
    }
}

/// What a variable's cells hold at an index: a choice among them.
pub(crate) fn chosen(
    alloc: Global,
    index: &Option<Expr>,
    cells: &[Holding],
    variable: &Variable,
) -> Result<Option<Expr>, AllocError>
    ensures { IfOk result (λ value. value ≡ spec.chosen index.now (filter (λ x. same_variable x.spot.variable variable.now) cells.now)) }
{
    let mut value = None;
    let mut is_first = true;
    for cell in cells {
        if cell.spot.variable.is_same(variable) {
            value = if is_first {
                copy_of(alloc, &cell.value)?
            } else {
                where_known(alloc, index, cell.spot.index, &cell.value, &value)?
            };
            is_first = false;
        }
    }
    Ok(value)
}
