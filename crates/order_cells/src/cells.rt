//! When two cells are known to be the same.
ghost use Rattle.std.specs.Prelude.{◌≡◌, ℕ, length, fold, option_map, OnOk, OnErr, IfOk};
ghost use Rattle.std.specs.Option.{option_to_list};
ghost use Rattle.sym_terms.specs.Terms.{with_node, id_of};
ghost use Rattle.sym_exec.specs.tc_code.declared.cell.Cell.TheVariants.{Element};
ghost use Rattle.order_cells.specs.Same as spec;
ghost use Rattle.order_cells.specs.Terms.{CellIsOf};

use int_ops::BinOp;
use std::alloc::AllocError;
use sym_exec::Cell;
use sym_terms::{Id, Node, Terms};

/// Whether two cells are the same, if known from array names and constant indexes. None if both are
/// elements of one array and the values of their indexes decide.
pub fn known_same(terms: &Terms, a: Cell, b: Cell) -> Option<bool>
    ensures { result ≡ spec.known_same terms.now a b }
{
    match a {
        Cell::Fixed(cell) => match b {
            Cell::Fixed(other) => Some(cell == other),
            Cell::Element { .. } => Some(false),
        },
        Cell::Element { first, index, .. } => known_element(terms, first, index, b),
    }
}

/// Whether an element of the array that begins at `first` is the cell b, if known.
fn known_element(terms: &Terms, first: u32, index: Id, b: Cell) -> Option<bool>
    ensures { (length : ℕ) → result ≡ spec.known_same terms.now (Element first length index) b }
{
    match b {
        Cell::Element {
            first: other,
            index: at,
            ..
        } if first == other => known_equal(terms, index, at),
        _ => Some(false),
    }
}

/// The test whether two cells are the same, if `known_same` is None. If out of memory, the terms
/// are unchanged.
pub fn same_test(terms: &mut Terms, a: Cell, b: Cell) -> Result<Option<Id>, AllocError>
    requires first { CellIsOf (length terms.old) a }
    requires second { CellIsOf (length terms.old) b }
    ensures test { IfOk result (λ test. test ≡ option_map (id_of terms.old) (spec.same_test terms.old a b)) }
    ensures added { OnOk result (terms.new ≡ fold with_node terms.old (option_to_list (spec.same_test terms.old a b))) }
    ensures refused { OnErr result (terms.new ≡ terms.old) }
{
    if known_same(terms, a, b).is_some() {
        return Ok(None);
    }
    let Cell::Element { index, .. } = a else {
        return Ok(None);
    };
    let Cell::Element { index: other, .. } = b else {
        return Ok(None);
    };
    Ok(Some(terms.op2(BinOp::Eq, index, other)?))
}

/// Whether two terms are equal, if known.
fn known_equal(terms: &Terms, a: Id, b: Id) -> Option<bool>
    ensures { result ≡ spec.known_equal terms.now a b }
{
    if a == b {
        return Some(true);
    }
    Some(constant_of(terms, a)? == constant_of(terms, b)?)
}

/// The value of a term, if it is a constant.
pub fn constant_of(terms: &Terms, term: Id) -> Option<i32>
    ensures { result ≡ spec.constant_of terms.now term }
{
    match terms.nodes().get(term.place()) {
        Some(Node::Constant(number)) => Some(*number),
        _ => None,
    }
}
