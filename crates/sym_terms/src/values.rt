//! Values of terms.
ghost use Rattle.std.specs.Prelude.{◌≡◌, ◌+◌, ◌<◌, ◌≤◌, max, [], length, IfOk};
ghost use Rattle.sym_terms.specs.Terms.{NamesBelow};
ghost use Rattle.sym_terms.specs.Values.{AreKnown, node_value, value_of};

use crate::{Id, Node, Terms};
use int_ops::arith;
use std::alloc::{AllocError, Global};
use std::marker::Model;

/// The values of terms, given the values that the loads took. A term's value is computed when the
/// value of that term, or of a later one, is first asked for.
#[derive(Debug, Drop)]
pub struct Values {
    symbols: Vec<i32>,
    known: Vec<i32>,
}

impl Model for Values {
    ghost use Rattle.std.specs.Prelude.{vec_capacity};
    ghost use Rattle.sym_terms.specs.Values.{Table};

    ghost Value = { Table };

    ghost view = { λ v. record { symbols = v.symbols.items; known = v.known.items; room = vec_capacity v.known } };
}

impl Values {
    /// An empty table with room for all terms, given the values of the loads. A missing load has
    /// the value 0. Fails if out of memory.
    pub fn new(alloc: Global, terms: &Terms, loads: &[i32]) -> Result<Values, AllocError>
        ensures symbols { IfOk result (λ values. values.symbols ≡ loads.now) }
        ensures known { IfOk result (λ values. values.known ≡ []) }
        ensures room { IfOk result (λ values. values.room ≡ length terms.now) }
        ensures right { IfOk result (λ values. AreKnown terms.now values) }
    {
        Ok(Values {
            symbols: loads.to_vec(alloc)?,
            known: Vec::with_capacity(alloc, terms.len())?,
        })
    }
}

/// The value of a term. Computes all values up to it that the table doesn't have yet. Allocates
/// nothing, so the table must have been made for these terms, or for later ones.
pub fn value(terms: &Terms, id: Id, values: &mut Values) -> i32
    requires there { id < length terms.now }
    requires room { length terms.now ≤ values.old.room }
    requires known { AreKnown terms.now values.old }
    ensures value { result ≡ value_of terms.now values.old.symbols id }
    ensures computed { length values.new.known ≡ max (length values.old.known) (id + 1) }
    ensures known { AreKnown terms.now values.new }
    ensures symbols { values.new.symbols ≡ values.old.symbols }
    ensures room { values.old.room ≤ values.new.room }
{
    let nodes = terms.nodes();
    while values.known.len() <= id.place() {
        let node = nodes[values.known.len()];
        let value = value_of_node(node, &values.symbols, &values.known);
        // The table has room for every node, so this allocates nothing.
        let _ = values.known.push(value);
    }
    values.known[id.place()]
}

/// The value of a node, given the values of the nodes before it.
fn value_of_node(node: Node, symbols: &[i32], known: &[i32]) -> i32
    requires { NamesBelow (length known.now) node }
    ensures { result ≡ node_value known.now symbols.now node }
{
    match node {
        Node::Constant(number) => number,
        Node::Symbol(load) => symbols.get(load as usize).copied().unwrap_or(0),
        Node::Unary(op, a) => arith::unary(op, known[a.place()]),
        Node::Binary(op, a, b) => arith::binary(op, known[a.place()], known[b.place()]),
    }
}
