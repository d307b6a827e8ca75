//! Values of terms while some loads have no value yet.

use int_ops::arith;
use std::alloc::{AllocError, Global};
use sym_exec::Cell;
use sym_terms::{Id, Node, Terms};

/// A limit that no number of tests or terms reaches.
pub(crate) const NO_LIMIT: usize = usize::MAX;

/// The value of each term, if it is known; that of a load's symbol is the value that it took.
///
/// A thread's terms over a load are made after the load's symbol and before the next one's. So each
/// load that takes a value changes only the terms between the two.
#[derive(Drop)]
pub struct Values<'a> {
    nodes: &'a [Node],
    /// The place of each load's symbol, in order.
    symbols: Vec<usize>,
    known: Vec<Option<i32>>,
}

impl<'a> Values<'a> {
    /// The values before any load has taken one.
    pub(crate) fn new(alloc: Global, terms: &'a Terms) -> Result<Values<'a>, AllocError> {
        let nodes = terms.nodes();
        let mut values = Values {
            nodes,
            symbols: symbols(alloc, nodes)?,
            known: vec![in alloc; None; nodes.len()]?,
        };
        values.renew_all();
        Ok(values)
    }

    /// The value of a term, if it is known.
    pub fn of(&self, term: Id) -> Option<i32> {
        self.at(term.place())
    }

    /// The value that a load took, if it is known.
    pub fn load(&self, load: u32) -> Option<i32> {
        self.at(self.symbol(load as usize))
    }

    /// The number of a cell, if it is known and inside its array.
    pub fn cell(&self, cell: Cell) -> Option<u32> {
        match cell {
            Cell::Fixed(number) => Some(number),
            Cell::Element {
                first,
                length,
                index,
            } => {
                let index = u32::try_from(self.of(index)?).ok()?;
                if index < length {
                    first.checked_add(index)
                } else {
                    None
                }
            }
        }
    }

    /// Gives a load a value, or an unknown one, and evaluates at most `limit` of the terms that it
    /// may change.
    pub fn set(&mut self, load: u32, value: Option<i32>, limit: usize) {
        let from = self.symbol(load as usize);
        let to = self.symbol(load as usize + 1);
        if let Some(known) = self.known.get_mut(from) {
            *known = value;
        }
        self.renew(from, to, limit);
    }

    /// Evaluates all terms again, which is needed when a parent hands terms to a child.
    pub(crate) fn renew_all(&mut self) {
        self.renew(0, self.nodes.len(), NO_LIMIT);
    }

    /// The place of a load's symbol, or the end of the terms if there is none.
    fn symbol(&self, load: usize) -> usize {
        self.symbols.get(load).copied().unwrap_or(self.nodes.len())
    }

    /// Evaluates the terms from one place up to another again, but at most `limit` of them.
    fn renew(&mut self, from: usize, to: usize, limit: usize) {
        for place in (from..to).take(limit) {
            let value = self.worked_out(place);
            if let Some(known) = self.known.get_mut(place) {
                *known = value;
            }
        }
    }

    /// The value of the term at a place, from the values of its parts.
    fn worked_out(&self, place: usize) -> Option<i32> {
        match *self.nodes.get(place)? {
            Node::Constant(number) => Some(number),
            Node::Symbol(_) => self.at(place),
            Node::Unary(op, a) => Some(arith::unary(op, self.of(a)?)),
            Node::Binary(op, a, b) => Some(arith::binary(op, self.of(a)?, self.of(b)?)),
        }
    }

    /// The value of the term at a place, if it is known.
    fn at(&self, place: usize) -> Option<i32> {
        *self.known.get(place)?
    }
}

/// The places of the symbols of loads, which are made in the order of the loads.
fn symbols(alloc: Global, nodes: &[Node]) -> Result<Vec<usize>, AllocError> {
    let mut places = Vec::new(alloc);
    for (place, node) in nodes.iter().enumerate() {
        if matches!(node, Node::Symbol(_)) {
            places.push(place)?;
        }
    }
    Ok(places)
}
