//! Nodes, and their names.
ghost use Rattle.std.specs.Prelude.{◌≡◌};

use int_ops::{BinOp, UnOp};
use std::marker::Model;

/// The name of a term: the index of its node.
#[derive(Clone, Copy, Debug, PartialEq, Eq, Hash)]
pub struct Id {
    place: usize,
}

impl Model for Id {
    ghost use Rattle.std.specs.Prelude.{ℕ};

    ghost Value = { ℕ };

    ghost view = { λ a. a.place };

    ghost inverse = { λ place. record { place = place } };
}

impl Id {
    /// The name of the node at an index.
    pub(crate) fn at(place: usize) -> Id
        ensures { result ≡ place }
    {
        Id { place }
    }

    /// The index of the node among the nodes of the terms.
    pub fn place(self) -> usize
        ensures { result ≡ self }
    {
        self.place
    }
}

/// A term: a constant, a symbol, or an operator with the names of its parts.
#[derive(Clone, Copy, Debug, PartialEq, Eq, Hash)]
pub enum Node {
    /// A constant.
    Constant(i32),
    /// The value that the load with this number takes.
    Symbol(u32),
    /// An operator over one term.
    Unary(UnOp, Id),
    /// An operator over two terms.
    Binary(BinOp, Id, Id),
}
