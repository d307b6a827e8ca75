//! Terms, each stored once.
ghost use Rattle.std.specs.Prelude.{◌≡◌, ◌<◌, [], length, IfOk, OnOk, OnErr};
ghost use Rattle.sym_terms.specs.Terms.{AreTerms, NamesBelow, with_node, id_of};
ghost use Rattle.sym_terms.specs.declared.node.Node.TheVariants.{Constant, Symbol, Unary, Binary};

use crate::{Id, Node};
use indexmap::IndexSet;
use int_ops::{BinOp, UnOp};
use std::alloc::{AllocError, Global};
use std::marker::Model;

/// Distinct nodes, each of which names only earlier ones. A name stays valid, and keeps its
/// meaning, while terms are added.
///
/// Equal terms have one name: adding an existing term returns its name. Fails only if out of
/// memory.
#[derive(Debug, Drop)]
pub struct Terms {
    nodes: IndexSet<Node>,
}

impl Model for Terms {
    ghost use Rattle.std.specs.Prelude.{List};
    ghost use Rattle.sym_terms.specs.declared.node.Node.{Node};

    ghost Value = { List Node };

    ghost use Rattle.sym_terms.specs.Terms.{AreTerms};

    ghost view = { λ a. a.nodes.keys };

    ghost invariant = { λ a. AreTerms a.nodes.keys };
}

impl Terms {
    /// No terms.
    pub fn new(alloc: Global) -> Terms
        ensures { result ≡ [] }
    {
        Terms {
            nodes: IndexSet::new(alloc),
        }
    }

    /// The term of a constant.
    pub fn constant(&mut self, value: i32) -> Result<Id, AllocError>
        ensures added { OnOk result (self.new ≡ with_node self.old (Constant value)) }
        ensures id { IfOk result (λ id. id ≡ id_of self.old (Constant value)) }
        ensures within { IfOk result (λ id. id < length self.new) }
        ensures refused { OnErr result (self.new ≡ self.old) }
    {
        self.add(Node::Constant(value))
    }

    /// The term of the value that the load with this number takes.
    pub fn symbol(&mut self, load: u32) -> Result<Id, AllocError>
        ensures added { OnOk result (self.new ≡ with_node self.old (Symbol load)) }
        ensures id { IfOk result (λ id. id ≡ id_of self.old (Symbol load)) }
        ensures within { IfOk result (λ id. id < length self.new) }
        ensures refused { OnErr result (self.new ≡ self.old) }
    {
        self.add(Node::Symbol(load))
    }

    /// The term of an operator over a term.
    pub fn op1(&mut self, op: UnOp, a: Id) -> Result<Id, AllocError>
        requires { a < length self.old }
        ensures added { OnOk result (self.new ≡ with_node self.old (Unary op a)) }
        ensures id { IfOk result (λ id. id ≡ id_of self.old (Unary op a)) }
        ensures within { IfOk result (λ id. id < length self.new) }
        ensures refused { OnErr result (self.new ≡ self.old) }
    {
        self.add(Node::Unary(op, a))
    }

    /// The term of an operator over two terms.
    pub fn op2(&mut self, op: BinOp, a: Id, b: Id) -> Result<Id, AllocError>
        requires first { a < length self.old }
        requires second { b < length self.old }
        ensures added { OnOk result (self.new ≡ with_node self.old (Binary op a b)) }
        ensures id { IfOk result (λ id. id ≡ id_of self.old (Binary op a b)) }
        ensures within { IfOk result (λ id. id < length self.new) }
        ensures refused { OnErr result (self.new ≡ self.old) }
    {
        self.add(Node::Binary(op, a, b))
    }

    /// The term of a node.
    fn add(&mut self, node: Node) -> Result<Id, AllocError>
        requires { NamesBelow (length self.old) node }
        ensures added { OnOk result (self.new ≡ with_node self.old node) }
        ensures id { IfOk result (λ id. id ≡ id_of self.old node) }
        ensures within { IfOk result (λ id. id < length self.new) }
        ensures refused { OnErr result (self.new ≡ self.old) }
    {
        let (place, _) = self.nodes.insert_full(node)?;
        Ok(Id::at(place))
    }

    /// The nodes, in the order of their names.
    pub fn nodes(&self) -> &[Node]
        ensures nodes { result.now ≡ self.now }
        ensures lawful { AreTerms self.now }
    {
        self.nodes.as_slice()
    }

    /// The number of distinct terms.
    #[allow(clippy::len_without_is_empty)]
    pub fn len(&self) -> usize
        ensures { result ≡ length self.now }
    {
        self.nodes.len()
    }
}
