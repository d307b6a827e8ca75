//! Laws about terms. Each law is the contract of a function with an empty body.
ghost use Rattle.std.specs.Prelude.{◌≡◌, ℕ, ℤ, ◌<◌, ◌++◌, List, Some, slice_get, length};
ghost use Rattle.sym_terms.specs.Terms.{AreTerms, NamesBelow, with_node, id_of};
ghost use Rattle.sym_terms.specs.Values.{Table, AreKnown, values_of, value_of, node_value};
ghost use Rattle.sym_terms.specs.declared.node.Node.{Node};

/// New terms are appended, and only if they aren't there already.
pub fn terms_grow()
    ensures lawful { (nodes : List Node) (node : Node) → AreTerms nodes → NamesBelow (length nodes) node → AreTerms (with_node nodes node) }
    ensures end { (nodes : List Node) (node : Node) → (more : List Node) × (with_node nodes node ≡ nodes ++ more) }
    ensures named { (nodes : List Node) (node : Node) → slice_get (with_node nodes node) (id_of nodes node) ≡ Some node }
    ensures known { (nodes : List Node) (node : Node) (id : ℕ) → AreTerms nodes → slice_get nodes id ≡ Some node
        → (with_node nodes node ≡ nodes) × (id_of nodes node ≡ id) }
{}

/// The term of a node has the node's value, computed from the values of its parts.
pub fn names_have_values()
    ensures { (nodes : List Node) (node : Node) (loads : List ℤ) → AreTerms nodes → NamesBelow (length nodes) node
        → value_of (with_node nodes node) loads (id_of nodes node) ≡ node_value (values_of nodes loads) loads node }
{}

/// Terms keep their meaning while others are added, and a table of values stays right.
pub fn names_keep_their_values()
    ensures names { (nodes more : List Node) (loads : List ℤ) (id : ℕ) → id < length nodes
        → value_of (nodes ++ more) loads id ≡ value_of nodes loads id }
    ensures tables { (nodes more : List Node) (table : Table) → AreKnown nodes table → AreKnown (nodes ++ more) table }
{}
