//! Laws about what is known of cells. Each law is the contract of a function with an empty body.
ghost use Rattle.std.specs.Prelude.{◌≡◌, ◌++◌, ℕ, Bool, Some, List, length, is_some, is_none};
ghost use Rattle.std.specs.List.{Contains};
ghost use Rattle.sym_terms.specs.Terms.{AreTerms, id_of};
ghost use Rattle.sym_terms.specs.declared.node.Node.{Node};
ghost use Rattle.sym_exec.specs.Executed.{Symbolic};
ghost use Rattle.sym_exec.specs.Making.{Grows};
ghost use Rattle.sym_exec.specs.tc_code.declared.cell.Cell.{Cell};
ghost use Rattle.lawful_order.specs.order_formula.Truth.{passes_at};
ghost use Rattle.lawful_order.specs.order_formula.Worlds.{World};
ghost use Rattle.lawful_order.specs.Cells.{is_same_cell};
ghost use Rattle.order_cells.specs.Same.{known_same, same_test};
ghost use Rattle.order_cells.specs.Terms.{CellIsOf, HaveTerms};

/// What is known of two cells holds in every world. If nothing is known, there is a test: once its
/// term exists, the cells are the same exactly when the test passes.
pub fn cells_are_told()
    ensures known { (nodes : List Node) (w : World) (a b : Cell ℕ) (same : Bool) → known_same nodes a b ≡ Some same → is_same_cell nodes w a b ≡ same }
    ensures either { (nodes : List Node) (a b : Cell ℕ) → is_some (same_test nodes a b) ≡ is_none (known_same nodes a b) }
    ensures tested { (nodes : List Node) (w : World) (a b : Cell ℕ) (test : Node)
        → AreTerms nodes → same_test nodes a b ≡ Some test → Contains nodes test → is_same_cell nodes w a b ≡ passes_at nodes w (id_of nodes test) }
{}

/// More terms don't change what is known, the test, or whether cells are the same.
pub fn cells_stay()
    ensures known { (nodes more : List Node) (a b : Cell ℕ) → CellIsOf (length nodes) a → CellIsOf (length nodes) b
        → known_same (nodes ++ more) a b ≡ known_same nodes a b }
    ensures test { (nodes more : List Node) (a b : Cell ℕ) → CellIsOf (length nodes) a → CellIsOf (length nodes) b
        → same_test (nodes ++ more) a b ≡ same_test nodes a b }
    ensures same { (nodes more : List Node) (w : World) (a b : Cell ℕ) → CellIsOf (length nodes) a → CellIsOf (length nodes) b
        → is_same_cell (nodes ++ more) w a b ≡ is_same_cell nodes w a b }
    ensures accesses { (nodes later : List Node) (symbolic : Symbolic) → Grows nodes later → HaveTerms nodes symbolic → HaveTerms later symbolic }
{}
