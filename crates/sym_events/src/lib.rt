//! How the symbolic execution of paths agrees with their events.
//!
//! Each law is the contract of a function with an empty body.
#![tactic(auto)]

ghost use Rattle.std.specs.Prelude.{◌≡◌, ◌<◌, ℕ, List, Some, length, slice_get};
ghost use Rattle.std.specs.List.{Contains};
ghost use Rattle.order_cells.specs.tc_code.Code.{Code};
ghost use Rattle.order_cells.specs.tc_code.Lawful.{IsLawful};
ghost use Rattle.order_events.specs.path_walk.Paths.{Paths, ArePaths};
ghost use Rattle.order_cells.specs.sym_terms.declared.node.Node.{Node};
ghost use Rattle.order_cells.specs.sym_exec.Executed.{Course, executed};
ghost use Rattle.order_cells.specs.sym_exec.declared.symbolic.Test.{Test};
ghost use Rattle.order_cells.specs.lawful_order.Whole.{IsExecutedBy};
ghost use Rattle.order_cells.specs.Terms.{HaveTerms};

/// The accesses of the symbolic execution are the paths' loads, stores and exchanges, in the same
/// steps, and the number of each load is below their count.
pub fn executed_paths()
    ensures { (code : Code) (paths : Paths) (nodes : List Node)
        → ArePaths code paths → IsExecutedBy paths (executed code paths nodes).symbolic }
{}

/// For lawful code, the terms that accesses and tests name exist after the execution, whatever its
/// paths are.
pub fn executed_terms()
    ensures accesses { (code : Code) (paths : Paths) (nodes : List Node)
        → IsLawful code → HaveTerms (executed code paths nodes).nodes (executed code paths nodes).symbolic }
    ensures tests { (code : Code) (paths : Paths) (nodes : List Node) (t : ℕ) (c : Course) (x : Test) → IsLawful code
        → slice_get (executed code paths nodes).symbolic.threads t ≡ Some c → Contains c.tests x → x.term < length (executed code paths nodes).nodes }
{}
