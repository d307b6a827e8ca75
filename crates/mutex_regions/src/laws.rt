//! Laws about regions. Each law is the contract of a function with an empty body.
ghost use Rattle.std.specs.Prelude.{ℕ, List};
ghost use Rattle.tc_code.specs.Code.{Code};
ghost use Rattle.tc_code.specs.Lawful.{IsLawful};
ghost use Rattle.path_walk.specs.Paths.{ArePaths, Paths};
ghost use Rattle.sym_terms.specs.Terms.{AreTerms};
ghost use Rattle.sym_terms.specs.declared.node.Node.{Node};
ghost use Rattle.sym_exec.specs.Executed.{Symbolic};
ghost use Rattle.sym_exec.specs.Ints.{AreInts};
ghost use Rattle.order_formula.specs.Worlds.{World, IsWorld};
ghost use Rattle.order_events.specs.lawful_order.Lawful.{IsWorldOf};
ghost use Rattle.order_events.specs.lawful_order.Whole.{IsExecutedBy};
ghost use Rattle.mutex_regions.specs.InOrder.{IsInOrder};
ghost use Rattle.mutex_regions.specs.Laws.{RegionsAct};

/// If all is in order in a world, each region of a mutex acts as its function says, on the state
/// that the region before it left. Other rules may be broken.
pub fn regions_act()
    ensures { (code : Code) (paths : Paths) (symbolic : Symbolic) (nodes : List Node) (w : World) (m : ℕ) → IsLawful code → ArePaths code paths
        → IsExecutedBy paths symbolic → AreTerms nodes → IsWorld w → IsWorldOf paths symbolic w
        → AreInts nodes w.loads → IsInOrder code paths symbolic nodes w m
        → RegionsAct code paths symbolic nodes w m }
{}
