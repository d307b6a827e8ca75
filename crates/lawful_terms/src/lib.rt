//! Terms that nothing in the paths names don't change which orders are lawful. The law is the
//! contract of a function with an empty body.
#![tactic(auto)]

ghost use Rattle.std.specs.Prelude.{◌↔◌, ◌++◌, ◌<◌, ℕ, Bool, List, Some, length, slice_get, ◌≡◌};
ghost use Rattle.std.specs.List.{Contains};
ghost use Rattle.memory_order.specs.tc_code.Code.{Code};
ghost use Rattle.memory_order.specs.path_walk.Paths.{Paths};
ghost use Rattle.memory_order.specs.store_buffers.Pending.{Binding};
ghost use Rattle.memory_order.specs.sym_terms.declared.node.Node.{Node};
ghost use Rattle.memory_order.specs.sym_exec.Executed.{Course, Symbolic};
ghost use Rattle.memory_order.specs.sym_exec.declared.symbolic.Test.{Test};
ghost use Rattle.memory_order.specs.order_formula.Worlds.{World};
ghost use Rattle.memory_order.specs.order_formula.declared.group.Group.{Group};
ghost use Rattle.memory_order.specs.lawful_order.Lawful.{MeetsRule};
ghost use Rattle.memory_order.specs.order_cells.Terms.{HaveTerms};

/// If accesses and tests name only existing terms, adding terms doesn't change whether an order
/// meets the rule of a group.
pub fn orders_stay_lawful()
    ensures { (buffered : Bool) (bound : Binding) (code : Code) (paths : Paths) (symbolic : Symbolic) (nodes more : List Node) (w : World) (g : Group)
        → HaveTerms nodes symbolic
        → ((t : ℕ) (c : Course) (x : Test) → slice_get symbolic.threads t ≡ Some c → Contains c.tests x → x.term < length nodes)
        → MeetsRule buffered bound code paths symbolic nodes w g ↔ MeetsRule buffered bound code paths symbolic (nodes ++ more) w g }
{}
