//! In the world of a run, each thread's events are in the order that the memory model requires, and
//! all branches and sites have the outcomes of the paths.
//!
//! Each law is the contract of a function with an empty body.
ghost use Rattle.std.specs.Prelude.{ℕ, List};
ghost use Rattle.sym_events.specs.tc_base.declared.moves.Move.{Move};
ghost use Rattle.sym_events.specs.tc_code.Run.{Reproduces};
ghost use Rattle.sym_steps.specs.run_history.History.{history};
ghost use Rattle.sym_events.specs.path_walk.Paths.{paths_of};
ghost use Rattle.sym_events.specs.sym_terms.Terms.{AreTerms};
ghost use Rattle.sym_events.specs.sym_terms.declared.node.Node.{Node};
ghost use Rattle.sym_steps.specs.sym_laws.Valued.{found};
ghost use Rattle.sym_events.specs.lawful_order.Memory.{OwnRule};
ghost use Rattle.sym_events.specs.lawful_order.Tests.{TestRule};
ghost use Rattle.run_lawful.specs.world.WorldOf.{world_in};
ghost use Rattle.sym_steps.specs.path_laws.Setting.{Setting};

/// A thread's events stay in program order where the model requires it: a step that needs an empty
/// buffer finds one, and a store that is bound after another drains after it. No step comes after
/// the failing step.
pub fn own_orders_are_kept<B>()
    ensures { (s : Setting B) (nodes : List Node) (moves : List Move) (t : ℕ) → AreTerms nodes → Reproduces s.ops s.code s.log moves
        → OwnRule s.ops.buffered s.bound (paths_of s.code s.log) (found s.code s.log nodes).symbolic (found s.code s.log nodes).nodes
        (world_in s.ops.buffered (paths_of s.code s.log) (found s.code s.log nodes).symbolic (history s.ops s.code moves)) t }
{}

/// Each test of a path has its wanted outcome, given the values that the loads took.
pub fn tests_are_met<B>()
    ensures { (s : Setting B) (nodes : List Node) (moves : List Move) (t line : ℕ) → AreTerms nodes → Reproduces s.ops s.code s.log moves
        → TestRule (found s.code s.log nodes).symbolic (found s.code s.log nodes).nodes
        (world_in s.ops.buffered (paths_of s.code s.log) (found s.code s.log nodes).symbolic (history s.ops s.code moves)) t line }
{}
