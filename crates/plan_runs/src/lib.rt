//! Lawful orders are the orders of runs: the plan of a lawful world reproduces its log. Each law is
//! the contract of a function with an empty body.
#![tactic(auto)]

ghost use Rattle.std.specs.Prelude.{◌≡◌, List};
ghost use Rattle.condition_order.specs.tc_code.Run.{Reproduces};
ghost use Rattle.sym_steps.specs.run_history.History.{history};
ghost use Rattle.sym_steps.specs.run_follows.Follow.{moves_for};
ghost use Rattle.condition_order.specs.path_walk.Paths.{paths_of};
ghost use Rattle.condition_order.specs.sym_terms.declared.node.Node.{Node};
ghost use Rattle.condition_order.specs.order_formula.Worlds.{World};
ghost use Rattle.sym_steps.specs.path_laws.Setting.{Setting};
ghost use Rattle.world_plan.specs.Going.{IsLawfulWorld, HaveDrained};
ghost use Rattle.world_plan.specs.Plan.{end_of, plan};
ghost use Rattle.world_plan.specs.Sights.{AreInOrder};

pub mod memory;
pub mod waits;

/// The moves of a lawful world's plan reproduce the log, a failure or a deadlock, under the memory
/// model: their history is the plan, and the paths' events take place in the order of the world.
/// The stores in buffers that have drained are those before the failing event, or all of them in a
/// deadlock.
pub fn lawful_worlds_are_run<B>()
    ensures reproduces { (s : Setting B) (nodes : List Node) (w : World) → IsLawfulWorld s nodes w
        → Reproduces s.ops s.code s.log (moves_for s.bound (plan s.ops.buffered s.code (paths_of s.code s.log) w)) }
    ensures history { (s : Setting B) (nodes : List Node) (w : World) → IsLawfulWorld s nodes w
        → history s.ops s.code (moves_for s.bound (plan s.ops.buffered s.code (paths_of s.code s.log) w)) ≡ plan s.ops.buffered s.code (paths_of s.code s.log) w }
    ensures order { (s : Setting B) (nodes : List Node) (w : World) → IsLawfulWorld s nodes w
        → AreInOrder s.ops.buffered (paths_of s.code s.log) w (plan s.ops.buffered s.code (paths_of s.code s.log) w) }
    ensures drained { (s : Setting B) (nodes : List Node) (w : World) → IsLawfulWorld s nodes w
        → HaveDrained s.code s.log w s.ops.buffered (end_of (paths_of s.code s.log) w) (plan s.ops.buffered s.code (paths_of s.code s.log) w) }
{}
