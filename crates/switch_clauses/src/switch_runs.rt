//! A run has the context switches of its world. Each law, for every memory model, is the contract
//! of a function with an empty body.

ghost use Rattle.std.specs.Prelude.{◌≡◌, ◌≤◌, ◌<◌, List, length};
ghost use Rattle.std.specs.List.{All};
ghost use Rattle.plan_runs.specs.tc_base.declared.moves.Move.{Move};
ghost use Rattle.plan_runs.specs.tc_code.Run.{Reproduces};
ghost use Rattle.plan_runs.specs.run_history.History.{history};
ghost use Rattle.plan_runs.specs.run_follows.Follow.{moves_for};
ghost use Rattle.plan_runs.specs.path_walk.Paths.{paths_of};
ghost use Rattle.order_switches.specs.sym_terms.declared.node.Node.{Node};
ghost use Rattle.plan_runs.specs.sym_laws.Valued.{found};
ghost use Rattle.order_switches.specs.order_formula.Worlds.{World};
ghost use Rattle.plan_runs.specs.lawful_order.Events.{all_events};
ghost use Rattle.plan_runs.specs.path_laws.Setting.{Setting};
ghost use Rattle.plan_runs.specs.world_plan.Going.{IsLawfulWorld};
ghost use Rattle.plan_runs.specs.world_plan.Plan.{plan};
ghost use Rattle.run_lawful.specs.world.WorldOf.{world_in};
ghost use Rattle.switch_clauses.specs.switch_runs.Switches.{switches};
ghost use Rattle.switch_clauses.specs.switch_runs.Worlds.{world_switches};

/// Moves that reproduce a log have as many context switches as the world of their history.
pub fn runs_switch_as_worlds<B>()
    ensures { (s : Setting B) (nodes : List Node) (moves : List Move)
        → length (all_events (paths_of s.code s.log)) ≤ 256 → Reproduces s.ops s.code s.log moves
        → switches s.ops s.code moves ≡ world_switches (paths_of s.code s.log)
        (world_in s.ops.buffered (paths_of s.code s.log) (found s.code s.log nodes).symbolic (history s.ops s.code moves)) }
{}

/// The moves of a lawful world's plan, which reproduce its log, have as many context switches as
/// the world.
pub fn worlds_switch_as_runs<B>()
    ensures { (s : Setting B) (nodes : List Node) (w : World) → IsLawfulWorld s nodes w → All (λ p. p < 256) w.positions
        → switches s.ops s.code (moves_for s.bound (plan s.ops.buffered s.code (paths_of s.code s.log) w)) ≡ world_switches (paths_of s.code s.log) w }
{}
