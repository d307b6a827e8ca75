//! Lawful orders correspond to runs. Each law, for every memory model, is the contract of a
//! function with an empty body.
#![tactic(auto)]

ghost use Rattle.std.specs.Prelude.{◌↔◌, List};
ghost use Rattle.lawful_terms.specs.tc_base.declared.moves.Move.{Move};
ghost use Rattle.clap_system.specs.tc_code.Run.{Reproduces};
ghost use Rattle.clap_system.specs.path_walk.Fits.{Fits};
ghost use Rattle.clap_system.specs.sym_terms.Terms.{AreTerms};
ghost use Rattle.clap_system.specs.sym_terms.declared.node.Node.{Node};
ghost use Rattle.clap_system.specs.order_formula.Worlds.{World};
ghost use Rattle.plan_runs.specs.path_laws.Setting.{Setting};
ghost use Rattle.plan_runs.specs.world_plan.Going.{IsLawfulWorld};
ghost use Rattle.orders_are_runs.specs.Possible.{IsPossible};

/// A log fits, its paths aren't dead, and some order of their events is lawful, exactly when some
/// moves reproduce the log, a failure or a deadlock.
pub fn orders_are_runs<B>()
    ensures { (s : Setting B) (nodes : List Node) → AreTerms nodes
        → ((w : World) × IsLawfulWorld s nodes w) ↔ ((moves : List Move) × Reproduces s.ops s.code s.log moves) }
{}

/// The formula of a log that fits is true in some world of its paths, which aren't dead, exactly
/// when some moves reproduce the log.
pub fn systems_are_runs<B>()
    ensures { (s : Setting B) → Fits s.code s.log
        → IsPossible s.ops.buffered s.bound s.code s.log ↔ ((moves : List Move) × Reproduces s.ops s.code s.log moves) }
{}
