//! Each run that reproduces a log has a lawful order. The theorem is the contract of a function
//! with an empty body.
#![tactic(auto)]

ghost use Rattle.std.specs.Prelude.{List};
ghost use Rattle.sym_events.specs.tc_base.declared.moves.Move.{Move};
ghost use Rattle.sym_events.specs.tc_code.Run.{Reproduces};
ghost use Rattle.sym_steps.specs.run_history.History.{history};
ghost use Rattle.sym_events.specs.path_walk.Paths.{paths_of};
ghost use Rattle.sym_events.specs.sym_terms.Terms.{AreTerms};
ghost use Rattle.sym_events.specs.sym_terms.declared.node.Node.{Node};
ghost use Rattle.sym_steps.specs.sym_laws.Valued.{found};
ghost use Rattle.sym_steps.specs.path_laws.Setting.{Setting};
ghost use Rattle.world_plan.specs.Going.{IsLawfulWorld};
ghost use Rattle.world_plan.specs.Sights.{AreInOrder};
ghost use Rattle.run_lawful.specs.world.WorldOf.{world_in};

pub mod own;
pub mod reads;
pub mod waits;
pub mod world;

/// If moves reproduce a log, the world of their history is lawful, and has the events in the order
/// in which they take place. This holds under any memory model that obeys its laws.
pub fn runs_have_lawful_worlds<B>()
    ensures lawful { (s : Setting B) (nodes : List Node) (moves : List Move)
        → AreTerms nodes → Reproduces s.ops s.code s.log moves
        → IsLawfulWorld s nodes
        (world_in s.ops.buffered (paths_of s.code s.log) (found s.code s.log nodes).symbolic (history s.ops s.code moves)) }
    ensures order { (s : Setting B) (nodes : List Node) (moves : List Move) → Reproduces s.ops s.code s.log moves
        → AreInOrder s.ops.buffered (paths_of s.code s.log)
        (world_in s.ops.buffered (paths_of s.code s.log) (found s.code s.log nodes).symbolic (history s.ops s.code moves)) (history s.ops s.code moves) }
{}
