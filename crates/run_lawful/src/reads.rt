//! The values of loads in the world of a run. The law is the contract of a function with an empty
//! body.
ghost use Rattle.std.specs.Prelude.{ℕ, List};
ghost use Rattle.sym_events.specs.tc_base.declared.moves.Move.{Move};
ghost use Rattle.sym_events.specs.tc_code.Run.{Reproduces};
ghost use Rattle.sym_steps.specs.run_history.History.{history};
ghost use Rattle.sym_events.specs.path_walk.Paths.{paths_of};
ghost use Rattle.sym_events.specs.sym_terms.Terms.{AreTerms};
ghost use Rattle.sym_events.specs.sym_terms.declared.node.Node.{Node};
ghost use Rattle.sym_steps.specs.sym_laws.Valued.{found};
ghost use Rattle.sym_events.specs.lawful_order.Reads.{ReadRule};
ghost use Rattle.run_lawful.specs.world.WorldOf.{world_in};
ghost use Rattle.sym_steps.specs.path_laws.Setting.{Setting};

/// Each load and exchange takes the value of the last store that it sees: the newest store to the
/// cell in its own thread's buffer, or else the last one that reached memory.
pub fn loads_take_the_last<B>()
    ensures { (s : Setting B) (nodes : List Node) (moves : List Move) (t line : ℕ) → AreTerms nodes → Reproduces s.ops s.code s.log moves
        → ReadRule s.code (paths_of s.code s.log) (found s.code s.log nodes).symbolic (found s.code s.log nodes).nodes
        (world_in s.ops.buffered (paths_of s.code s.log) (found s.code s.log nodes).symbolic (history s.ops s.code moves)) t line }
{}
