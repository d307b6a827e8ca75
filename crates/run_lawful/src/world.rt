//! The world of a run: the order of its events, the values of its loads, and the events that end
//! sleeps.
//!
//! Each law is the contract of a function with an empty body.
ghost use Rattle.std.specs.Prelude.{List};
ghost use Rattle.sym_events.specs.tc_base.declared.moves.Move.{Move};
ghost use Rattle.sym_events.specs.tc_code.Run.{Reproduces};
ghost use Rattle.sym_steps.specs.run_history.History.{history};
ghost use Rattle.sym_events.specs.path_walk.Paths.{paths_of};
ghost use Rattle.sym_events.specs.sym_terms.declared.node.Node.{Node};
ghost use Rattle.sym_steps.specs.sym_laws.Valued.{found};
ghost use Rattle.sym_events.specs.order_formula.Worlds.{IsWorld};
ghost use Rattle.sym_events.specs.lawful_order.Lawful.{IsWorldOf};
ghost use Rattle.run_lawful.specs.world.Order.{IsOrderOf};
ghost use Rattle.run_lawful.specs.world.WorldOf.{world_in};
ghost use Rattle.sym_steps.specs.path_laws.Setting.{Setting};

/// The history of moves that reproduce a log has a world with the events in the order in which they
/// take place. Each event takes place once, except stores that never leave a buffer.
pub fn places_are_ordered<B>()
    ensures { (s : Setting B) (nodes : List Node) (moves : List Move) → Reproduces s.ops s.code s.log moves
        → IsOrderOf s.ops.buffered (paths_of s.code s.log) (history s.ops s.code moves)
        (world_in s.ops.buffered (paths_of s.code s.log) (found s.code s.log nodes).symbolic (history s.ops s.code moves)) }
{}

/// The world of such a history is a world of the log's paths: it has their numbers of events, loads
/// and sleeps, and a sleep ends by a signal or a broadcast of its condition.
pub fn runs_have_worlds<B>()
    ensures world { (s : Setting B) (nodes : List Node) (moves : List Move) → Reproduces s.ops s.code s.log moves
        → IsWorld (world_in s.ops.buffered (paths_of s.code s.log) (found s.code s.log nodes).symbolic (history s.ops s.code moves)) }
    ensures of { (s : Setting B) (nodes : List Node) (moves : List Move) → Reproduces s.ops s.code s.log moves
        → IsWorldOf (paths_of s.code s.log) (found s.code s.log nodes).symbolic
        (world_in s.ops.buffered (paths_of s.code s.log) (found s.code s.log nodes).symbolic (history s.ops s.code moves)) }
{}
