//! The world of a run meets the rules of children, mutexes, conditions and deadlocks.
//!
//! Each law is the contract of a function with an empty body.
ghost use Rattle.std.specs.Prelude.{ℕ, List};
ghost use Rattle.sym_events.specs.tc_base.declared.moves.Move.{Move};
ghost use Rattle.sym_events.specs.tc_code.Run.{Reproduces};
ghost use Rattle.sym_steps.specs.run_history.History.{history};
ghost use Rattle.sym_events.specs.path_walk.Paths.{paths_of};
ghost use Rattle.sym_events.specs.sym_terms.declared.node.Node.{Node};
ghost use Rattle.sym_steps.specs.sym_laws.Valued.{found};
ghost use Rattle.sym_events.specs.lawful_order.Children.{ChildRule};
ghost use Rattle.sym_events.specs.lawful_order.Conditions.{ConditionRule};
ghost use Rattle.sym_events.specs.lawful_order.Mutexes.{MutexRule};
ghost use Rattle.sym_events.specs.lawful_order.Stuck.{StuckRule};
ghost use Rattle.run_lawful.specs.world.WorldOf.{world_in};
ghost use Rattle.sym_steps.specs.path_laws.Setting.{Setting};

/// In the world of moves that reproduce a log, a thread's events come after its create, and a join
/// comes after the child's exit.
pub fn children_are_in_order<B>()
    ensures { (s : Setting B) (nodes : List Node) (moves : List Move) (c : ℕ) → Reproduces s.ops s.code s.log moves
        → ChildRule (paths_of s.code s.log) (world_in s.ops.buffered (paths_of s.code s.log) (found s.code s.log nodes).symbolic (history s.ops s.code moves)) c }
{}

/// A mutex is released before it is taken again.
pub fn regions_are_in_order<B>()
    ensures { (s : Setting B) (nodes : List Node) (moves : List Move) (m : ℕ) → Reproduces s.ops s.code s.log moves
        → MutexRule (paths_of s.code s.log) (world_in s.ops.buffered (paths_of s.code s.log) (found s.code s.log nodes).symbolic (history s.ops s.code moves)) m }
{}

/// A sleep ends by a signal or a broadcast, which comes after its start and before its wake. A
/// signal ends at most one sleep, and one if any waits; a broadcast ends all that wait.
pub fn sleeps_are_in_order<B>()
    ensures { (s : Setting B) (nodes : List Node) (moves : List Move) (c : ℕ) → Reproduces s.ops s.code s.log moves
        → ConditionRule (paths_of s.code s.log) (world_in s.ops.buffered (paths_of s.code s.log) (found s.code s.log nodes).symbolic (history s.ops s.code moves)) c }
{}

/// For the log of a deadlock, each thread that hasn't exited is blocked at the end: at a mutex that
/// is held, in a sleep that no event ends, or at a join of a child that hasn't exited.
pub fn threads_are_stuck<B>()
    ensures { (s : Setting B) (nodes : List Node) (moves : List Move) (t : ℕ) → Reproduces s.ops s.code s.log moves
        → StuckRule (paths_of s.code s.log) (world_in s.ops.buffered (paths_of s.code s.log) (found s.code s.log nodes).symbolic (history s.ops s.code moves)) t }
{}
