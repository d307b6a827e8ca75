//! Upper bounds on the formula of a log within the limits, in variables and in clauses.
//!
//! Each function's clause is a law; its body does nothing.

ghost use Rattle.std.specs.Prelude.{◌≤◌, Bool, List, [], length};
ghost use Rattle.clap_system.specs.run_log.Logs.{Log};
ghost use Rattle.clap_system.specs.tc_limits.declared.limits.TheConstants.{EVENTS};
ghost use Rattle.clap_system.specs.tc_code.Code.{Code};
ghost use Rattle.clap_system.specs.path_walk.Paths.{paths_of};
ghost use Rattle.clap_system.specs.store_buffers.Pending.{Binding};
ghost use Rattle.mutex_states.specs.bit_blast.sym_terms.declared.node.Node.{Node};
ghost use Rattle.clap_system.specs.sym_exec.Executed.{executed};
ghost use Rattle.clap_system.specs.lawful_order.Events.{all_events, all_sleeps};
ghost use Rattle.clap_system.specs.Systems.{system_of};
ghost use Rattle.clap_solve.specs.formula_sizes.Small.{ClausesHaveRoom, IsWithin, IsSmall, HasSmall};

/// A log within the limits has few events, sleeps and loads.
pub fn logs_are_small()
    ensures events { (code : Code) (log : Log) → IsWithin code log
        → length (all_events (paths_of code log)) ≤ EVENTS }
    ensures sleeps { (code : Code) (log : Log) → IsWithin code log
        → length (all_sleeps (paths_of code log)) ≤ EVENTS }
    ensures executed { (code : Code) (log : Log) → IsWithin code log
        → IsSmall (executed code (paths_of code log) []) }
{}

/// The conjuncts of such a log are small, whatever terms there are.
pub fn formulas_are_small()
    ensures { (buffered : Bool) (bound : Binding) (code : Code) (log : Log) (nodes : List Node) → IsWithin code log
        → HasSmall buffered bound code (paths_of code log) (executed code (paths_of code log) []).symbolic nodes }
{}

/// There is room for the clauses of such a log, for the states of its mutexes and for levels of 255
/// switches.
pub fn clauses_have_room()
    ensures { (buffered : Bool) (bound : Binding) (code : Code) (log : Log) → IsWithin code log
        → ClausesHaveRoom (system_of buffered bound code log) }
{}
