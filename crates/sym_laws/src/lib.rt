//! How the runs along a log's paths agree with their symbolic execution.
//!
//! Each law is the contract of a function with an empty body.
#![tactic(auto)]

ghost use Rattle.std.specs.Prelude.{◌≡◌, ℤ, List, Some, true, length};
ghost use Rattle.sym_exec.specs.tc_base.Buffers.{BufferOps};
ghost use Rattle.sym_exec.specs.run_log.Logs.{Log};
ghost use Rattle.sym_exec.specs.tc_base.States.{State};
ghost use Rattle.sym_exec.specs.tc_base.declared.moves.Move.{Move};
ghost use Rattle.sym_exec.specs.tc_code.Code.{Code};
ghost use Rattle.sym_exec.specs.tc_code.Lawful.{IsLawful};
ghost use Rattle.sym_exec.specs.tc_code.Run.{run, Reproduces};
ghost use Rattle.sym_exec.specs.run_laws.Ints.{PassesInts};
ghost use Rattle.path_laws.specs.run_history.History.{history};
ghost use Rattle.sym_exec.specs.run_log.Logs.{is_log};
ghost use Rattle.sym_exec.specs.path_walk.Fits.{Fits};
ghost use Rattle.sym_exec.specs.sym_terms.Terms.{AreTerms};
ghost use Rattle.sym_exec.specs.sym_terms.declared.node.Node.{Node};
ghost use Rattle.sym_exec.specs.Executed.{Course};
ghost use Rattle.sym_laws.specs.Loads.{loads_in};
ghost use Rattle.path_laws.specs.Prefixes.{AreOnPaths};
ghost use Rattle.sym_laws.specs.Valued.{IsOneOf, AgreesWith, HaveValues, IsMet, found};

/// In every run along a log's paths, let the loads take the values of their symbols. Then each
/// thread's slots have the values of their terms, and its tests had their wanted outcomes. Its
/// loads, stores and exchanges are those of the path, with the same cells and values. A
/// compare-and-exchange writes the value that its step leaves in the cell. The memory model must
/// return only ints if it was given only ints; all three models do.
pub fn runs_have_values<B>()
    ensures { (ops : BufferOps B) (code : Code) (log : Log) (nodes : List Node) (loads : List ℤ) (moves : List Move) (s : State B)
        → PassesInts ops → IsLawful code → is_log log ≡ true → Fits code log → AreTerms nodes → run ops code moves ≡ Some s → AreOnPaths log s
        → AgreesWith (found code log nodes).symbolic loads (history ops code moves)
        → HaveValues code log nodes loads (history ops code moves) s }
{}

/// Moves that reproduce a log that fits finish all of its paths: all tests have their wanted
/// outcomes, and each thread made exactly the accesses of its path.
pub fn reproduced_paths_are_met<B>()
    ensures { (ops : BufferOps B) (code : Code) (log : Log) (nodes : List Node) (loads : List ℤ) (moves : List Move) (c : Course)
        → PassesInts ops → IsLawful code → is_log log ≡ true → Fits code log → AreTerms nodes → Reproduces ops code log moves
        → AgreesWith (found code log nodes).symbolic loads (history ops code moves)
        → IsOneOf c (found code log nodes).symbolic.threads → IsMet (found code log nodes).nodes loads (history ops code moves) c }
{}

/// Every run has such loads: the value that each load of the paths took, or 0 if it isn't done yet.
pub fn runs_have_loads<B>()
    ensures many { (ops : BufferOps B) (code : Code) (log : Log) (nodes : List Node) (moves : List Move) (s : State B) → run ops code moves ≡ Some s
        → length (loads_in (found code log nodes).symbolic (history ops code moves)) ≡ (found code log nodes).symbolic.loads }
    ensures agree { (ops : BufferOps B) (code : Code) (log : Log) (nodes : List Node) (moves : List Move) (s : State B) → run ops code moves ≡ Some s
        → AgreesWith (found code log nodes).symbolic (loads_in (found code log nodes).symbolic (history ops code moves)) (history ops code moves) }
{}
