//! The clauses of a log with a bound on context switches, and what they mean: laws of every memory
//! model, as clauses of functions that do nothing.
#![tactic(auto)]

ghost use Rattle.std.specs.Prelude.{◌≡◌, ◌≤◌, ◌<◌, ◌↔◌, ℕ, true, List, IsTrue};
ghost use Rattle.switch_clauses.specs.switch_runs.tc_base.Buffers.{BufferOps};
ghost use Rattle.clap_solve.specs.run_log.Logs.{Log};
ghost use Rattle.switch_clauses.specs.switch_runs.memory_models.declared.model.Model.{Model};
ghost use Rattle.switch_clauses.specs.switch_runs.tc_base.declared.moves.Move.{Move};
ghost use Rattle.clap_solve.specs.tc_code.Code.{Code};
ghost use Rattle.clap_solve.specs.tc_code.Lawful.{IsLawful};
ghost use Rattle.clap_solve.specs.tc_code.Run.{Reproduces};
ghost use Rattle.clap_solve.specs.store_buffers.Laws.{Laws};
ghost use Rattle.clap_solve.specs.store_buffers.Pending.{Binding};
ghost use Rattle.clap_solve.specs.run_log.Logs.{is_log};
ghost use Rattle.clap_solve.specs.cnf_core.Clauses.{Valuation, satisfies};
ghost use Rattle.clap_solve.specs.refute_check.Refutations.{IsClosed};
ghost use Rattle.clap_solve.specs.refute_check.declared.line.Line.{Line};
ghost use Rattle.switch_clauses.specs.switch_runs.Switches.{switches};
ghost use Rattle.clap_solve.specs.Solved.{IsWithin};
ghost use Rattle.switch_clauses.specs.Clauses.{switch_clauses};

/// The clauses of a log with at most `most` switches are satisfiable exactly if some moves with at
/// most that many reproduce the log, a failure or a deadlock.
pub fn switch_clauses_are_runs<B>()
    ensures { (ops : BufferOps B) (model : Model) (bound : Binding) (code : Code) (log : Log) (most : ℕ)
        → Laws ops model bound → IsLawful code → is_log log ≡ true → IsWithin code log
        → ((v : Valuation) × IsTrue (satisfies v (switch_clauses ops.buffered bound code log most).clauses))
        ↔ ((moves : List Move) × Reproduces ops code log moves × (switches ops code moves ≤ most)) }
{}

/// If a derivation, from any tool, is closed on these clauses, all moves that reproduce the log
/// have more switches.
pub fn closed_is_more_switches<B>()
    ensures { (ops : BufferOps B) (model : Model) (bound : Binding) (code : Code) (log : Log) (most : ℕ) (lines : List Line) (moves : List Move)
        → Laws ops model bound → IsLawful code → is_log log ≡ true → IsWithin code log
        → IsClosed (switch_clauses ops.buffered bound code log most) lines → Reproduces ops code log moves → most < switches ops code moves }
{}

pub mod switch_runs;
