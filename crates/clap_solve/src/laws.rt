//! What the clauses of a log mean: laws of every memory model, as clauses of functions that do
//! nothing.
ghost use Rattle.std.specs.Prelude.{◌≡◌, ◌↔◌, true, List, IsTrue};
ghost use Rattle.run_log.specs.tc_base.Buffers.{BufferOps};
ghost use Rattle.run_log.specs.Logs.{Log};
ghost use Rattle.run_log.specs.memory_models.declared.model.Model.{Model};
ghost use Rattle.run_log.specs.tc_base.declared.moves.Move.{Move};
ghost use Rattle.tc_code.specs.Code.{Code};
ghost use Rattle.tc_code.specs.Lawful.{IsLawful};
ghost use Rattle.tc_code.specs.Run.{Reproduces};
ghost use Rattle.store_buffers.specs.Laws.{Laws};
ghost use Rattle.store_buffers.specs.Pending.{Binding};
ghost use Rattle.run_log.specs.Logs.{is_log};
ghost use Rattle.cnf_core.specs.Clauses.{Valuation, satisfies};
ghost use Rattle.refute_check.specs.Refutations.{IsClosed};
ghost use Rattle.refute_check.specs.declared.line.Line.{Line};
ghost use Rattle.clap_solve.specs.Clauses.{clauses_of};
ghost use Rattle.clap_solve.specs.Solved.{IsImpossible, IsWithin};

/// A log's clauses are satisfiable exactly if some moves reproduce it, a failure or a deadlock.
pub fn clauses_are_runs<B>()
    ensures { (ops : BufferOps B) (model : Model) (bound : Binding) (code : Code) (log : Log)
        → Laws ops model bound → IsLawful code → is_log log ≡ true → IsWithin code log
        → ((v : Valuation) × IsTrue (satisfies v (clauses_of ops.buffered bound code log).clauses))
        ↔ ((moves : List Move) × Reproduces ops code log moves) }
{}

/// If a derivation, from any tool, is closed on the clauses of a log, no moves reproduce the log.
pub fn closed_is_impossible<B>()
    ensures { (ops : BufferOps B) (model : Model) (bound : Binding) (code : Code) (log : Log) (lines : List Line)
        → Laws ops model bound → IsLawful code → is_log log ≡ true → IsWithin code log
        → IsClosed (clauses_of ops.buffered bound code log) lines → IsImpossible ops code log }
{}
