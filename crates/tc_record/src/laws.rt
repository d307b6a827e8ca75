//! Laws of the logs of recorded runs. Each function states a law, and its body does nothing.
ghost use Rattle.std.specs.Prelude.{◌≡◌, ◌≤◌, List, Some, ℕ, length, IsTrue};
ghost use Rattle.tc_base.specs.Buffers.{BufferOps};
ghost use Rattle.run_log.specs.Logs.{Log};
ghost use Rattle.tc_base.specs.States.{State};
ghost use Rattle.run_log.specs.memory_models.declared.model.Model.{Model};
ghost use Rattle.store_buffers.specs.Laws.{Laws};
ghost use Rattle.store_buffers.specs.Pending.{Binding};
ghost use Rattle.tc_code.specs.Code.{Code};
ghost use Rattle.tc_code.specs.Lawful.{IsLawful};
ghost use Rattle.tc_code.specs.Run.{Reproduces};
ghost use Rattle.run_log.specs.Logs.{StoredLog, is_digest};
ghost use Rattle.path_log.specs.Texts.{HasText, is_of_format, log_text};
ghost use Rattle.tc_record.specs.Ends.{told_end};
ghost use Rattle.tc_record.specs.Logged.{IsLogOf, is_small, most_log_bytes};
ghost use Rattle.tc_record.specs.Seeded.{HasLog, seeded_run};

/// The text of a recorded log with a digest has at most `most_log_bytes` bytes.
pub fn recorded_logs_fit()
    ensures { (digest : List ℕ) (log : Log) → IsTrue (is_digest digest) → IsTrue (is_of_format log) → IsTrue (is_small log)
        → length (log_text (record { digest = Some digest; log = log })) ≤ most_log_bytes }
{}

/// A seeded run that fails or comes to a deadlock has exactly one log, under every memory model.
pub fn ended_runs_have_logs<B>()
    ensures some { (ops : BufferOps B) (model : Model) (bound : Binding) (code : Code) (seed steps : ℕ)
        → Laws ops model bound → IsLawful code → HasLog (seeded_run ops code seed steps)
        → (log : StoredLog) × IsLogOf model (seeded_run ops code seed steps).state log }
    ensures one { (model : Model) (s : State B) (x y : StoredLog) → IsLogOf model s x → IsLogOf model s y → x ≡ y }
{}

/// The moves of a seeded run that fails or comes to a deadlock reproduce its log, under every
/// memory model, and the log records that end.
pub fn ended_runs_reproduce_logs<B>()
    ensures reproduced { (ops : BufferOps B) (model : Model) (bound : Binding) (code : Code) (seed steps : ℕ) (log : StoredLog)
        → Laws ops model bound → IsLawful code → HasLog (seeded_run ops code seed steps)
        → IsLogOf model (seeded_run ops code seed steps).state log
        → Reproduces ops code log.log (seeded_run ops code seed steps).moves }
    ensures told { (ops : BufferOps B) (model : Model) (bound : Binding) (code : Code) (seed steps : ℕ) (log : StoredLog)
        → Laws ops model bound → IsLawful code → HasLog (seeded_run ops code seed steps)
        → IsLogOf model (seeded_run ops code seed steps).state log
        → (seeded_run ops code seed steps).end ≡ told_end log.log.failing }
{}

/// The log of such a run has a text with any digest, which isn't too long, and is within the limits
/// of recorded runs.
pub fn ended_runs_have_texts<B>()
    ensures text { (ops : BufferOps B) (model : Model) (bound : Binding) (code : Code) (seed steps : ℕ) (log : StoredLog) (digest : List ℕ)
        → Laws ops model bound → IsLawful code → HasLog (seeded_run ops code seed steps)
        → IsLogOf model (seeded_run ops code seed steps).state log → IsTrue (is_digest digest)
        → HasText (record { digest = Some digest; log = log.log }) }
    ensures short { (ops : BufferOps B) (model : Model) (bound : Binding) (code : Code) (seed steps : ℕ) (log : StoredLog) (digest : List ℕ)
        → Laws ops model bound → IsLawful code → HasLog (seeded_run ops code seed steps)
        → IsLogOf model (seeded_run ops code seed steps).state log → IsTrue (is_digest digest)
        → length (log_text (record { digest = Some digest; log = log.log })) ≤ most_log_bytes }
    ensures small { (ops : BufferOps B) (model : Model) (bound : Binding) (code : Code) (seed steps : ℕ) (log : StoredLog)
        → Laws ops model bound → IsLawful code → HasLog (seeded_run ops code seed steps)
        → IsLogOf model (seeded_run ops code seed steps).state log → IsTrue (is_small log.log) }
{}
