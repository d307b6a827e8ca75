//! Laws of the texts of logs. Each function states a law, and its body does nothing.
ghost use Rattle.std.specs.Prelude.{◌≡◌, ◌++◌, ℕ, List, []};
ghost use Rattle.run_log.specs.Logs.{StoredLog};
ghost use Rattle.path_log.specs.Texts.{HasText, IsLog, AreBytes, log_text};
ghost use Rattle.path_log.specs.Faults.{BreaksAt};

/// A text is that of at most one log, which tells each byte of it, and no log's text is a proper
/// prefix of another's.
pub fn logs_are_one()
    ensures text { (text : List ℕ) (log : StoredLog) → IsLog text log → HasText log × (text ≡ log_text log) }
    ensures written { (text : List ℕ) (log : StoredLog) → AreBytes text → HasText log → text ≡ log_text log → IsLog text log }
    ensures one { (text : List ℕ) (this that : StoredLog) → IsLog text this → IsLog text that → this ≡ that }
    ensures whole { (this that : StoredLog) (more : List ℕ) → HasText this → HasText that → log_text this ++ more ≡ log_text that → more ≡ [] }
{}

/// Bytes that aren't a log break the format at exactly one offset, and the bytes of a log at none.
pub fn faults_are_one()
    ensures some { (text : List ℕ) → AreBytes text → ((log : StoredLog) → IsLog text log → ⊥) → (offset : ℕ) × BreaksAt text offset }
    ensures one { (text : List ℕ) (this that : ℕ) → BreaksAt text this → BreaksAt text that → this ≡ that }
    ensures none { (text : List ℕ) (log : StoredLog) (offset : ℕ) → IsLog text log → BreaksAt text offset → ⊥ }
{}
