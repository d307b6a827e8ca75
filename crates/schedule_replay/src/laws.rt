//! A law of verdicts. The function states it, and its body does nothing.
ghost use Rattle.std.specs.Prelude.{◌≡◌, List};
ghost use Rattle.tc_base.specs.Buffers.{BufferOps};
ghost use Rattle.run_log.specs.Logs.{Log};
ghost use Rattle.tc_base.specs.declared.moves.Move.{Move};
ghost use Rattle.tc_code.specs.Code.{Code};
ghost use Rattle.schedule_replay.specs.Verdicts.{IsVerdict};
ghost use Rattle.schedule_replay.specs.declared.verdict.Verdict.{Verdict};

/// At most one verdict holds for a list of moves.
pub fn verdicts_are_one<B>()
    ensures { (ops : BufferOps B) (code : Code) (log : Log) (moves : List Move) (v w : Verdict)
        → IsVerdict ops code log moves v → IsVerdict ops code log moves w → v ≡ w }
{}
