//! A bound on the text of a schedule that reproduces a log. The function states a law for every
//! memory model, and its body does nothing.
#![tactic(auto)]

ghost use Rattle.std.specs.Prelude.{◌≤◌, List, length};
ghost use Rattle.path_log.specs.run_log.Logs.{Log};
ghost use Rattle.schedule_file.specs.tc_limits.declared.limits.TheConstants.{SCHEDULE_BYTES};
ghost use Rattle.path_log.specs.memory_models.declared.model.Model.{Model};
ghost use Rattle.path_log.specs.tc_base.declared.moves.Move.{Move};
ghost use Rattle.path_laws.specs.tc_code.Run.{Reproduces};
ghost use Rattle.schedule_file.specs.Schedules.{HaveText, schedule_text};
ghost use Rattle.schedule_length.specs.Lengths.{IsSmall, most_bytes};
ghost use Rattle.path_laws.specs.run_follows.Machine.{Machine};

/// The text of a schedule that reproduces a log within the limits has at most `most_bytes` bytes,
/// and a schedule may have that many.
pub fn reproducing_schedules_are_short<B>()
    ensures short { (m : Machine B) (log : Log) (form : Model) (moves : List Move)
        → IsSmall m.code log → HaveText form moves → Reproduces m.ops m.code log moves → length (schedule_text form moves) ≤ most_bytes }
    ensures room { most_bytes ≤ SCHEDULE_BYTES }
{}
