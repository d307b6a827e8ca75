//! In a deadlock, a thread's next request is the one that blocks it by its path. Each function
//! states a law, and its body does nothing.
ghost use Rattle.std.specs.Prelude.{◌≡◌, ◌↔◌, ℕ, true, false, Some, IsSome, List, option_map};
ghost use Rattle.path_walk.specs.run_log.Logs.{Log};
ghost use Rattle.path_walk.specs.tc_base.declared.failing.Failing.TheVariants.{Deadlock};
ghost use Rattle.path_walk.specs.tc_base.declared.moves.Move.{Move};
ghost use Rattle.path_walk.specs.tc_code.Code.{Code};
ghost use Rattle.path_walk.specs.tc_code.Lawful.{IsLawful};
ghost use Rattle.path_walk.specs.tc_code.Run.{Reproduces};
ghost use Rattle.run_follows.specs.run_history.History.{history};
ghost use Rattle.run_follows.specs.run_history.Locals.{asks_next};
ghost use Rattle.run_follows.specs.run_history.Told.{is_thread_in, has_exited_in};
ghost use Rattle.run_follows.specs.Follow.{IsLeftIn};
ghost use Rattle.path_walk.specs.run_log.Logs.{is_log};
ghost use Rattle.path_walk.specs.Fits.{Fits};
ghost use Rattle.path_walk.specs.declared.event.Blocked.{Blocked};
ghost use Rattle.path_walk.specs.declared.event.Blocked.TheVariants as blocked;
ghost use Rattle.path_laws.specs.Setting.{Setting};
ghost use Rattle.path_laws.specs.history.Along.{HasDoneAll, HistoryAlong, PathThread};
ghost use Rattle.path_laws.specs.stuck.Blocked.{asked_at, IsBlockedAt, IsLastSleep};

/// After all steps of its path in the log of a deadlock, a thread's next request is the one that
/// the path says blocks it; if the path says nothing, the thread has exited.
pub fn rest_is_told<B>()
    ensures asks { (s : Setting B) (h : HistoryAlong s) (t : PathThread s.code s.log)
        → is_thread_in h.deeds t.name ≡ true → HasDoneAll h.deeds t.walk → s.log.failing ≡ Deadlock
        → asks_next s.code h.deeds t.name ≡ option_map asked_at t.blocked }
    ensures left { (s : Setting B) (h : HistoryAlong s) (t : PathThread s.code s.log)
        → is_thread_in h.deeds t.name ≡ true → HasDoneAll h.deeds t.walk → s.log.failing ≡ Deadlock
        → (has_exited_in h.deeds t.name ≡ false) ↔ IsSome t.blocked }
{}

/// A path that is blocked at a wake ends with the sleep of that wake.
pub fn blocked_at_last_sleep()
    ensures { (code : Code) (log : Log) (t : PathThread code log) (c m k : ℕ)
        → IsLawful code → is_log log ≡ true → Fits code log → t.blocked ≡ Some (blocked.Wake c m k) → IsLastSleep t.walk c m k }
{}

/// If moves reproduce the log of a deadlock, each thread that has not exited is blocked at what its
/// path says. A thread whose path says so has not exited.
pub fn blocked_threads_are_told<B>()
    ensures left { (s : Setting B) (moves : List Move) (t : PathThread s.code s.log) → s.log.failing ≡ Deadlock → Reproduces s.ops s.code s.log moves
        → IsLeftIn (history s.ops s.code moves) t.name → (b : Blocked) × IsBlockedAt s.code (history s.ops s.code moves) t.walk b }
    ensures blocked { (s : Setting B) (moves : List Move) (t : PathThread s.code s.log) (b : Blocked)
        → s.log.failing ≡ Deadlock → Reproduces s.ops s.code s.log moves → t.blocked ≡ Some b
        → IsLeftIn (history s.ops s.code moves) t.name × IsBlockedAt s.code (history s.ops s.code moves) t.walk b }
{}
