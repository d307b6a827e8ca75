//! Histories along the paths of a log: how they begin and go on, and what their threads do next.
//! Each function states a law, and its body does nothing.
ghost use Rattle.std.specs.Prelude.{◌≡◌, ◌≤◌, ◌<◌, ℕ, ℤ, true, false, Option, Some, None, List, [], ◌∷◌, ◌++◌, length};
ghost use Rattle.path_walk.specs.run_log.Logs.{Log};
ghost use Rattle.path_walk.specs.tc_base.Names.{Name};
ghost use Rattle.path_walk.specs.tc_base.States.{State};
ghost use Rattle.path_walk.specs.tc_base.declared.moves.Move.{Move};
ghost use Rattle.path_walk.specs.tc_base.declared.request.Request.{Request};
ghost use Rattle.path_walk.specs.tc_code.Run.{run, Reproduces};
ghost use Rattle.run_follows.specs.run_history.History.{Deed, Did, Drained, history};
ghost use Rattle.run_follows.specs.run_history.Told.{is_thread_in, steps_in, failed_in, fails};
ghost use Rattle.run_follows.specs.Machine.{Machine};
ghost use Rattle.run_follows.specs.Follow.{MayFollow, moves_for};
ghost use Rattle.run_follows.specs.Logged.{EndsAsIn, GoesAsLogged};
ghost use Rattle.path_walk.specs.Fits.{Fits};
ghost use Rattle.path_walk.specs.Paths.{paths_of};
ghost use Rattle.path_laws.specs.Setting.{Setting};
ghost use Rattle.path_laws.specs.Prefixes.{AreOnPaths};
ghost use Rattle.path_laws.specs.history.Along.{IsAlongPaths, IsNameOfThread, AllHaveDone, AllAreThere, HistoryAlong, PathThread};
ghost use Rattle.path_laws.specs.history.Next.{fails_next, failing_next, IsNextOnPath, IsAsWanted, BranchesAlong};

/// The history of a run on the paths is along them, and every history along them is that of such a
/// run.
pub fn histories_along_are_of_runs<B>()
    ensures history { (m : Machine B) (log : Log) (moves : List Move) (s : State B) → run m.ops m.code moves ≡ Some s → AreOnPaths log s
        → IsAlongPaths m log (history m.ops m.code moves) }
    ensures run { (m : Machine B) (log : Log) (h : List Deed) → IsAlongPaths m log h
        → (s : State B) × (run m.ops m.code (moves_for m.bound h) ≡ Some s) × (history m.ops m.code (moves_for m.bound h) ≡ h) × AreOnPaths log s }
{}

/// A prefix of a history along the paths is along them; so is the empty history, if the log fits.
pub fn beginnings_are_along<B>()
    ensures start { (m : Machine B) (log : Log) → Fits m.code log → IsAlongPaths m log [] }
    ensures first { (m : Machine B) (log : Log) (first later : List Deed) → IsAlongPaths m log (first ++ later) → IsAlongPaths m log first }
{}

/// Moves that reproduce a log have a history along its paths, in which each thread exists and has
/// done all its steps.
pub fn reproduced_is_along<B>()
    ensures along { (m : Machine B) (log : Log) (moves : List Move)
        → Reproduces m.ops m.code log moves → IsAlongPaths m log (history m.ops m.code moves) }
    ensures there { (s : Setting B) (moves : List Move)
        → Reproduces s.ops s.code s.log moves → AllAreThere s.code s.log (history s.ops s.code moves) }
    ensures done { (s : Setting B) (moves : List Move) → Reproduces s.ops s.code s.log moves → AllHaveDone s.code s.log (history s.ops s.code moves) }
{}

/// The threads of a history along the paths are threads of the paths, with no more steps than
/// these.
pub fn threads_are_of_paths<B>()
    ensures named { (s : Setting B) (h : HistoryAlong s) (n : Name) → is_thread_in h.deeds n ≡ true → IsNameOfThread s.code s.log n }
    ensures few { (s : Setting B) (h : HistoryAlong s) (t : PathThread s.code s.log) → steps_in h.deeds t.name ≤ length t.places }
{}

/// The next instruction of a thread with steps left is at the next place of its path. If the paths
/// aren't dead, the tests that they decide have the wanted outcome.
pub fn next_is_on_path<B>()
    ensures next { (s : Setting B) (h : HistoryAlong s) (t : PathThread s.code s.log) → failed_in h.deeds ≡ None
        → is_thread_in h.deeds t.name ≡ true → steps_in h.deeds t.name < length t.places → IsNextOnPath s.code h.deeds t.walk }
    ensures wanted { (s : Setting B) (h : HistoryAlong s) (t : PathThread s.code s.log) (x : IsNextOnPath s.code h.deeds t.walk)
        → failed_in h.deeds ≡ None → (paths_of s.code s.log).dead ≡ false → IsAsWanted (fails_next s.log h.deeds t.walk) x.local x.instr }
{}

/// A step of a thread on its path keeps all threads on their paths. A branch must take the path's
/// next outcome, and the step must fail if and only if the path does. A drain always keeps them.
pub fn deeds_stay_on_paths<B>()
    ensures step { (s : Setting B) (h : HistoryAlong s) (t : PathThread s.code s.log) (x : IsNextOnPath s.code h.deeds t.walk)
        (k : ℕ) (r : Request) (took : ℤ) (other : Option Name)
        → failed_in h.deeds ≡ None → MayFollow s.ops.buffered s.bound s.code h.deeds (Did t.name k r took other)
        → BranchesAlong t.walk x.local x.instr → fails (Did t.name k r took other) ≡ failing_next s.log h.deeds t.walk
        → IsAlongPaths s.machine s.log (h.deeds ++ Did t.name k r took other ∷ []) }
    ensures drain { (m : Machine B) (log : Log) (h : List Deed) (n : Name) (k c : ℕ) (v : ℤ) → IsAlongPaths m log h
        → failed_in h ≡ None → MayFollow m.ops.buffered m.bound m.code h (Drained n k c v) → IsAlongPaths m log (h ++ Drained n k c v ∷ []) }
{}

/// If each thread has done all its steps in a history along the paths, all threads exist. If the
/// history also ends as the log does, it matches the log.
pub fn whole_paths_go_as_logged<B>()
    ensures there { (s : Setting B) (h : HistoryAlong s) → AllHaveDone s.code s.log h.deeds → AllAreThere s.code s.log h.deeds }
    ensures logged { (s : Setting B) (h : HistoryAlong s)
        → AllHaveDone s.code s.log h.deeds → EndsAsIn s.ops.buffered s.bound s.code s.log.failing s.log.threads h.deeds
        → GoesAsLogged s.ops.buffered s.bound s.code s.log h.deeds }
{}
