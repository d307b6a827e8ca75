//! How the walks of threads, found from code and log alone, relate to the runs of the machine.
//!
//! Each function states a law, and its body does nothing.
#![tactic(auto)]

ghost use Rattle.std.specs.Prelude.{◌≡◌, ◌≢◌, ℕ, List, ◌++◌, Some, true};
ghost use Rattle.std.specs.FinMap as fin;
ghost use Rattle.std.specs.List.{filter_map, range_with_len};
ghost use Rattle.std.specs.Option.{option_map_or};
ghost use Rattle.path_walk.specs.tc_base.Buffers.{BufferOps};
ghost use Rattle.path_walk.specs.run_log.Logs.{Log};
ghost use Rattle.path_walk.specs.tc_base.Paths.{ThreadPath};
ghost use Rattle.path_walk.specs.tc_base.Names.{Name};
ghost use Rattle.path_walk.specs.tc_base.States.{State, Thread};
ghost use Rattle.path_walk.specs.tc_base.declared.moves.Move.{Move};
ghost use Rattle.path_walk.specs.tc_code.Code.{Code};
ghost use Rattle.path_walk.specs.tc_code.Lawful.{IsLawful};
ghost use Rattle.path_walk.specs.tc_code.Run.{run, Reproduces, IsReached};
ghost use Rattle.run_follows.specs.run_history.History.{history};
ghost use Rattle.run_follows.specs.Machine.{Machine};
ghost use Rattle.path_walk.specs.Fits.{Fits};
ghost use Rattle.path_walk.specs.Paths.{paths_of, walk_of};
ghost use Rattle.path_laws.specs.Along.{IsAlong};
ghost use Rattle.path_laws.specs.Deeds.{number_by, event_by, events_before};
ghost use Rattle.path_laws.specs.Prefixes.{AreOnPaths};

pub mod events;
pub mod history;
pub mod stuck;

/// After each run, a thread that has not failed is where its path so far leads: its function and
/// outcomes determine the places of its steps, its place, its mutexes and its thread variables.
pub fn threads_go_along<B>()
    ensures { (ops : BufferOps B) (code : Code) (s : State B) (n : Name) (t : Thread B)
        → IsLawful code → IsReached ops code s → fin.get s.threads n ≡ Some t → s.failed ≢ Some n
        → (places : List ℕ) × IsAlong code t.local places }
{}

/// A log that some moves reproduce fits the code, under every memory model. In a deadlock each
/// thread that has not exited is at an instruction that can block, since a buffer's oldest store
/// may always drain.
pub fn reproduced_logs_fit<B>()
    ensures { (m : Machine B) (log : Log) (moves : List Move) → Reproduces m.ops m.code log moves → Fits m.code log }
{}

/// If the paths of a log are dead, no moves reproduce it, under any memory model.
pub fn dead_logs_are_not_reproduced<B>()
    ensures { (m : Machine B) (log : Log) (moves : List Move) → (paths_of m.code log).dead ≡ true → Reproduces m.ops m.code log moves → ⊥ }
{}

/// Moves that reproduce a log lead each thread along its path: after any first part of the moves,
/// each thread has followed a prefix of its path.
pub fn beginnings_are_on_paths<B>()
    ensures { (ops : BufferOps B) (code : Code) (log : Log) (first rest : List Move) (s : State B)
        → Reproduces ops code log (first ++ rest) → run ops code first ≡ Some s → AreOnPaths log s }
{}

/// A history has all steps of a thread, numbered from 0 in order.
pub fn deeds_are_steps<B>()
    ensures { (ops : BufferOps B) (code : Code) (moves : List Move) (s : State B) (n : Name)
        → run ops code moves ≡ Some s
        → filter_map (number_by n) (history ops code moves)
        ≡ range_with_len 0 (option_map_or (λ t. t.local.steps) (fin.get s.threads n) 0) }
{}

/// Take a log that fits, and threads that have followed prefixes of their paths in it. A thread's
/// events in the history are the events of its path for the steps that it has done.
pub fn deeds_are_events<B>()
    ensures { (ops : BufferOps B) (code : Code) (log : Log) (moves : List Move) (s : State B) (p : ThreadPath) (t : Thread B)
        → IsLawful code → Fits code log → run ops code moves ≡ Some s → AreOnPaths log s → fin.get s.threads p.name ≡ Some t
        → filter_map (event_by p.name) (history ops code moves) ≡ events_before t.local.steps (walk_of code log p).events }
{}
