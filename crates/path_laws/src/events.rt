//! The events of paths, with their bars, regions, sleeps and exits, in a history along the paths.
//! Each function states a law, and its body does nothing.
ghost use Rattle.std.specs.Prelude.{◌≡◌, ◌↔◌, ◌≤◌, ◌<◌, ◌+◌, ◌==◌, ℕ, true, not, Some, None, length, map};
ghost use Rattle.std.specs.FinSet as set;
ghost use Rattle.std.specs.List.{Contains, filter_map};
ghost use Rattle.path_walk.specs.run_log.Logs.{Log};
ghost use Rattle.path_walk.specs.tc_base.Names.{Name};
ghost use Rattle.path_walk.specs.tc_code.Code.{Code};
ghost use Rattle.path_walk.specs.tc_code.Lawful.{IsLawful};
ghost use Rattle.run_follows.specs.run_history.Told.{owner_in, waiting_in, is_thread_in, steps_in, has_exited_in};
ghost use Rattle.run_follows.specs.run_history.pending.Deeds.{has_bar_between};
ghost use Rattle.path_walk.specs.run_log.Logs.{is_log};
ghost use Rattle.path_walk.specs.Fits.{Fits};
ghost use Rattle.path_walk.specs.declared.event.Event.{Event};
ghost use Rattle.path_walk.specs.declared.event.EventKind.{EventKind};
ghost use Rattle.path_walk.specs.declared.event.EventKind.TheVariants as kind;
ghost use Rattle.path_walk.specs.declared.event.Region.{Region};
ghost use Rattle.path_walk.specs.declared.event.Sleep.{Sleep};
ghost use Rattle.path_laws.specs.Setting.{Setting};
ghost use Rattle.path_laws.specs.Deeds.{event_by, done_as};
ghost use Rattle.path_laws.specs.history.Along.{IsNameOfThread, HasDoneAll, HistoryAlong, PathThread};
ghost use Rattle.path_laws.specs.events.Done.{IsDoneIn, IsOpenAfter, IsAsleepIn};

/// An event of a path is one of its steps.
pub fn events_lie_within()
    ensures { (code : Code) (log : Log) (t : PathThread code log) (x : Event)
        → is_log log ≡ true → Fits code log → Contains t.events x → x.step < length t.places }
{}

/// In a history along the paths, a thread's events are those of its path, as far as its steps go.
pub fn events_are_done<B>()
    ensures done { (s : Setting B) (h : HistoryAlong s) (t : PathThread s.code s.log) (x : Event)
        → Contains t.events x → x.step < steps_in h.deeds t.name → IsDoneIn h.deeds t.name x.step x.kind }
    ensures events { (s : Setting B) (h : HistoryAlong s) (t : PathThread s.code s.log) (k : ℕ) (asked : EventKind)
        → IsDoneIn h.deeds t.name k asked
        → (x : Event) × Contains t.events x × (x.step ≡ k) × (x.kind ≡ asked) × (k < steps_in h.deeds t.name) }
    ensures whole { (s : Setting B) (h : HistoryAlong s) (t : PathThread s.code s.log)
        → is_thread_in h.deeds t.name ≡ true → HasDoneAll h.deeds t.walk → filter_map (event_by t.name) h.deeds ≡ map done_as t.events }
{}

/// A history has a bar between two events of a thread if and only if their numbers of bars differ.
pub fn bars_are_told<B>()
    ensures { (s : Setting B) (h : HistoryAlong s) (t : PathThread s.code s.log) (x y : Event)
        → Contains t.events x → Contains t.events y → x.step < y.step → y.step ≤ steps_in h.deeds t.name
        → has_bar_between h.deeds t.name x.step y.step ≡ not (x.bars == y.bars) }
{}

/// A thread owns a mutex if and only if a region of its path is open after the steps that it has
/// done. Each owner is a thread of the paths.
pub fn regions_are_owned<B>()
    ensures open { (s : Setting B) (h : HistoryAlong s) (t : PathThread s.code s.log) (m : ℕ)
        → (owner_in h.deeds m ≡ Some t.name) ↔ ((r : Region) × Contains t.regions r × (r.mutex ≡ m) × IsOpenAfter (steps_in h.deeds t.name) r) }
    ensures threads { (s : Setting B) (h : HistoryAlong s) (m : ℕ) (n : Name) → owner_in h.deeds m ≡ Some n → IsNameOfThread s.code s.log n }
{}

/// A thread waits on a condition if and only if a sleep of its path on it has begun and nothing has
/// ended it; the thread has done no step since. Each waiter is a thread of the paths.
pub fn sleeps_wait<B>()
    ensures asleep { (setting : Setting B) (h : HistoryAlong setting) (t : PathThread setting.code setting.log) (c : ℕ)
        → (set.contains (waiting_in h.deeds c) t.name ≡ true)
        ↔ ((s : Sleep) × Contains t.sleeps s × (s.condition ≡ c) × IsAsleepIn h.deeds t.name s) }
    ensures still { (setting : Setting B) (h : HistoryAlong setting) (n : Name) (s : Sleep)
        → IsAsleepIn h.deeds n s → steps_in h.deeds n ≡ s.step + 1 }
    ensures threads { (s : Setting B) (h : HistoryAlong s) (c : ℕ) (n : Name)
        → set.contains (waiting_in h.deeds c) n ≡ true → IsNameOfThread s.code s.log n }
{}

/// The wake of a sleep is the thread's next step. A path without that wake ends with the sleep.
pub fn wakes_come_next()
    ensures wake { (code : Code) (log : Log) (t : PathThread code log) (k : ℕ) (s : Sleep)
        → IsLawful code → is_log log ≡ true → Fits code log → Contains t.sleeps s → s.wake ≡ Some k → k ≡ s.step + 1 }
    ensures last { (code : Code) (log : Log) (t : PathThread code log) (s : Sleep)
        → IsLawful code → is_log log ≡ true → Fits code log → Contains t.sleeps s → s.wake ≡ None → s.step + 1 ≡ length t.places }
{}

/// A thread has exited if and only if its path has an exit and that step is done.
pub fn exits_are_events<B>()
    ensures { (s : Setting B) (h : HistoryAlong s) (t : PathThread s.code s.log)
        → (has_exited_in h.deeds t.name ≡ true)
        ↔ ((x : Event) × Contains t.events x × (x.kind ≡ kind.Exit) × (x.step < steps_in h.deeds t.name)) }
{}
