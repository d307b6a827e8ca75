//! In the run of a lawful order of events, other threads don't keep an event from its turn: the
//! mutex that it takes is free, its sleep has ended, a signal finds the thread that it wakes, a
//! join finds an exit, and its thread exists. At the end of a deadlock each thread is blocked. Each
//! law is the contract of a function with an empty body.
ghost use Rattle.std.specs.Prelude.{◌≡◌, ◌+◌, ◌<◌, ◌==◌, ℕ, ℤ, true, false, Option, Some, None, List, [], ◌∷◌, ◌++◌};
ghost use Rattle.std.specs.FinSet as set;
ghost use Rattle.std.specs.List.{Contains};
ghost use Rattle.condition_order.specs.tc_base.Names.{Name, child};
ghost use Rattle.condition_order.specs.tc_base.declared.failing.Failing.TheVariants.{Deadlock};
ghost use Rattle.condition_order.specs.tc_base.declared.request.Request.{Request};
ghost use Rattle.sym_steps.specs.run_history.History.{Deed, Did, Drained};
ghost use Rattle.sym_steps.specs.run_history.Told.{owner_in, waiting_in, is_thread_in, steps_in, has_exited_in};
ghost use Rattle.sym_steps.specs.run_follows.blocked.Stuck.{AllAreBlocked};
ghost use Rattle.condition_order.specs.path_walk.Events.{acquired_mutex};
ghost use Rattle.condition_order.specs.path_walk.Paths.{Walk, paths_of};
ghost use Rattle.condition_order.specs.path_walk.declared.event.Event.{Event};
ghost use Rattle.condition_order.specs.path_walk.declared.event.EventKind.TheVariants as kind;
ghost use Rattle.sym_steps.specs.path_laws.Setting.{Setting};
ghost use Rattle.sym_steps.specs.path_laws.history.Along.{IsAlongPaths, IsThread, PathThread, AllHaveDone, AllAreThere};
ghost use Rattle.condition_order.specs.sym_terms.declared.node.Node.{Node};
ghost use Rattle.condition_order.specs.order_formula.Worlds.{World};
ghost use Rattle.condition_order.specs.lawful_order.Events.{number_of};
ghost use Rattle.world_plan.specs.Going.{IsLawfulWorld, HasGone, EventAt, NextEvent, SleepUntilEnded, is_pending, place};
ghost use Rattle.world_plan.specs.Plan.{is_failure, woken_by, other_of};

/// The mutex that a thread's next event takes is free: every region of it that began has ended.
pub fn mutexes_are_free<B>()
    ensures { (s : Setting B) (nodes : List Node) (w : World) (e : NextEvent s nodes w) (m : ℕ)
        → IsLawfulWorld s nodes w → acquired_mutex e.event.kind ≡ Some m → owner_in e.deeds m ≡ None }
{}

/// A thread whose event is next waits on no condition: its sleep has ended.
pub fn sleepers_were_woken<B>()
    ensures { (s : Setting B) (nodes : List Node) (w : World) (e : NextEvent s nodes w) (c : ℕ)
        → IsLawfulWorld s nodes w → set.contains (waiting_in e.deeds c) e.thread.name ≡ false }
{}

/// The thread that a signal wakes waits on its condition; if it wakes none, no thread waits.
pub fn signals_find_theirs<B>()
    ensures some { (s : Setting B) (nodes : List Node) (w : World) (e : NextEvent s nodes w) (c : ℕ) (n : Name)
        → IsLawfulWorld s nodes w → e.event.kind ≡ kind.Signal c
        → woken_by (paths_of s.code s.log) w (number_of (paths_of s.code s.log) e.thread.index e.event.step) ≡ Some n
        → set.contains (waiting_in e.deeds c) n ≡ true }
    ensures none { (s : Setting B) (nodes : List Node) (w : World) (e : NextEvent s nodes w) (c : ℕ)
        → IsLawfulWorld s nodes w → e.event.kind ≡ kind.Signal c
        → woken_by (paths_of s.code s.log) w (number_of (paths_of s.code s.log) e.thread.index e.event.step) ≡ None
        → (set.len (waiting_in e.deeds c) == 0) ≡ true }
{}

/// The child that a thread's next event joins has exited.
pub fn joins_find_exits<B>()
    ensures { (s : Setting B) (nodes : List Node) (w : World) (e : NextEvent s nodes w) (k : ℕ)
        → IsLawfulWorld s nodes w → e.event.kind ≡ kind.Join k → has_exited_in e.deeds (child e.thread.name k) ≡ true }
{}

/// A thread whose event is next exists. Once all events except the failing one and stores in
/// buffers took place, every thread exists.
pub fn threads_are_there<B>()
    ensures next { (s : Setting B) (nodes : List Node) (w : World) (e : EventAt s nodes w)
        → IsLawfulWorld s nodes w → is_thread_in e.deeds e.thread.name ≡ true }
    ensures all { (s : Setting B) (nodes : List Node) (w : World) (p : ℕ) (h : List Deed) → IsLawfulWorld s nodes w → HasGone s nodes w p h
        → ((t : ℕ) (q : Walk) (x : Event) → IsThread s.code s.log t q → Contains q.events x → is_failure x.kind ≡ false
        → is_pending s.ops.buffered x ≡ false → place s.code s.log w t x < p) → AllAreThere s.code s.log h }
{}

/// Each sleep still lasts until the event that ends it, after any of these deeds: a step that is no
/// event or a store in a buffer; the event at the position; a drain; the drain of the store at the
/// position.
pub fn sleeps_go_on<B>()
    ensures quiet { (s : Setting B) (nodes : List Node) (w : World)
        (p : ℕ) (h : List Deed) (t : PathThread s.code s.log) (k : ℕ) (r : Request) (took : ℤ) (other : Option Name)
        → IsLawfulWorld s nodes w → HasGone s nodes w p h
        → ((x : Event) → Contains t.events x → x.step ≡ steps_in h t.name → is_pending s.ops.buffered x ≡ true)
        → IsAlongPaths s.machine s.log (h ++ Did t.name k r took other ∷ [])
        → SleepUntilEnded s.code s.log w p (h ++ Did t.name k r took other ∷ []) }
    ensures event { (s : Setting B) (nodes : List Node) (w : World) (e : NextEvent s nodes w) (k : ℕ) (r : Request) (took : ℤ)
        → IsLawfulWorld s nodes w
        → IsAlongPaths s.machine s.log
        (e.deeds ++ Did e.thread.name k r took (other_of (paths_of s.code s.log) w e.deeds e.thread.index e.thread.name r) ∷ [])
        → SleepUntilEnded s.code s.log w (e.position + 1)
        (e.deeds ++ Did e.thread.name k r took (other_of (paths_of s.code s.log) w e.deeds e.thread.index e.thread.name r) ∷ []) }
    ensures drain { (s : Setting B) (nodes : List Node) (w : World) (p : ℕ) (h : List Deed) (n : Name) (k c : ℕ) (v : ℤ)
        → IsLawfulWorld s nodes w → HasGone s nodes w p h → IsAlongPaths s.machine s.log (h ++ Drained n k c v ∷ [])
        → SleepUntilEnded s.code s.log w p (h ++ Drained n k c v ∷ []) }
    ensures drained { (s : Setting B) (nodes : List Node) (w : World) (e : EventAt s nodes w) (n : Name) (k c : ℕ) (v : ℤ)
        → IsLawfulWorld s nodes w → is_pending s.ops.buffered e.event ≡ true
        → IsAlongPaths s.machine s.log (e.deeds ++ Drained n k c v ∷ [])
        → SleepUntilEnded s.code s.log w (e.position + 1) (e.deeds ++ Drained n k c v ∷ []) }
{}

/// At the end of a deadlock each thread that hasn't exited is blocked.
pub fn all_are_blocked<B>()
    ensures { (s : Setting B) (nodes : List Node) (w : World) (p : ℕ) (h : List Deed)
        → IsLawfulWorld s nodes w → s.log.failing ≡ Deadlock → HasGone s nodes w p h → AllHaveDone s.code s.log h → AllAreBlocked s.code h }
{}
