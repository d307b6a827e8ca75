//! Memory and store buffers when a history has reached the position of an event of a lawful world.
//! Each law is the contract of a function with an empty body.
ghost use Rattle.std.specs.Prelude.{◌≡◌, ◌<◌, ℕ, ℤ, pos, true, false, Option, Some, None, List, [], ◌∷◌, ◌++◌, suc, slice_get, slice_index_or};
ghost use Rattle.std.specs.List.{Contains};
ghost use Rattle.condition_order.specs.tc_base.Names.{Name};
ghost use Rattle.condition_order.specs.tc_base.declared.request.Request.{Request};
ghost use Rattle.sym_steps.specs.run_history.History.{Deed, Did, Drained};
ghost use Rattle.sym_steps.specs.run_history.Locals.{asks_next};
ghost use Rattle.sym_steps.specs.run_history.Told.{steps_in};
ghost use Rattle.sym_steps.specs.run_follows.Follow.{IsNextDrain, taken_in};
ghost use Rattle.sym_steps.specs.run_follows.blocked.Stuck.{HasDrained, AllDrained};
ghost use Rattle.condition_order.specs.path_walk.Paths.{Walk, paths_of};
ghost use Rattle.condition_order.specs.path_walk.declared.event.Event.{Event};
ghost use Rattle.sym_steps.specs.path_laws.Setting.{Setting};
ghost use Rattle.sym_steps.specs.path_laws.history.Along.{IsThread};
ghost use Rattle.condition_order.specs.sym_terms.declared.node.Node.{Node};
ghost use Rattle.condition_order.specs.sym_exec.Executed.{Course};
ghost use Rattle.condition_order.specs.sym_exec.declared.symbolic.Access.{Access};
ghost use Rattle.sym_steps.specs.sym_laws.Valued.{found};
ghost use Rattle.condition_order.specs.order_formula.Worlds.{World};
ghost use Rattle.condition_order.specs.lawful_order.Memory.{may_overtake};
ghost use Rattle.world_plan.specs.Going.{IsLawfulWorld, HasGone, EventAt, NextEvent, HaveDrained, is_pending, place};
ghost use Rattle.world_plan.specs.Plan.{drains_next};
ghost use Rattle.world_plan.specs.Sights.{AreInOrder, sight_of};

/// If a thread's next event may not overtake its stores, all of its stores are in memory.
pub fn buffers_are_empty<B>()
    ensures { (s : Setting B) (nodes : List Node) (w : World) (e : NextEvent s nodes w)
        → IsLawfulWorld s nodes w → may_overtake e.event.kind ≡ false → HasDrained s.ops.buffered e.deeds e.thread.name }
{}

/// If a thread's next event is a load, it takes the value that the world gives it.
pub fn loads_take_theirs<B>()
    ensures { (s : Setting B) (nodes : List Node) (w : World) (e : NextEvent s nodes w) (r : Request) (c : Course) (a : Access) (m : ℕ)
        → IsLawfulWorld s nodes w → asks_next s.code e.deeds e.thread.name ≡ Some r
        → slice_get (found s.code s.log nodes).symbolic.threads e.thread.index ≡ Some c
        → Contains c.accesses a → a.step ≡ e.event.step → a.takes ≡ Some m
        → slice_index_or w.loads m (pos 0) ≡ taken_in s.ops.buffered s.code e.deeds e.thread.name r }
{}

/// If a store is in its thread's buffer when the history reaches its position, it is the next to
/// drain.
pub fn drains_have_their_turn<B>()
    ensures { (s : Setting B) (nodes : List Node) (w : World) (e : EventAt s nodes w)
        → IsLawfulWorld s nodes w → is_pending s.ops.buffered e.event ≡ true → e.event.step < steps_in e.deeds e.thread.name
        → (c : ℕ) × (v : ℤ) × IsNextDrain s.ops.buffered s.bound e.deeds e.thread.name e.event.step c v
        × (drains_next s.ops.buffered e.deeds e.thread.name e.event.step ≡ Drained e.thread.name e.event.step c v ∷ []) }
{}

/// A step doesn't change which stores have drained. They are those before the next position after
/// the drain of the store at this one, or after its event if that isn't a store in a buffer.
pub fn drains_go_on<B>()
    ensures step { (s : Setting B) (nodes : List Node) (w : World)
        (p : ℕ) (h : List Deed) (n : Name) (k : ℕ) (r : Request) (took : ℤ) (other : Option Name) → IsLawfulWorld s nodes w → HasGone s nodes w p h
        → HaveDrained s.code s.log w s.ops.buffered p (h ++ Did n k r took other ∷ []) }
    ensures event { (s : Setting B) (nodes : List Node) (w : World) (e : NextEvent s nodes w) (r : Request) (took : ℤ) (other : Option Name)
        → IsLawfulWorld s nodes w → is_pending s.ops.buffered e.event ≡ false
        → HaveDrained s.code s.log w s.ops.buffered (suc e.position) (e.deeds ++ Did e.thread.name e.event.step r took other ∷ []) }
    ensures drain { (s : Setting B) (nodes : List Node) (w : World) (e : EventAt s nodes w) (c : ℕ) (v : ℤ)
        → IsLawfulWorld s nodes w → is_pending s.ops.buffered e.event ≡ true
        → HaveDrained s.code s.log w s.ops.buffered (suc e.position) (e.deeds ++ Drained e.thread.name e.event.step c v ∷ []) }
{}

/// Events stay in the world's order after a deed that shows nothing, after the event at the
/// position, and after its drain.
pub fn orders_go_on<B>()
    ensures quiet { (s : Setting B) (nodes : List Node) (w : World) (p : ℕ) (h : List Deed) (d : Deed)
        → IsLawfulWorld s nodes w → HasGone s nodes w p h
        → sight_of s.ops.buffered d ≡ None → AreInOrder s.ops.buffered (paths_of s.code s.log) w (h ++ d ∷ []) }
    ensures event { (s : Setting B) (nodes : List Node) (w : World) (e : NextEvent s nodes w) (r : Request) (took : ℤ) (other : Option Name)
        → IsLawfulWorld s nodes w
        → AreInOrder s.ops.buffered (paths_of s.code s.log) w (e.deeds ++ Did e.thread.name e.event.step r took other ∷ []) }
    ensures drain { (s : Setting B) (nodes : List Node) (w : World) (e : EventAt s nodes w) (c : ℕ) (v : ℤ)
        → IsLawfulWorld s nodes w
        → AreInOrder s.ops.buffered (paths_of s.code s.log) w (e.deeds ++ Drained e.thread.name e.event.step c v ∷ []) }
{}

/// If a history has passed the positions of all events, no store is pending.
pub fn all_stores_drain<B>()
    ensures { (s : Setting B) (nodes : List Node) (w : World) (p : ℕ) (h : List Deed) → IsLawfulWorld s nodes w → HasGone s nodes w p h
        → ((t : ℕ) (q : Walk) (x : Event) → IsThread s.code s.log t q → Contains q.events x → place s.code s.log w t x < p)
        → AllDrained s.ops.buffered h }
{}
