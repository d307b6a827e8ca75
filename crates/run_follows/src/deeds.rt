//! How histories go on, and facts of their deeds. Each function states a law, and its body does
//! nothing.
ghost use Rattle.std.specs.Prelude.{◌≡◌, ◌↔◌, ◌<◌, ◌==◌, ℕ, ℤ, Bool, true, false, Option, Some, None, List, [], ◌∷◌, ◌++◌, length};
ghost use Rattle.std.specs.FinSet as set;
ghost use Rattle.run_history.specs.tc_base.Names.{Name};
ghost use Rattle.run_history.specs.tc_base.declared.request.Request.{Request};
ghost use Rattle.run_history.specs.tc_code.Code.{Code};
ghost use Rattle.run_history.specs.store_buffers.Pending.{Binding};
ghost use Rattle.run_history.specs.History.{Deed, Did, Drained};
ghost use Rattle.run_history.specs.Last.{IsLast};
ghost use Rattle.run_history.specs.Locals.{asks_next};
ghost use Rattle.run_history.specs.Told.{owner_by, owner_in, waiting_in, failed_in};
ghost use Rattle.run_follows.specs.Machine.{Machine};
ghost use Rattle.run_follows.specs.Follow.{MayFollow, AllFollow};
ghost use Rattle.run_follows.specs.deeds.Cells.{cell_of};

/// The empty list is a history, a history may be extended by a deed that may follow it, and every
/// prefix of a history is one.
pub fn deeds_go_on()
    ensures start { (buffered : Bool) (bound : Binding) (code : Code) → AllFollow buffered bound code [] }
    ensures more { (buffered : Bool) (bound : Binding) (code : Code) (h : List Deed) (d : Deed)
        → AllFollow buffered bound code h → failed_in h ≡ None → MayFollow buffered bound code h d → AllFollow buffered bound code (h ++ d ∷ []) }
    ensures first { (buffered : Bool) (bound : Binding) (code : Code) (first later : List Deed)
        → AllFollow buffered bound code (first ++ later) → AllFollow buffered bound code first }
{}

/// A condition has no waiters if and only if no thread waits on it.
pub fn nobody_waits()
    ensures { (h : List Deed) (c : ℕ) → ((set.len (waiting_in h c) == 0) ≡ true) ↔ ((n : Name) → set.contains (waiting_in h c) n ≡ false) }
{}

/// A mutex has no owner if and only if nothing acquired it or it was released since.
pub fn nobody_owns()
    ensures { (h : List Deed) (m : ℕ) → (owner_in h m ≡ None) ↔ ((n : Name) → IsLast (owner_by m) h (Some n) → ⊥) }
{}

/// The cells of steps, of drains and of next requests are in memory.
pub fn cells_are_within<B>()
    ensures done { (m : Machine B) (h older newer : List Deed) (n : Name) (k c : ℕ) (r : Request) (took : ℤ) (other : Option Name)
        → AllFollow m.ops.buffered m.bound m.code h → h ≡ older ++ Did n k r took other ∷ newer → cell_of r ≡ Some c → c < length m.code.memory }
    ensures drained { (m : Machine B) (h older newer : List Deed) (n : Name) (k c : ℕ) (v : ℤ) → AllFollow m.ops.buffered m.bound m.code h
        → h ≡ older ++ Drained n k c v ∷ newer → c < length m.code.memory }
    ensures next { (m : Machine B) (h : List Deed) (n : Name) (c : ℕ) (r : Request) → AllFollow m.ops.buffered m.bound m.code h
        → asks_next m.code h n ≡ Some r → cell_of r ≡ Some c → c < length m.code.memory }
{}
