//! How the history determines the contents of the store buffers, and the names of deeds. Each
//! function states a law, and its body does nothing.
ghost use Rattle.std.specs.Prelude.{◌≡◌, ◌↔◌, ℕ, ℤ, Bool, true, false, List, [], Some, None};
ghost use Rattle.std.specs.List.{filter_map};
ghost use Rattle.std.specs.FinMap as fin;
ghost use Rattle.store_buffers.specs.tc_base.Buffers.{BufferOps};
ghost use Rattle.store_buffers.specs.Buffers.{newest};
ghost use Rattle.store_buffers.specs.list_laws.Lists.{is_nil};
ghost use Rattle.store_buffers.specs.tc_base.Names.{Name};
ghost use Rattle.store_buffers.specs.tc_base.States.{State, Thread};
ghost use Rattle.store_buffers.specs.memory_models.declared.model.Model.{Model};
ghost use Rattle.store_buffers.specs.tc_base.declared.moves.Move.{Move};
ghost use Rattle.run_laws.specs.tc_code.Code.{Code};
ghost use Rattle.run_laws.specs.tc_code.Run.{run, IsReached, IsStuck};
ghost use Rattle.run_laws.specs.tc_code.Step.{step};
ghost use Rattle.store_buffers.specs.Laws.{Laws};
ghost use Rattle.store_buffers.specs.Pending.{Binding, Stands, stores};
ghost use Rattle.run_history.specs.History.{Deed, has_drained, history, pending};
ghost use Rattle.run_history.specs.Last.{IsLast};
ghost use Rattle.run_history.specs.pending.Deeds.{HoldsNothing, AllApart, IsIssuedIn, DrainsAreOfStores, own_value};

/// A thread's buffer represents what the thread has issued and not drained, in order of issue.
pub fn buffers_are_told<B>()
    ensures { (ops : BufferOps B) (model : Model) (bound : Binding) (code : Code) (moves : List Move) (s : State B) (n : Name) (t : Thread B)
        → Laws ops model bound → run ops code moves ≡ Some s → fin.get s.threads n ≡ Some t
        → Stands ops t.buffer (pending ops.buffered (history ops code moves) n) }
{}

/// Under a model without buffers, every buffer is always empty.
pub fn nothing_is_buffered<B>()
    ensures { (ops : BufferOps B) (model : Model) (bound : Binding) (code : Code) (s : State B) (n : Name) (t : Thread B)
        → Laws ops model bound → ops.buffered ≡ false → IsReached ops code s → fin.get s.threads n ≡ Some t → HoldsNothing ops t.buffer }
{}

/// In a deadlock every buffer is empty, since a thread's oldest store may always drain.
pub fn stuck_buffers_are_empty<B>()
    ensures { (ops : BufferOps B) (model : Model) (bound : Binding) (code : Code) (s : State B) (n : Name) (t : Thread B)
        → Laws ops model bound → IsReached ops code s → IsStuck ops code s → fin.get s.threads n ≡ Some t → ops.is_empty t.buffer ≡ true }
{}

/// No two deeds have the same name, which is their thread, step and kind.
pub fn deeds_are_apart<B>()
    ensures { (ops : BufferOps B) (model : Model) (bound : Binding) (code : Code) (moves : List Move) (s : State B)
        → Laws ops model bound → run ops code moves ≡ Some s → AllApart (history ops code moves) }
{}

/// Every drain is of a store that the thread issued in the step that the drain names.
pub fn drains_are_of_stores<B>()
    ensures { (ops : BufferOps B) (model : Model) (bound : Binding) (code : Code) (moves : List Move) (s : State B)
        → Laws ops model bound → run ops code moves ≡ Some s → DrainsAreOfStores (history ops code moves) }
{}

/// No store of a thread is pending if and only if every store that it issued has drained.
pub fn stores_have_drained()
    ensures { (buffered : Bool) (h : List Deed) (n : Name)
        → (is_nil (stores (pending buffered h n)) ≡ true)
        ↔ (buffered ≡ true → (k c : ℕ) (v : ℤ) → IsIssuedIn h n k c v → has_drained h n k ≡ true) }
{}

/// A thread's newest pending store to a cell is the last one that it issued and that has not
/// drained.
pub fn own_stores_are_last()
    ensures last { (buffered : Bool) (h : List Deed) (n : Name) (c : ℕ) (v : ℤ)
        → IsLast (own_value buffered h n c) h v → newest (stores (pending buffered h n)) c ≡ Some v }
    ensures none { (buffered : Bool) (h : List Deed) (n : Name) (c : ℕ)
        → filter_map (own_value buffered h n c) h ≡ [] → newest (stores (pending buffered h n)) c ≡ None }
{}
