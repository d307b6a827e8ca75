//! Deeds agree with the run. Each function's clause is a law, and its body does nothing.
ghost use Rattle.std.specs.Prelude.{◌≡◌, List, Option, Some, IsSomeAnd, ℕ, true};
ghost use Rattle.std.specs.FinMap as fin;
ghost use Rattle.tc_base.specs.Buffers.{BufferOps};
ghost use Rattle.tc_base.specs.Names.{Name};
ghost use Rattle.tc_base.specs.States.{State, Thread};
ghost use Rattle.store_buffers.specs.memory_models.declared.model.Model.{Model};
ghost use Rattle.tc_base.specs.declared.moves.Move.{Move};
ghost use Rattle.tc_code.specs.Code.{Code};
ghost use Rattle.tc_code.specs.Run.{run};
ghost use Rattle.store_buffers.specs.Laws.{Laws};
ghost use Rattle.store_buffers.specs.Pending.{Binding};
ghost use Rattle.run_history.specs.History.{Drained, drained, history};
ghost use Rattle.show_deeds.specs.Seen.{seen_in, first_by};

/// Memory is as the deeds of the history leave it.
pub fn memory_is_seen<B>()
    ensures { (ops : BufferOps B) (model : Model) (bound : Binding) (code : Code) (moves : List Move) (s : State B)
        → Laws ops model bound → run ops code moves ≡ Some s → (seen_in ops.buffered code (history ops code moves)).memory ≡ s.memory }
{}

/// A drain takes the first of a thread's waiting stores that drains in its form.
pub fn first_drains<B>()
    ensures { (ops : BufferOps B) (model : Model) (bound : Binding) (code : Code) (moves : List Move) (s : State B) (n : Name) (t : Thread B)
        (form : Option ℕ) → Laws ops model bound → run ops code moves ≡ Some s → fin.get s.threads n ≡ Some t → ops.may_drain t.buffer form ≡ true
        → IsSomeAnd (first_by n form (seen_in ops.buffered code (history ops code moves)).waiting)
        (λ w. drained ops code (history ops code moves) n (ops.drain t.buffer form).entry ≡ Drained w.thread w.number w.cell w.value) }
{}
