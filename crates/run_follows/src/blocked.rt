//! What blocks each thread when no deed may follow a history. Each function states a law, and its
//! body does nothing.
ghost use Rattle.std.specs.Prelude.{◌≡◌, ◌↔◌, Bool, List, Some};
ghost use Rattle.run_history.specs.tc_base.Buffers.{BufferOps};
ghost use Rattle.run_history.specs.tc_base.Names.{Name};
ghost use Rattle.run_history.specs.tc_base.States.{State};
ghost use Rattle.run_history.specs.memory_models.declared.model.Model.{Model};
ghost use Rattle.run_history.specs.tc_base.declared.moves.Move.{Move};
ghost use Rattle.run_history.specs.tc_base.declared.request.Request.{Request};
ghost use Rattle.run_history.specs.tc_code.Code.{Code};
ghost use Rattle.run_history.specs.tc_code.Run.{run, IsStuck};
ghost use Rattle.run_history.specs.store_buffers.Laws.{Laws};
ghost use Rattle.run_history.specs.store_buffers.Pending.{Binding};
ghost use Rattle.run_history.specs.History.{Deed, history};
ghost use Rattle.run_history.specs.Locals.{asks_next};
ghost use Rattle.run_follows.specs.Machine.{Machine};
ghost use Rattle.run_follows.specs.Follow.{NothingFollows};
ghost use Rattle.run_follows.specs.blocked.Stuck.{HasDrained, AllDrained, NoStepFollows, IsBlockedIn, AllAreBlocked, IsDeadlockIn};

/// If no deed may follow a run's history, no store is pending: a thread's oldest one may always
/// drain.
pub fn pending_stores_may_drain<B>()
    ensures { (ops : BufferOps B) (model : Model) (bound : Binding) (code : Code) (moves : List Move) (s : State B)
        → Laws ops model bound → run ops code moves ≡ Some s
        → NothingFollows ops.buffered bound code (history ops code moves) → AllDrained ops.buffered (history ops code moves) }
{}

/// A thread without pending stores can't do its next step if and only if its request is blocked:
/// the mutex has an owner, the wait isn't over, or the child has not exited.
pub fn steps_are_blocked()
    ensures { (buffered : Bool) (bound : Binding) (code : Code) (h : List Deed) (n : Name) (r : Request)
        → asks_next code h n ≡ Some r → HasDrained buffered h n → NoStepFollows buffered bound code h n ↔ IsBlockedIn h n r }
{}

/// So no deed may follow a run's history if and only if no store is pending and each thread that
/// has not exited is blocked.
pub fn nothing_follows_where_all_are_blocked<B>()
    ensures { (m : Machine B) (moves : List Move) (s : State B) → run m.ops m.code moves ≡ Some s
        → NothingFollows m.ops.buffered m.bound m.code (history m.ops m.code moves)
        ↔ (AllDrained m.ops.buffered (history m.ops m.code moves) × AllAreBlocked m.code (history m.ops m.code moves)) }
{}

/// A run ends in a deadlock if and only if, in addition, no thread has failed and one has not
/// exited.
pub fn deadlocks_are_told<B>()
    ensures { (m : Machine B) (moves : List Move) (s : State B) → run m.ops m.code moves ≡ Some s
        → IsStuck m.ops m.code s ↔ IsDeadlockIn m.ops.buffered m.code (history m.ops m.code moves) }
{}
