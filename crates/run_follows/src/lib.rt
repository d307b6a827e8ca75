//! How the history alone determines which moves are enabled; which lists of deeds are histories.
//!
//! So facts of runs can be proved of lists of deeds. Each function states a law, and its body does
//! nothing.
#![tactic(auto)]

ghost use Rattle.std.specs.Prelude.{◌≡◌, ◌<◌, ℕ, List, length, Some, is_some, ◌↔◌, ◌&&◌, true, Option, is_none};
ghost use Rattle.std.specs.FinMap as fin;
ghost use Rattle.run_history.specs.tc_base.Buffers.{BufferOps};
ghost use Rattle.run_history.specs.run_log.Logs.{Log};
ghost use Rattle.run_history.specs.tc_base.Names.{Name};
ghost use Rattle.run_history.specs.tc_base.States.{State, Thread};
ghost use Rattle.run_history.specs.memory_models.declared.model.Model.{Model};
ghost use Rattle.run_history.specs.tc_base.declared.moves.Move.{Move};
ghost use Rattle.run_history.specs.tc_code.Code.{Code};
ghost use Rattle.run_history.specs.tc_code.Run.{run, IsStuck, Reproduces};
ghost use Rattle.run_history.specs.tc_code.Step.{step, request, instr_of, loaded};
ghost use Rattle.run_history.specs.store_buffers.Laws.{Laws};
ghost use Rattle.run_history.specs.store_buffers.Pending.{Binding};
ghost use Rattle.run_history.specs.History.{Deed, history};
ghost use Rattle.run_history.specs.Told.{failed_in};
ghost use Rattle.run_follows.specs.Machine.{Machine};
ghost use Rattle.run_follows.specs.Follow.{AllFollow, IsStuckIn, seen_in, is_allowed_in, may_wake_in, StepsAreOfThreads, moves_for, HasTurn};
ghost use Rattle.run_follows.specs.Logged.{GoesAsLogged};
ghost use Rattle.run_history.specs.tc_base.declared.moves.Move.TheVariants as move;
ghost use Rattle.run_history.specs.tc_code.declared.instr.Instr.{Instr};

pub mod blocked;
pub mod deeds;

/// A load returns the thread's newest pending store to the cell, else the last store that reached
/// the cell, else its initial value.
pub fn loads_are_told<B>()
    ensures { (ops : BufferOps B) (model : Model) (bound : Binding) (code : Code) (moves : List Move) (s : State B) (n : Name) (t : Thread B) (c : ℕ)
        → Laws ops model bound → run ops code moves ≡ Some s → fin.get s.threads n ≡ Some t → c < length code.memory
        → loaded ops s t c ≡ seen_in ops.buffered code (history ops code moves) n c }
{}

/// A thread may do its next instruction if no thread has failed, its stores have drained if they
/// must, and mutexes, waiters and children allow the request.
pub fn runs_are_told<B>()
    ensures { (m : Machine B) (moves : List Move) (s : State B) (n : Name) (t : Thread B) (i : Instr) → run m.ops m.code moves ≡ Some s
        → fin.get s.threads n ≡ Some t → instr_of m.code t.local ≡ Some i → is_some (step m.ops m.code s (move.Run n))
        ≡ (is_none (failed_in (history m.ops m.code moves)) && is_allowed_in m.ops.buffered (history m.ops m.code moves) n (request t.local i)) }
{}

/// A thread may wake another by its next instruction if no thread has failed, the instruction is a
/// signal, the thread has no pending store, and the other thread waits.
pub fn wakes_are_told<B>()
    ensures { (m : Machine B) (moves : List Move) (s : State B) (n u : Name) (t : Thread B) (i : Instr) → run m.ops m.code moves ≡ Some s
        → fin.get s.threads n ≡ Some t → instr_of m.code t.local ≡ Some i → is_some (step m.ops m.code s (move.Wake n u))
        ≡ (is_none (failed_in (history m.ops m.code moves)) && may_wake_in m.ops.buffered (history m.ops m.code moves) n u (request t.local i)) }
{}

/// A thread's store may drain by a form if no thread has failed and a pending store that drains by
/// this form isn't bound after any older pending store.
pub fn drains_are_told<B>()
    ensures { (ops : BufferOps B) (model : Model) (bound : Binding) (code : Code) (moves : List Move) (s : State B) (n : Name) (t : Thread B)
        (form : Option ℕ)
        → Laws ops model bound → run ops code moves ≡ Some s → fin.get s.threads n ≡ Some t
        → (is_some (step ops code s (move.Drain n form)) ≡ true)
        ↔ ((is_none (failed_in (history ops code moves)) ≡ true) × HasTurn ops.buffered bound (history ops code moves) n form) }
{}

/// Each deed of a run of lawful code may follow the deeds before it, and nothing follows a failure.
pub fn deeds_follow<B>()
    ensures { (m : Machine B) (moves : List Move) (s : State B)
        → run m.ops m.code moves ≡ Some s → AllFollow m.ops.buffered m.bound m.code (history m.ops m.code moves) }
{}

/// Every step is by a thread that exists and has not exited.
pub fn steps_are_of_threads<B>()
    ensures { (m : Machine B) (moves : List Move) (s : State B) → run m.ops m.code moves ≡ Some s → StepsAreOfThreads (history m.ops m.code moves) }
{}

/// A list of deeds, each of which may follow those before it and none a failure, is the history of
/// a run by the moves of these deeds.
pub fn what_follows_is_a_run<B>()
    ensures { (m : Machine B) (h : List Deed) → AllFollow m.ops.buffered m.bound m.code h
        → (s : State B) × (run m.ops m.code (moves_for m.bound h) ≡ Some s) × (history m.ops m.code (moves_for m.bound h) ≡ h) }
{}

/// A run ends in a deadlock if and only if no thread has failed, no deed may follow its history,
/// and some thread has not exited.
pub fn stuck_is_told<B>()
    ensures { (m : Machine B) (moves : List Move) (s : State B) → run m.ops m.code moves ≡ Some s
        → IsStuck m.ops m.code s ↔ IsStuckIn m.ops.buffered m.bound m.code (history m.ops m.code moves) }
{}

/// Moves that reproduce a log, of a failure or of a deadlock, have a history that matches the log.
pub fn reproduces_as_logged<B>()
    ensures { (m : Machine B) (log : Log) (moves : List Move) → Reproduces m.ops m.code log moves
        → GoesAsLogged m.ops.buffered m.bound m.code log (history m.ops m.code moves) }
{}

/// Conversely, a history that matches a log reproduces it by the moves of its deeds. So some moves
/// reproduce a log if and only if some history matches it.
pub fn deeds_reproduce<B>()
    ensures { (m : Machine B) (log : Log) (h : List Deed)
        → AllFollow m.ops.buffered m.bound m.code h → GoesAsLogged m.ops.buffered m.bound m.code log h
        → Reproduces m.ops m.code log (moves_for m.bound h) }
{}
