//! The history of a run, and how it determines the state that the run leads to.
//!
//! A history is a list of deeds: steps of threads, with their requests and the values read, and
//! drains of stores. The history alone determines each part of a state. Each function states a law,
//! and its body does nothing.
#![tactic(auto)]

ghost use Rattle.std.specs.Prelude.{◌≡◌, ◌↔◌, ◌<◌, ℕ, ℤ, pos, Bool, true, false, List, length, Some, is_some, option_map, slice_index_or, ◌++◌, ◌∷◌, []};
ghost use Rattle.std.specs.Option.{option_map_or};
ghost use Rattle.std.specs.List.{All, filter_map};
ghost use Rattle.std.specs.FinMap as fin;
ghost use Rattle.std.specs.FinSet as set;
ghost use Rattle.store_buffers.specs.tc_base.Buffers.{BufferOps};
ghost use Rattle.store_buffers.specs.tc_base.Names.{Name};
ghost use Rattle.store_buffers.specs.tc_base.States.{State};
ghost use Rattle.store_buffers.specs.memory_models.declared.model.Model.{Model};
ghost use Rattle.store_buffers.specs.tc_base.declared.moves.Move.{Move};
ghost use Rattle.run_laws.specs.tc_code.Code.{Code};
ghost use Rattle.run_laws.specs.tc_code.Lawful.{IsLawful};
ghost use Rattle.run_laws.specs.tc_code.Run.{run};
ghost use Rattle.run_laws.specs.tc_code.Step.{in_memory, waiting_on, step};
ghost use Rattle.store_buffers.specs.Laws.{Laws};
ghost use Rattle.store_buffers.specs.Pending.{Binding};
ghost use Rattle.run_laws.specs.Ints.{PassesInts};
ghost use Rattle.run_laws.specs.Laws.{owner_of};
ghost use Rattle.run_history.specs.History.{Deed, history, deed_of};
ghost use Rattle.run_history.specs.Ints.{DeedHasInts};
ghost use Rattle.run_history.specs.Locals.{locals_in};
ghost use Rattle.run_history.specs.Last.{IsLast, brings, waits_by};
ghost use Rattle.run_history.specs.Told.{value_in, owner_by, owner_in, waiting_in, is_thread_in, steps_in, children_in, has_exited_in, failed_in};

pub mod pending;

/// Each move appends its deed to the history.
pub fn moves_add_deeds<B>()
    ensures { (ops : BufferOps B) (code : Code) (moves : List Move) (s u : State B) (m : Move)
        → run ops code moves ≡ Some s → step ops code s m ≡ Some u
        → history ops code (moves ++ m ∷ []) ≡ history ops code moves ++ deed_of ops code s (history ops code moves) m }
{}

/// Each move appends exactly one deed.
pub fn one_deed_a_move<B>()
    ensures { (ops : BufferOps B) (code : Code) (moves : List Move) (s : State B)
        → run ops code moves ≡ Some s → length (history ops code moves) ≡ length moves }
{}

/// The history of the first moves is a prefix of the history.
pub fn histories_begin<B>()
    ensures { (ops : BufferOps B) (code : Code) (first rest : List Move) (s : State B)
        → run ops code (first ++ rest) ≡ Some s
        → (later : List Deed) × (history ops code (first ++ rest) ≡ history ops code first ++ later) }
{}

/// A cell of memory has the value of the last store that reached it, else its initial value.
pub fn memory_is_told<B>()
    ensures { (ops : BufferOps B) (code : Code) (moves : List Move) (s : State B) (c : ℕ)
        → run ops code moves ≡ Some s → c < length code.memory
        → in_memory s c ≡ value_in ops.buffered code (history ops code moves) c }
{}

/// A mutex is owned by the thread that last acquired it, unless it was released since.
pub fn owners_are_told<B>()
    ensures { (ops : BufferOps B) (code : Code) (moves : List Move) (s : State B) (m : ℕ)
        → run ops code moves ≡ Some s → m < code.mutexes
        → owner_of s m ≡ owner_in (history ops code moves) m }
{}

/// The waiters of a condition are the threads that sleep on it and have not been woken since.
pub fn waiters_are_told<B>()
    ensures { (ops : BufferOps B) (code : Code) (moves : List Move) (s : State B) (c : ℕ)
        → run ops code moves ≡ Some s → c < code.conditions
        → waiting_on s c ≡ waiting_in (history ops code moves) c }
{}

/// The threads are main and the threads that were created.
pub fn threads_are_told<B>()
    ensures { (ops : BufferOps B) (code : Code) (moves : List Move) (s : State B) (n : Name)
        → run ops code moves ≡ Some s
        → is_some (fin.get s.threads n) ≡ is_thread_in (history ops code moves) n }
{}

/// A thread has exited if its exit is in the history.
pub fn exits_are_told<B>()
    ensures { (ops : BufferOps B) (code : Code) (moves : List Move) (s : State B) (n : Name)
        → run ops code moves ≡ Some s
        → option_map_or (λ t. t.local.has_exited) (fin.get s.threads n) false ≡ has_exited_in (history ops code moves) n }
{}

/// The history has as many steps of a thread as the thread has done.
pub fn steps_are_told<B>()
    ensures { (ops : BufferOps B) (code : Code) (moves : List Move) (s : State B) (n : Name)
        → run ops code moves ≡ Some s
        → option_map_or (λ t. t.local.steps) (fin.get s.threads n) 0 ≡ steps_in (history ops code moves) n }
{}

/// The history has as many creates of a thread as the thread has created children.
pub fn children_are_told<B>()
    ensures { (ops : BufferOps B) (code : Code) (moves : List Move) (s : State B) (n : Name)
        → run ops code moves ≡ Some s
        → option_map_or (λ t. t.local.children) (fin.get s.threads n) 0 ≡ children_in (history ops code moves) n }
{}

/// A thread's local state is the result of its steps and the values that they read.
pub fn locals_are_told<B>()
    ensures { (ops : BufferOps B) (code : Code) (moves : List Move) (s : State B) (n : Name)
        → run ops code moves ≡ Some s
        → option_map (λ t. t.local) (fin.get s.threads n) ≡ fin.get (locals_in code (history ops code moves)) n }
{}

/// The thread that failed is the thread of the failing step.
pub fn failure_is_told<B>()
    ensures { (ops : BufferOps B) (code : Code) (moves : List Move) (s : State B)
        → run ops code moves ≡ Some s → s.failed ≡ failed_in (history ops code moves) }
{}

/// A thread owns a mutex if and only if the last acquire or release of it is that thread's acquire.
pub fn owners_are_last()
    ensures { (h : List Deed) (m : ℕ) (n : Name) → (owner_in h m ≡ Some n) ↔ IsLast (owner_by m) h (Some n) }
{}

/// A thread waits on a condition if and only if the last deed that began or ended its wait began
/// it.
pub fn waiters_are_last()
    ensures { (h : List Deed) (c : ℕ) (n : Name) → (set.contains (waiting_in h c) n ≡ true) ↔ IsLast (waits_by c n) h true }
{}

/// A cell has the value of the last store that reached it, and its initial value if none has.
pub fn cells_have_last()
    ensures last { (buffered : Bool) (code : Code) (h : List Deed) (c : ℕ) (v : ℤ) → IsLast (brings buffered c) h v → value_in buffered code h c ≡ v }
    ensures begin { (buffered : Bool) (code : Code) (h : List Deed) (c : ℕ)
        → filter_map (brings buffered c) h ≡ [] → value_in buffered code h c ≡ slice_index_or code.memory c (pos 0) }
{}

/// Under every memory model, a buffer returns ints whenever ints were put in.
pub fn models_pass_ints<B>()
    ensures { (ops : BufferOps B) (model : Model) (bound : Binding) → Laws ops model bound → PassesInts ops }
{}

/// If buffers pass ints, every value that deeds of lawful code request, read or drain is an int.
pub fn deeds_have_ints<B>()
    ensures { (ops : BufferOps B) (code : Code) (moves : List Move) (s : State B)
        → PassesInts ops → IsLawful code → run ops code moves ≡ Some s → All DeedHasInts (history ops code moves) }
{}
