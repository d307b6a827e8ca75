//! What holds in every run of the machine, under every memory model. Each function states a law,
//! and its body does nothing.
#![tactic(auto)]

ghost use Rattle.std.specs.Prelude.{◌≡◌, ◌≤◌, ◌+◌, ℕ, ℤ, List, length, Option, Some, None, IsSome, IsTrue};
ghost use Rattle.std.specs.FinMap as fin;
ghost use Rattle.std.specs.List.{All};
ghost use Rattle.tc_code.specs.int_ops.Arith.{IsInt};
ghost use Rattle.tc_code.specs.tc_base.Buffers.{BufferOps};
ghost use Rattle.tc_code.specs.tc_base.Names.{Name, main, child};
ghost use Rattle.tc_code.specs.tc_base.States.{State, Thread};
ghost use Rattle.tc_code.specs.tc_base.declared.moves.Move.{Move};
ghost use Rattle.tc_code.specs.declared.instr.Instr.{Instr};
ghost use Rattle.tc_code.specs.Code.{Code};
ghost use Rattle.tc_code.specs.Lawful.{IsLawful};
ghost use Rattle.tc_code.specs.Run.{IsReached, run, run_from};
ghost use Rattle.tc_code.specs.Step.{step, instr_of, request};
ghost use Rattle.run_laws.specs.Alone.{after_steps, taken_from, Beginning, alone_since};
ghost use Rattle.run_laws.specs.Ints.{PassesInts, StateHasInts, AsksInts};
ghost use Rattle.run_laws.specs.Laws.{HasTested, OwnersHold, WaitersAreAtWake, ExitedPastExit, ThreadsAreCreated, HandlesAreChildren};
ghost use Rattle.run_laws.specs.Whole.{AllThreads, IsWhole, IndexIsWithin};

/// After a thread has failed, no move is enabled.
pub fn none_after_failure<B>()
    ensures { (ops : BufferOps B) (code : Code) (s : State B) (m : Move)
        → IsSome s.failed → step ops code s m ≡ None }
{}

/// A thread has done at most as many steps as there were moves.
pub fn steps_within_moves<B>()
    ensures { (ops : BufferOps B) (code : Code) (moves : List Move) (s : State B) (n : Name) (t : Thread B)
        → run ops code moves ≡ Some s → fin.get s.threads n ≡ Some t → t.local.steps ≤ length moves }
{}

/// Main is a thread of every state that a run reaches.
pub fn main_is_there<B>()
    ensures { (ops : BufferOps B) (code : Code) (s : State B)
        → IsReached ops code s → IsSome (fin.get s.threads main) }
{}

/// Every reached state has the code's cells, mutexes and conditions, and every thread the slots,
/// thread variables and held flags that it may name.
pub fn states_are_whole<B>()
    ensures { (ops : BufferOps B) (code : Code) (s : State B)
        → IsLawful code → IsReached ops code s → IsWhole code s }
{}

/// The index of a thread's next access is inside its array. So no access ever leaves its array.
pub fn accesses_are_within<B>()
    ensures { (ops : BufferOps B) (code : Code) (s : State B) (n : Name) (t : Thread B) (i : Instr)
        → IsLawful code → IsReached ops code s → fin.get s.threads n ≡ Some t
        → instr_of code t.local ≡ Some i → IndexIsWithin t.local i }
{}

/// At an unlock or a sleep the thread holds the mutex, and at a join the thread variable is a child
/// that wasn't joined. So no test is needed beside the site before the instruction.
pub fn tests_stand<B>()
    ensures { (ops : BufferOps B) (code : Code) (s : State B)
        → IsLawful code → IsReached ops code s → AllThreads (HasTested code) s.threads }
{}

/// A thread holds a mutex if and only if it owns it, and every owner is a thread.
pub fn owners_hold<B>()
    ensures { (ops : BufferOps B) (code : Code) (s : State B)
        → IsLawful code → IsReached ops code s → OwnersHold s }
{}

/// Every waiter of a condition is a thread at a wake on it.
pub fn waiters_are_at_wake<B>()
    ensures { (ops : BufferOps B) (code : Code) (s : State B)
        → IsLawful code → IsReached ops code s → WaitersAreAtWake code s }
{}

/// A thread has exited if and only if its last instruction was an exit.
pub fn exited_past_exit<B>()
    ensures { (ops : BufferOps B) (code : Code) (s : State B)
        → IsLawful code → IsReached ops code s → AllThreads (ExitedPastExit code) s.threads }
{}

/// Every created child is a thread, and every thread but main is a created child.
pub fn threads_are_created<B>()
    ensures { (ops : BufferOps B) (code : Code) (s : State B)
        → IsReached ops code s → ThreadsAreCreated s }
{}

/// A thread variable that holds a child holds one that its thread has created.
pub fn handles_are_children<B>()
    ensures { (ops : BufferOps B) (code : Code) (s : State B)
        → IsReached ops code s → AllThreads HandlesAreChildren s.threads }
{}

/// If a model's buffers return ints whenever ints were put in, every value in memory, in slots and
/// in buffers is an int.
pub fn values_are_ints<B>()
    ensures { (ops : BufferOps B) (code : Code) (s : State B)
        → PassesInts ops → IsLawful code → IsReached ops code s → StateHasInts ops s }
{}

/// Under the same condition, the values in a thread's next request are ints.
pub fn requests_have_ints<B>()
    ensures { (ops : BufferOps B) (code : Code) (s : State B) (n : Name) (t : Thread B) (i : Instr)
        → PassesInts ops → IsLawful code → IsReached ops code s → fin.get s.threads n ≡ Some t
        → instr_of code t.local ≡ Some i → AsksInts (request t.local i) }
{}

/// Under the same condition, the values that a thread reads are ints.
pub fn taken_are_ints<B>()
    ensures { (ops : BufferOps B) (code : Code) (s : State B) (n : Name) (moves : List Move)
        → PassesInts ops → IsLawful code → IsReached ops code s → All IsInt (taken_from ops code s n moves) }
{}

/// A thread's local state depends only on its code, its earlier local state, and the values read
/// and the number of steps done since. Other threads, memory and the order of moves matter only
/// through these values.
pub fn threads_go_alone<B>()
    ensures { (ops : BufferOps B) (code : Code) (s u : State B) (moves : List Move) (n : Name) (t v : Thread B)
        → IsReached ops code s → run_from ops code s moves ≡ Some u
        → fin.get s.threads n ≡ Some t → fin.get u.threads n ≡ Some v
        → (k : ℕ) × (v.local.steps ≡ t.local.steps + k)
        × (v.local ≡ (after_steps code k (record { local = t.local; values = taken_from ops code s n moves })).local) }
{}

/// So after any run, a thread's local state depends only on four things: its code, the function and
/// arguments with which it was created, the values that it has read, and its number of steps.
pub fn threads_live_alone<B>()
    ensures { (ops : BufferOps B) (code : Code) (moves : List Move) (s : State B) (n : Name) (t : Thread B)
        → run ops code moves ≡ Some s → fin.get s.threads n ≡ Some t
        → (b : Beginning ops code n moves) × (t.local ≡ alone_since ops code n moves b t.local.steps) }
{}
