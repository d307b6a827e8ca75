//! A pure turn is a round of a loop that changes nothing. It can be left out of a run so that the
//! rest is a run. So if no run without pure turns fails, no run fails at all.
//!
//! Each function states a law, and its body does nothing.
#![tactic(auto)]

ghost use Rattle.std.specs.Prelude.{◌≡◌, ℕ, ℤ, List, ◌++◌, Some, None};
ghost use Rattle.run_laws.specs.tc_base.Buffers.{BufferOps};
ghost use Rattle.run_laws.specs.tc_base.Names.{Name};
ghost use Rattle.run_laws.specs.tc_base.States.{Local, State};
ghost use Rattle.run_laws.specs.tc_base.declared.moves.Move.{Move};
ghost use Rattle.run_laws.specs.tc_code.declared.instr.Instr.{Instr};
ghost use Rattle.run_laws.specs.tc_code.Code.{Code};
ghost use Rattle.run_laws.specs.tc_code.Lawful.{IsLawful};
ghost use Rattle.run_laws.specs.tc_code.Run.{run, IsReached, IsStuck};
ghost use Rattle.run_laws.specs.tc_code.Step.{request, local_after, instr_of};
ghost use Rattle.pure_turns.specs.Live.{Liveness, IsClosed, AreAlike};
ghost use Rattle.pure_turns.specs.Turn.{HasOutcomesUpTo, IsSameBut, IsPureTurn, HasNoPureTurn, ComesOut};

/// Two threads that are alike, at the same place with the same values in the slots that are live
/// there, do the same instruction and ask the same. They are alike after it if they read the same.
pub fn alike_threads_go_alike()
    ensures instruction { (code : Code) (live : Liveness) (t u : Local) (i : Instr)
        → IsClosed code live → AreAlike live t u → instr_of code t ≡ Some i → instr_of code u ≡ Some i }
    ensures request { (code : Code) (live : Liveness) (t u : Local) (i : Instr)
        → IsClosed code live → AreAlike live t u → instr_of code t ≡ Some i → request u i ≡ request t i }
    ensures after { (code : Code) (live : Liveness) (t u : Local) (i : Instr) (v : ℤ)
        → IsClosed code live → AreAlike live t u → instr_of code t ≡ Some i → AreAlike live (local_after t i v) (local_after u i v) }
{}

/// A pure turn of a thread can be left out of a run. Without the thread's steps in it, there are
/// fewer moves, and they lead to the same state except for this thread: it has taken fewer steps,
/// has at most as many outcomes, and may have other values in slots that aren't live. So the same
/// thread has failed at the same place, or none has, and a deadlock stays one.
pub fn pure_turns_come_out<B>()
    ensures run { (ops : BufferOps B) (code : Code) (live : Liveness) (n : Name) (older turn newer : List Move) (s w : State B)
        → IsLawful code → IsClosed code live → run ops code older ≡ Some s → IsPureTurn ops code live n s turn
        → run ops code (older ++ turn ++ newer) ≡ Some w → ComesOut ops code live n older turn newer w }
    ensures deadlock { (ops : BufferOps B) (code : Code) (live : Liveness) (n : Name) (v w : State B)
        → IsClosed code live → IsReached ops code v → IsSameBut live n v w → IsStuck ops code w → IsStuck ops code v }
{}

/// So if no run without pure turns fails, no run fails. The same holds of the runs in which each
/// thread has at most k outcomes.
pub fn failures_need_no_pure_turns<B>()
    ensures whole { (ops : BufferOps B) (code : Code) (live : Liveness) → IsLawful code → IsClosed code live
        → ((moves : List Move) (s : State B) → run ops code moves ≡ Some s → HasNoPureTurn ops code live moves → s.failed ≡ None)
        → (moves : List Move) (s : State B) → run ops code moves ≡ Some s → s.failed ≡ None }
    ensures within { (ops : BufferOps B) (code : Code) (live : Liveness) (k : ℕ) → IsLawful code → IsClosed code live
        → ((moves : List Move) (s : State B) → run ops code moves ≡ Some s → HasNoPureTurn ops code live moves → HasOutcomesUpTo k s
        → s.failed ≡ None)
        → (moves : List Move) (s : State B) → run ops code moves ≡ Some s → HasOutcomesUpTo k s → s.failed ≡ None }
{}

/// If no run without pure turns comes to a deadlock, no run does. The same holds of the runs in
/// which each thread has at most k outcomes.
pub fn deadlocks_need_no_pure_turns<B>()
    ensures whole { (ops : BufferOps B) (code : Code) (live : Liveness) → IsLawful code → IsClosed code live
        → ((moves : List Move) (s : State B) → run ops code moves ≡ Some s → HasNoPureTurn ops code live moves → IsStuck ops code s → ⊥)
        → (moves : List Move) (s : State B) → run ops code moves ≡ Some s → IsStuck ops code s → ⊥ }
    ensures within { (ops : BufferOps B) (code : Code) (live : Liveness) (k : ℕ) → IsLawful code → IsClosed code live
        → ((moves : List Move) (s : State B) → run ops code moves ≡ Some s → HasNoPureTurn ops code live moves → HasOutcomesUpTo k s
        → IsStuck ops code s → ⊥)
        → (moves : List Move) (s : State B) → run ops code moves ≡ Some s → HasOutcomesUpTo k s → IsStuck ops code s → ⊥ }
{}
