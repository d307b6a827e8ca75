//! Short runs fail, and have neither a step that nothing needs nor a pure turn. Where there is no
//! short run, no run fails, so a search for failures needs to look only at short runs.
//!
//! Each function states a law, and its body does nothing.
#![tactic(auto)]

ghost use Rattle.std.specs.Prelude.{◌≡◌, ℕ, List, Some};
ghost use Rattle.pure_turns.specs.tc_base.Names.{Name};
ghost use Rattle.least_runs.specs.run_history.History.{Deed};
ghost use Rattle.least_runs.specs.run_history.Told.{failed_in};
ghost use Rattle.least_runs.specs.run_follows.Machine.{Machine};
ghost use Rattle.least_runs.specs.run_follows.Follow.{AllFollow, IsStuckIn};
ghost use Rattle.pure_turns.specs.Live.{Liveness, IsClosed};
ghost use Rattle.short_runs.specs.Short.{HasOutcomesUpTo, IsShort};
ghost use Rattle.short_runs.specs.Turns.{HasNoPureTurnIn};

/// If a thread fails in no short run, it fails in no run. The same holds of the runs in which each
/// thread has at most k outcomes.
pub fn short_runs_suffice<B>()
    ensures whole { (m : Machine B) (live : Liveness) (f : Name)
        → IsClosed m.code live
        → ((g : List Deed) → IsShort m.ops.buffered m.bound m.code live f g → ⊥)
        → (h : List Deed) → AllFollow m.ops.buffered m.bound m.code h → failed_in h ≡ Some f → ⊥ }
    ensures within { (m : Machine B) (live : Liveness) (f : Name) (k : ℕ)
        → IsClosed m.code live
        → ((g : List Deed) → IsShort m.ops.buffered m.bound m.code live f g → HasOutcomesUpTo m.code k g → ⊥)
        → (h : List Deed) → AllFollow m.ops.buffered m.bound m.code h → failed_in h ≡ Some f → HasOutcomesUpTo m.code k h → ⊥ }
{}

/// If no run without pure turns comes to a deadlock, no run does. The same holds of the runs in
/// which each thread has at most k outcomes.
pub fn turnless_deadlocks_suffice<B>()
    ensures whole { (m : Machine B) (live : Liveness)
        → IsClosed m.code live
        → ((g : List Deed) → AllFollow m.ops.buffered m.bound m.code g → IsStuckIn m.ops.buffered m.bound m.code g → HasNoPureTurnIn m.code live g → ⊥)
        → (h : List Deed) → AllFollow m.ops.buffered m.bound m.code h → IsStuckIn m.ops.buffered m.bound m.code h → ⊥ }
    ensures within { (m : Machine B) (live : Liveness) (k : ℕ)
        → IsClosed m.code live
        → ((g : List Deed) → AllFollow m.ops.buffered m.bound m.code g → IsStuckIn m.ops.buffered m.bound m.code g → HasNoPureTurnIn m.code live g
        → HasOutcomesUpTo m.code k g → ⊥)
        → (h : List Deed) → AllFollow m.ops.buffered m.bound m.code h → IsStuckIn m.ops.buffered m.bound m.code h → HasOutcomesUpTo m.code k h → ⊥ }
{}
