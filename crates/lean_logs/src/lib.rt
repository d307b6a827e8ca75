//! The logs in which no path is needless suffice to find every failure and every deadlock. A path is
//! needless if it shows a pure turn, a round of a loop that changes nothing, or if a branch goes
//! against a value that the path determines. So a search may leave out each such path.
//!
//! Each function states a law, and its body does nothing.
#![tactic(auto)]

ghost use Rattle.std.specs.Prelude.{ℕ, IsSome};
ghost use Rattle.log_walk.specs.tc_code.Run.{IsStuck};
ghost use Rattle.pure_turns.specs.Live.{Liveness, IsClosed};
ghost use Rattle.normal_logs.specs.run_follows.Machine.{Machine};
ghost use Rattle.normal_logs.specs.Within.{at_most, ComesTo, ReproducesSome};
ghost use Rattle.lean_logs.specs.Lean.{any_outcomes, IsLean, IsLeanDeadlock};

/// If no run reproduces a log of a failure in which no path is needless, no run fails. The same
/// holds of the runs and logs in which each thread has at most `most` outcomes.
pub fn lean_failures_suffice<B>()
    ensures whole { (m : Machine B) (live : Liveness) → IsClosed m.code live
        → (ReproducesSome m.ops m.code any_outcomes m.model (IsLean m.code live) → ⊥)
        → ComesTo m.ops m.code any_outcomes (λ s. IsSome s.failed) → ⊥ }
    ensures within { (m : Machine B) (live : Liveness) (most : ℕ) → IsClosed m.code live
        → (ReproducesSome m.ops m.code (at_most most) m.model (IsLean m.code live) → ⊥)
        → ComesTo m.ops m.code (at_most most) (λ s. IsSome s.failed) → ⊥ }
{}

/// The same for deadlocks.
pub fn lean_deadlocks_suffice<B>()
    ensures whole { (m : Machine B) (live : Liveness) → IsClosed m.code live
        → (ReproducesSome m.ops m.code any_outcomes m.model (IsLeanDeadlock m.code live) → ⊥)
        → ComesTo m.ops m.code any_outcomes (IsStuck m.ops m.code) → ⊥ }
    ensures within { (m : Machine B) (live : Liveness) (most : ℕ) → IsClosed m.code live
        → (ReproducesSome m.ops m.code (at_most most) m.model (IsLeanDeadlock m.code live) → ⊥)
        → ComesTo m.ops m.code (at_most most) (IsStuck m.ops m.code) → ⊥ }
{}
