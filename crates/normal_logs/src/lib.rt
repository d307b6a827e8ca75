//! Normal logs, which suffice to find every failure and every deadlock. In the normal log of a
//! failure, each thread but the failing one does nothing or ends with a step that another may need.
//!
//! Each function states a law, and its body does nothing.
#![tactic(auto)]

ghost use Rattle.std.specs.Prelude.{◌↔◌, ℕ, IsSome};
ghost use Rattle.tc_record.specs.tc_code.Run.{IsStuck};
ghost use Rattle.normal_logs.specs.Normal.{IsNormal, IsNormalDeadlock};
ghost use Rattle.normal_logs.specs.Within.{Allowed, at_most, HasBeginnings, ComesTo, ReproducesSome};
ghost use Rattle.least_runs.specs.run_follows.Machine.{Machine};

/// Some run fails with allowed outcomes if and only if some run reproduces a normal log with
/// allowed outcomes, under every memory model. Every prefix of allowed outcomes must be allowed, as
/// with a limit on their number.
pub fn failures_have_normal_logs<B>()
    ensures allowed { (m : Machine B) (allowed : Allowed) → HasBeginnings allowed
        → ComesTo m.ops m.code allowed (λ s. IsSome s.failed) ↔ ReproducesSome m.ops m.code allowed m.model (IsNormal m.code) }
    ensures most { (m : Machine B) (most : ℕ)
        → ComesTo m.ops m.code (at_most most) (λ s. IsSome s.failed) ↔ ReproducesSome m.ops m.code (at_most most) m.model (IsNormal m.code) }
{}

/// The same for deadlocks, for any allowed outcomes.
pub fn deadlocks_have_normal_logs<B>()
    ensures { (m : Machine B) (allowed : Allowed)
        → ComesTo m.ops m.code allowed (IsStuck m.ops m.code) ↔ ReproducesSome m.ops m.code allowed m.model (IsNormalDeadlock m.code) }
{}
