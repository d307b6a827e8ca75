//! Going through the threads that make up a log misses no failure and no deadlock: the threads of each
//! normal log make up a log, and where some run fails, some run reproduces a normal log.
//!
//! Each function states a law, and its body does nothing.
#![tactic(auto)]

ghost use Rattle.std.specs.Prelude.{◌≡◌, ◌<◌, true, None, IsSome, List, length};
ghost use Rattle.log_walk.specs.run_log.Logs.{Log, rises_from};
ghost use Rattle.log_walk.specs.tc_base.Paths.{ThreadPath};
ghost use Rattle.log_walk.specs.tc_code.Code.{Code};
ghost use Rattle.log_walk.specs.tc_code.Lawful.{IsLawful};
ghost use Rattle.log_walk.specs.tc_code.Run.{IsStuck};
ghost use Rattle.normal_logs.specs.run_follows.Machine.{Machine};
ghost use Rattle.log_walk.specs.Rest.{all, MakeUp};
ghost use Rattle.log_walk.specs.declared.bounds.Kind.{Kind};
ghost use Rattle.log_walk.specs.declared.bounds.Kind.TheVariants.{Failure, Deadlock};
ghost use Rattle.normal_logs.specs.Normal.{IsNormal, IsNormalDeadlock};
ghost use Rattle.normal_logs.specs.Within.{Allowed, HasBeginnings, ComesTo, ReproducesSome};
ghost use Rattle.walked_logs.specs.Walked.{IsWalked, IsWalkedDeadlock};

/// The threads of a normal log make up a log, of a failure or of a deadlock: each takes a path that it
/// may take, and one of them ends as it must.
pub fn normal_logs_are_walked()
    ensures failures { (code : Code) (log : Log) → IsNormal code log → MakeUp code Failure (all code Failure) log.threads }
    ensures deadlocks { (code : Code) (log : Log) → IsLawful code → IsNormalDeadlock code log → MakeUp code Deadlock (all code Deadlock) log.threads }
{}

/// The names of threads that make up a log strictly increase, as those of a log must, and there is at
/// least one thread.
pub fn walked_names_rise()
    ensures rise { (code : Code) (kind : Kind) (threads : List ThreadPath) → MakeUp code kind (all code kind) threads → rises_from None threads ≡ true }
    ensures some { (code : Code) (kind : Kind) (threads : List ThreadPath) → MakeUp code kind (all code kind) threads → 0 < length threads }
{}

/// If some run fails with allowed outcomes, some run reproduces the log of a failure with allowed
/// outcomes whose threads make up a log. So if no such log can be reproduced, no run fails.
pub fn failures_are_walked<B>()
    ensures { (m : Machine B) (allowed : Allowed) → HasBeginnings allowed
        → ComesTo m.ops m.code allowed (λ s. IsSome s.failed) → ReproducesSome m.ops m.code allowed m.model (IsWalked m.code) }
{}

/// The same for deadlocks, for any allowed outcomes.
pub fn deadlocks_are_walked<B>()
    ensures { (m : Machine B) (allowed : Allowed)
        → ComesTo m.ops m.code allowed (IsStuck m.ops m.code) → ReproducesSome m.ops m.code allowed m.model (IsWalkedDeadlock m.code) }
{}
