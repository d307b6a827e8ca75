//! Runs with as few steps as possible: which steps can be left out of a run so that the rest is a
//! run.
//!
//! Each function states a law, and its body does nothing.
#![tactic(auto)]

ghost use Rattle.std.specs.Prelude.{◌≡◌, ◌≢◌, ℕ, ℤ, Bool, true, List, ◌∷◌, ◌++◌, Option, Some};
ghost use Rattle.std.specs.FinMap as fin;
ghost use Rattle.run_follows.specs.tc_base.Names.{Name, child};
ghost use Rattle.run_follows.specs.tc_base.States.{Local};
ghost use Rattle.run_follows.specs.tc_base.declared.request.Request.{Request};
ghost use Rattle.run_follows.specs.tc_base.declared.request.Request.TheVariants.{Await};
ghost use Rattle.run_follows.specs.tc_code.Code.{Code};
ghost use Rattle.run_follows.specs.tc_code.Step.{holds};
ghost use Rattle.run_follows.specs.store_buffers.Pending.{Binding};
ghost use Rattle.run_follows.specs.run_history.History.{Deed, Did};
ghost use Rattle.run_follows.specs.run_history.Locals.{locals_in};
ghost use Rattle.run_follows.specs.run_history.Told.{steps_in, has_exited_in, failed_in};
ghost use Rattle.run_follows.specs.Machine.{Machine};
ghost use Rattle.run_follows.specs.Follow.{AllFollow};
ghost use Rattle.run_follows.specs.Logged.{path_told};
ghost use Rattle.least_runs.specs.Least.{HasLeast};
ghost use Rattle.least_runs.specs.Unused.{is_unused};

/// The last step of a thread can be left out if no later deed needs it: the rest is a run, fails
/// like the whole run, and takes each other thread along the same path, except one that the step
/// creates.
pub fn unused_steps_come_out<B>()
    ensures run { (m : Machine B) (older newer : List Deed) (n : Name) (k : ℕ) (r : Request) (took : ℤ) (other : Option Name)
        → AllFollow m.ops.buffered m.bound m.code (older ++ Did n k r took other ∷ newer)
        → steps_in newer n ≡ 0 → is_unused r n other newer ≡ true → AllFollow m.ops.buffered m.bound m.code (older ++ newer) }
    ensures failure { (older newer : List Deed) (n : Name) (k : ℕ) (r : Request) (took : ℤ) (other : Option Name)
        → is_unused r n other newer ≡ true → failed_in (older ++ newer) ≡ failed_in (older ++ Did n k r took other ∷ newer) }
    ensures paths { (m : Machine B) (older newer : List Deed) (n q : Name) (k : ℕ) (r : Request) (took : ℤ) (other : Option Name)
        → AllFollow m.ops.buffered m.bound m.code (older ++ Did n k r took other ∷ newer)
        → steps_in newer n ≡ 0 → is_unused r n other newer ≡ true → q ≢ n → other ≢ Some q
        → path_told m.code (older ++ newer) q ≡ path_told m.code (older ++ Did n k r took other ∷ newer) q }
{}

/// So each run that fails has a least one: the same thread fails after the same path, no thread has
/// further outcomes, and no step of another thread can be left out.
pub fn failing_runs_have_least_ones<B>()
    ensures { (m : Machine B) (h : List Deed) (f : Name) → AllFollow m.ops.buffered m.bound m.code h → failed_in h ≡ Some f
        → HasLeast m.ops.buffered m.bound m.code h f }
{}

/// A thread that was joined has exited.
pub fn joined_threads_have_exited()
    ensures { (buffered : Bool) (bound : Binding) (code : Code) (older newer : List Deed) (n : Name) (k j : ℕ) (took : ℤ) (other : Option Name)
        → AllFollow buffered bound code (older ++ Did n k (Await j) took other ∷ newer)
        → has_exited_in (older ++ Did n k (Await j) took other ∷ newer) (child n j) ≡ true }
{}

/// No two threads hold the same mutex.
pub fn mutexes_have_one_holder<B>()
    ensures { (machine : Machine B) (h : List Deed) (n q : Name) (t u : Local) (m : ℕ) → AllFollow machine.ops.buffered machine.bound machine.code h
        → fin.get (locals_in machine.code h) n ≡ Some t → fin.get (locals_in machine.code h) q ≡ Some u → holds t m ≡ true → holds u m ≡ true → n ≡ q }
{}
