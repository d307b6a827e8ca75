//! The budget of a search.
ghost use Rattle.std.specs.Prelude.{◌≤◌};
ghost use Rattle.schedule_file.specs.tc_limits.declared.limits.TheConstants.{BUDGET};

/// The default number of conflicts of a search.
pub const USUAL_BUDGET: u32 = 1_000_000;

/// The number of conflicts that a search may have.
#[derive(Clone, Copy, Debug)]
pub struct Budget {
    pub conflicts: u32,
    ghost some: { 1 ≤ conflicts },
    ghost room: { conflicts ≤ BUDGET },
}
