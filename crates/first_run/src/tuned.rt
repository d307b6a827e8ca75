//! The numbers of the rules that were found by trial. `docs/FIRST-RUN.md` has the rules.

/// The greatest number of events that a thread runs ahead. Numbers from 5 to 20 choose about the
/// same; a greater one costs time for each event of the run.
pub(crate) const EVENTS_AHEAD: usize = 10;

/// The greatest number of tests that a thread passes between two events ahead, as in a loop without
/// accesses. A greater number only costs time.
pub(crate) const TESTS_AHEAD: usize = 40;

/// The greatest number of terms that a thread evaluates after a load ahead. The others keep the
/// values that they had, which may be wrong; a greater number only costs time.
pub(crate) const TERMS_AHEAD: usize = 200;

/// The number of events within which a stuck thread leaves its path. With spinlocks, a smaller
/// number keeps more threads on their paths.
pub(crate) const NEAR: usize = 2;

/// The same in an eager run, where a greater number keeps more threads on their paths.
pub(crate) const NEAR_IF_EAGER: usize = 3;
