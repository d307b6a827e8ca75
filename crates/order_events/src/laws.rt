//! Laws about event numbers. Each law is the contract of a function with an empty body.
ghost use Rattle.std.specs.Prelude.{◌≡◌, ◌<◌, ◌⊎◌, ◌≢◌, ℕ, length};
ghost use Rattle.path_walk.specs.tc_code.Code.{Code};
ghost use Rattle.path_walk.specs.Paths.{Paths, ArePaths};
ghost use Rattle.lawful_order.specs.Events.{all_events, number_of};
ghost use Rattle.lawful_order.specs.Whole.{AreWhole, HasStep};

/// The paths of a log are whole.
pub fn paths_are_whole()
    ensures { (code : Code) (paths : Paths) → ArePaths code paths → AreWhole paths }
{}

/// A step that is an event has a number.
pub fn steps_have_numbers()
    ensures { (paths : Paths) (t k : ℕ) → HasStep paths t k → number_of paths t k < length (all_events paths) }
{}

/// Different steps have different numbers.
pub fn numbers_differ()
    ensures { (paths : Paths) (t k u j : ℕ) → HasStep paths t k → number_of paths t k ≡ number_of paths u j → (t ≡ u) × (k ≡ j) }
{}
