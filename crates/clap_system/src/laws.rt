//! Laws about systems. Each law is the contract of a function with an empty body.
ghost use Rattle.std.specs.Prelude.{◌≡◌, ◌↔◌, ℕ, Bool, true, Some, length};
ghost use Rattle.std.specs.List.{Contains};
ghost use Rattle.tc_code.specs.Code.{Code};
ghost use Rattle.tc_code.specs.Lawful.{IsLawful};
ghost use Rattle.path_walk.specs.Paths.{Paths, ArePaths};
ghost use Rattle.store_buffers.specs.Pending.{Binding};
ghost use Rattle.sym_terms.specs.Terms.{AreTerms};
ghost use Rattle.order_formula.specs.Groups.{IsExactly};
ghost use Rattle.order_formula.specs.Truth.{holds_at};
ghost use Rattle.order_formula.specs.Worlds.{World, IsWorld};
ghost use Rattle.order_formula.specs.declared.group.Group.{Group};
ghost use Rattle.order_events.specs.lawful_order.Events.{all_events, all_sleeps, ender_of};
ghost use Rattle.order_events.specs.lawful_order.Lawful as order;
ghost use Rattle.order_events.specs.lawful_order.Lawful.{IsWorldOf, MeetsRule};
ghost use Rattle.clap_system.specs.Ready.{IsReady};
ghost use Rattle.clap_system.specs.Systems.{system_by};

/// All conjuncts of a group are true in a world exactly when it meets the rule of that group.
pub fn groups_are_exact()
    ensures { (buffered : Bool) (bound : Binding) (code : Code) (paths : Paths) (w : World) (g : Group)
        → ((barred : Bool) → bound true barred ≡ true) → IsLawful code → ArePaths code paths
        → AreTerms (system_by buffered bound code paths).nodes → IsWorld w
        → IsWorldOf paths (system_by buffered bound code paths).symbolic w
        → IsExactly (system_by buffered bound code paths).nodes w (system_by buffered bound code paths).formula g
        (MeetsRule buffered bound code paths (system_by buffered bound code paths).symbolic (system_by buffered bound code paths).nodes w g) }
{}

/// The formula is true in a world exactly when the world is lawful.
pub fn systems_are_exact()
    ensures { (buffered : Bool) (bound : Binding) (code : Code) (paths : Paths) (w : World)
        → ((barred : Bool) → bound true barred ≡ true) → IsLawful code → ArePaths code paths
        → AreTerms (system_by buffered bound code paths).nodes → IsWorld w
        → IsWorldOf paths (system_by buffered bound code paths).symbolic w
        → (holds_at (system_by buffered bound code paths).nodes w (system_by buffered bound code paths).formula ≡ true)
        ↔ order.IsLawful buffered bound code paths (system_by buffered bound code paths).symbolic (system_by buffered bound code paths).nodes w }
{}

/// A system has everything that its translation into clauses relies on.
pub fn systems_are_ready()
    ensures { (buffered : Bool) (bound : Binding) (code : Code) (paths : Paths)
        → IsLawful code → ArePaths code paths → IsReady (system_by buffered bound code paths) }
{}

/// Take a world with the paths' numbers of events, loads and sleeps. It is a world of the paths
/// exactly when every event that ends a sleep is among the order's choices for that sleep.
pub fn choices_are_enders()
    ensures { (buffered : Bool) (bound : Binding) (code : Code) (paths : Paths) (w : World)
        → length w.positions ≡ length (all_events paths) → length w.loads ≡ (system_by buffered bound code paths).symbolic.loads
        → length w.enders ≡ length (all_sleeps paths)
        → IsWorldOf paths (system_by buffered bound code paths).symbolic w
        ↔ ((s g : ℕ) → ender_of w s ≡ Some g → Contains (system_by buffered bound code paths).order.choices (record { sleep = s; by = g })) }
{}
