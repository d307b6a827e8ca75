//! What the conjuncts of a system say of the worlds of its paths, as far as the states of its mutexes
//! rest on it.
//!
//! Each law is the contract of a function with an empty body.

ghost use Rattle.std.specs.Prelude.{◌≤◌, Bool};
ghost use Rattle.mutex_states.specs.mutex_regions.order_events.sym_exec.path_walk.tc_code.Code.{Code};
ghost use Rattle.mutex_states.specs.mutex_regions.order_events.sym_exec.path_walk.tc_code.Lawful.{IsLawful};
ghost use Rattle.mutex_states.specs.mutex_regions.order_events.sym_exec.path_walk.Paths.{ArePaths, Paths};
ghost use Rattle.mutex_states.specs.mutex_regions.order_events.store_buffers.Pending.{Binding};
ghost use Rattle.mutex_states.specs.bit_blast.order_formula.sym_terms.Terms.{AreTerms};
ghost use Rattle.mutex_states.specs.bit_blast.Blasted.{layout_of};
ghost use Rattle.clap_system.specs.Systems.{system_by};
ghost use Rattle.mutex_states.specs.Adding.{HasWorlds, StatesRules};

/// Where the conjuncts about a mutex hold, its regions don't overlap; where that of a load holds, the
/// load takes the value that it must; and where that of a test holds, the test comes out so.
pub fn systems_state_rules()
    ensures { (buffered : Bool) (bound : Binding) (code : Code) (paths : Paths)
        → IsLawful code → ArePaths code paths → AreTerms (system_by buffered bound code paths).nodes
        → StatesRules code paths (system_by buffered bound code paths).symbolic (system_by buffered bound code paths).nodes
        (system_by buffered bound code paths).formula }
{}

/// Any values of the variables of a system's clauses have a world of its paths.
pub fn systems_have_worlds()
    ensures { (buffered : Bool) (bound : Binding) (code : Code) (paths : Paths)
        → IsLawful code → ArePaths code paths → (system_by buffered bound code paths).order.events ≤ 256
        → HasWorlds paths (system_by buffered bound code paths).symbolic (system_by buffered bound code paths).nodes
        (layout_of (system_by buffered bound code paths).order (system_by buffered bound code paths).symbolic.loads
        (system_by buffered bound code paths).formula) }
{}
