//! Laws about the formula of synchronisation. Each law is the contract of a function with an empty
//! body.
ghost use Rattle.std.specs.Prelude.{◌≡◌, ℕ, List, length, Bool, true};
ghost use Rattle.std.specs.List.{All, Contains};
ghost use Rattle.path_walk.specs.tc_code.Code.{Code};
ghost use Rattle.path_walk.specs.Paths.{Paths};
ghost use Rattle.order_events.specs.store_buffers.Pending.{Binding};
ghost use Rattle.order_formula.specs.sym_terms.declared.node.Node.{Node};
ghost use Rattle.order_events.specs.sym_exec.Executed.{Symbolic};
ghost use Rattle.order_formula.specs.declared.formula.Conjunct.{Conjunct};
ghost use Rattle.order_formula.specs.declared.group.Group.{Group};
ghost use Rattle.order_formula.specs.Formulas.{IsOf};
ghost use Rattle.order_formula.specs.Groups.{IsExactly};
ghost use Rattle.order_formula.specs.Orders.{ConjunctIsIn, Order};
ghost use Rattle.order_formula.specs.Worlds.{World};
ghost use Rattle.order_events.specs.lawful_order.Events.{all_events, all_sleeps};
ghost use Rattle.order_events.specs.lawful_order.Lawful.{IsWorldOf, MeetsRule};
ghost use Rattle.order_events.specs.lawful_order.Whole.{AreWhole};
ghost use Rattle.sync_order.specs.Sync.{is_sync, sync_formula};

/// All conjuncts of a group are true in a world exactly when it meets the rule of that group.
pub fn sync_is_exact()
    ensures { (buffered : Bool) (bound : Binding) (code : Code) (paths : Paths) (symbolic : Symbolic) (nodes : List Node) (w : World) (g : Group)
        → IsWorldOf paths symbolic w → is_sync g ≡ true
        → IsExactly nodes w (sync_formula paths) g (MeetsRule buffered bound code paths symbolic nodes w g) }
{}

/// Each conjunct belongs to a group of synchronisation.
pub fn sync_has_its_groups()
    ensures { (paths : Paths) (c : Conjunct) → Contains (sync_formula paths) c → is_sync c.group ≡ true }
{}

/// If the paths are whole, all events and sleeps that a conjunct names exist.
pub fn sync_is_of_the_order()
    ensures { (paths : Paths) (o : Order) → AreWhole paths → o.events ≡ length (all_events paths) → o.sleeps ≡ length (all_sleeps paths)
        → All (ConjunctIsIn o) (sync_formula paths) }
{}

/// No conjunct names a term.
pub fn sync_names_no_terms()
    ensures { (paths : Paths) (terms : ℕ) → IsOf terms (sync_formula paths) }
{}
