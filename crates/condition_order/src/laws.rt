//! Laws about the formula of conditions. Each law is the contract of a function with an empty body.
ghost use Rattle.std.specs.Prelude.{◌≡◌, ℕ, List, length};
ghost use Rattle.std.specs.List.{All, Contains};
ghost use Rattle.path_walk.specs.Paths.{Paths};
ghost use Rattle.order_formula.specs.sym_terms.declared.node.Node.{Node};
ghost use Rattle.order_events.specs.sym_exec.Executed.{Symbolic};
ghost use Rattle.order_formula.specs.declared.formula.Conjunct.{Conjunct};
ghost use Rattle.order_formula.specs.declared.group.Group.TheVariants.{Condition};
ghost use Rattle.order_formula.specs.Formulas.{IsOf};
ghost use Rattle.order_formula.specs.Groups.{IsExactly};
ghost use Rattle.order_formula.specs.Orders.{Order, ConjunctIsIn};
ghost use Rattle.order_formula.specs.Worlds.{World};
ghost use Rattle.order_events.specs.lawful_order.Events.{all_events, all_sleeps};
ghost use Rattle.order_events.specs.lawful_order.Whole.{AreWhole};
ghost use Rattle.order_events.specs.lawful_order.Lawful.{IsWorldOf};
ghost use Rattle.order_events.specs.lawful_order.Conditions.{ConditionRule};
ghost use Rattle.condition_order.specs.Conditions.{condition_formula};

/// All conjuncts about a condition are true in a world exactly when its sleeps end as the
/// condition's signals and broadcasts end them.
pub fn conditions_are_exact()
    ensures { (paths : Paths) (symbolic : Symbolic) (nodes : List Node) (w : World) (c : ℕ) → IsWorldOf paths symbolic w
        → IsExactly nodes w (condition_formula paths) (Condition c) (ConditionRule paths w c) }
{}

/// Each conjunct is about a condition.
pub fn conditions_have_their_group()
    ensures { (paths : Paths) (x : Conjunct) → Contains (condition_formula paths) x
        → (c : ℕ) × (x.group ≡ Condition c) }
{}

/// If the paths are whole, all events and sleeps that a conjunct names exist.
pub fn conditions_are_of_the_order()
    ensures { (paths : Paths) (o : Order) → AreWhole paths → o.events ≡ length (all_events paths)
        → o.sleeps ≡ length (all_sleeps paths) → All (ConjunctIsIn o) (condition_formula paths) }
{}

/// No conjunct names a term.
pub fn conditions_name_no_terms()
    ensures { (paths : Paths) (terms : ℕ) → IsOf terms (condition_formula paths) }
{}
