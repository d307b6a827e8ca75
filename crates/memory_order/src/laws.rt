//! Laws about the formula of threads' own events. Each law is the contract of a function with an
//! empty body.
ghost use Rattle.std.specs.Prelude.{◌≡◌, ℕ, Bool, true, List, length};
ghost use Rattle.std.specs.List.{All, Contains};
ghost use Rattle.path_walk.specs.Paths.{Paths};
ghost use Rattle.store_buffers.specs.Pending.{Binding};
ghost use Rattle.sym_terms.specs.Terms.{AreTerms};
ghost use Rattle.sym_terms.specs.declared.node.Node.{Node};
ghost use Rattle.sym_exec.specs.Executed.{Symbolic};
ghost use Rattle.sym_exec.specs.Making.{Grows};
ghost use Rattle.order_formula.specs.Formulas.{IsOf};
ghost use Rattle.order_formula.specs.Groups.{IsExactly};
ghost use Rattle.order_formula.specs.Orders.{Order, ConjunctIsIn};
ghost use Rattle.order_formula.specs.Worlds.{World};
ghost use Rattle.order_formula.specs.declared.formula.Conjunct.{Conjunct};
ghost use Rattle.order_formula.specs.declared.group.Group.TheVariants.{Own};
ghost use Rattle.order_cells.specs.lawful_order.Events.{all_events};
ghost use Rattle.order_cells.specs.lawful_order.Memory.{OwnRule};
ghost use Rattle.order_cells.specs.lawful_order.Whole.{AreWhole, IsExecutedBy};
ghost use Rattle.order_cells.specs.Terms.{HaveTerms};
ghost use Rattle.memory_order.specs.Own.{own_formula, own_needs};

/// The conjuncts of a thread's own events are all true in a world exactly when it meets the model's
/// rule for these events. The model must bind stores to the same cell.
pub fn own_orders_are_exact()
    ensures { (buffered : Bool) (bound : Binding) (paths : Paths) (symbolic : Symbolic) (nodes : List Node) (w : World) (t : ℕ)
        → ((barred : Bool) → bound true barred ≡ true) → AreWhole paths → IsExecutedBy paths symbolic
        → AreTerms nodes → All (Contains nodes) (own_needs buffered bound paths symbolic nodes)
        → IsExactly nodes w (own_formula buffered bound paths symbolic nodes) (Own t) (OwnRule buffered bound paths symbolic nodes w t) }
{}

/// Each conjunct belongs to the group of some thread's own events.
pub fn own_conjuncts_have_their_group()
    ensures { (buffered : Bool) (bound : Binding) (paths : Paths) (symbolic : Symbolic) (nodes : List Node) (c : Conjunct)
        → Contains (own_formula buffered bound paths symbolic nodes) c → (t : ℕ) × (c.group ≡ Own t) }
{}

/// All events and terms that the formula names exist.
pub fn own_formulas_are_of_their_order()
    ensures events { (buffered : Bool) (bound : Binding) (paths : Paths) (symbolic : Symbolic) (nodes : List Node) (o : Order)
        → o.events ≡ length (all_events paths) → All (ConjunctIsIn o) (own_formula buffered bound paths symbolic nodes) }
    ensures terms { (buffered : Bool) (bound : Binding) (paths : Paths) (symbolic : Symbolic) (nodes : List Node)
        → All (Contains nodes) (own_needs buffered bound paths symbolic nodes) → IsOf (length nodes) (own_formula buffered bound paths symbolic nodes) }
{}

/// While terms are added, the formula needs the same nodes; once these exist, it doesn't change.
pub fn own_formulas_stay()
    ensures needs { (buffered : Bool) (bound : Binding) (paths : Paths) (symbolic : Symbolic) (nodes later : List Node)
        → HaveTerms nodes symbolic → Grows nodes later
        → own_needs buffered bound paths symbolic later ≡ own_needs buffered bound paths symbolic nodes }
    ensures formula { (buffered : Bool) (bound : Binding) (paths : Paths) (symbolic : Symbolic) (nodes later : List Node)
        → HaveTerms nodes symbolic → Grows nodes later → All (Contains nodes) (own_needs buffered bound paths symbolic nodes)
        → own_formula buffered bound paths symbolic later ≡ own_formula buffered bound paths symbolic nodes }
{}
