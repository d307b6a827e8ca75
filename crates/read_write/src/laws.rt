//! Laws about the values of loads. Each law is the contract of a function with an empty body.
ghost use Rattle.std.specs.Prelude.{◌≡◌, ◌==◌, ℕ, List, ◌∷◌, fold, length, map};
ghost use Rattle.std.specs.List.{All, Contains, IsDistinct};
ghost use Rattle.tc_code.specs.Code.{Code};
ghost use Rattle.path_walk.specs.Paths.{Paths};
ghost use Rattle.sym_terms.specs.Terms.{AreTerms, with_node};
ghost use Rattle.sym_terms.specs.declared.node.Node.{Node};
ghost use Rattle.sym_exec.specs.Executed.{Symbolic};
ghost use Rattle.sym_exec.specs.Making.{Grows};
ghost use Rattle.order_formula.specs.Formulas.{IsOf};
ghost use Rattle.order_formula.specs.Groups.{IsExactly};
ghost use Rattle.order_formula.specs.Orders.{ConjunctIsIn, Order};
ghost use Rattle.order_formula.specs.Reads as spec;
ghost use Rattle.order_formula.specs.Worlds.{World, IsWorld};
ghost use Rattle.order_formula.specs.declared.formula.Body.TheVariants as body;
ghost use Rattle.order_formula.specs.declared.formula.Conjunct.{Conjunct};
ghost use Rattle.order_formula.specs.declared.group.Group.TheVariants.{Read};
ghost use Rattle.order_cells.specs.lawful_order.Events.{all_events};
ghost use Rattle.order_cells.specs.lawful_order.Lawful.{IsWorldOf};
ghost use Rattle.order_cells.specs.lawful_order.Reads.{ReadRule};
ghost use Rattle.order_cells.specs.lawful_order.Whole.{AreWhole, IsExecutedBy};
ghost use Rattle.order_cells.specs.Terms.{HaveTerms};
ghost use Rattle.read_write.specs.Reading.{read_formula, read_needs};

/// In each world of the paths, the conjuncts about a thread's loads at a line are all true exactly
/// when these loads take the right values.
pub fn reads_are_exact()
    ensures { (code : Code) (paths : Paths) (symbolic : Symbolic) (nodes : List Node) (w : World) (t line : ℕ)
        → IsWorld w → IsWorldOf paths symbolic w → AreWhole paths → IsExecutedBy paths symbolic → AreTerms nodes
        → All (Contains nodes) (read_needs code symbolic nodes)
        → IsExactly nodes w (read_formula code paths symbolic nodes) (Read t line) (ReadRule code paths symbolic nodes w t line) }
{}

/// Each conjunct is about a thread's loads at a line.
pub fn reads_have_their_group()
    ensures { (code : Code) (paths : Paths) (symbolic : Symbolic) (nodes : List Node) (c : Conjunct)
        → Contains (read_formula code paths symbolic nodes) c → (t : ℕ) × (line : ℕ) × (c.group ≡ Read t line) }
{}

/// Once the nodes that the loads need exist, the formula names only existing terms, and more terms
/// don't change it.
pub fn reads_stay()
    ensures made { (code : Code) (symbolic : Symbolic) (nodes later : List Node)
        → HaveTerms nodes symbolic → Grows (fold with_node nodes (read_needs code symbolic nodes)) later
        → All (Contains later) (read_needs code symbolic later) }
    ensures terms { (code : Code) (paths : Paths) (symbolic : Symbolic) (nodes : List Node)
        → HaveTerms nodes symbolic → All (Contains nodes) (read_needs code symbolic nodes)
        → IsOf (length nodes) (read_formula code paths symbolic nodes) }
    ensures same { (code : Code) (paths : Paths) (symbolic : Symbolic) (nodes later : List Node)
        → HaveTerms nodes symbolic → All (Contains nodes) (read_needs code symbolic nodes) → Grows nodes later
        → read_formula code paths symbolic later ≡ read_formula code paths symbolic nodes }
{}

/// All events that the formula names exist, and the events of a read and of its candidates are
/// distinct.
pub fn reads_are_of_the_order()
    ensures within { (code : Code) (paths : Paths) (symbolic : Symbolic) (nodes : List Node) (o : Order)
        → IsExecutedBy paths symbolic → o.events ≡ length (all_events paths) → All (ConjunctIsIn o) (read_formula code paths symbolic nodes) }
    ensures differ { (code : Code) (paths : Paths) (symbolic : Symbolic) (nodes : List Node) (c : Conjunct) (r : spec.Read)
        → IsExecutedBy paths symbolic → Contains (read_formula code paths symbolic nodes) c → c.body ≡ body.Read r
        → IsDistinct (λ e d. e == d) (r.event ∷ map (λ x. x.event) r.candidates) }
{}
