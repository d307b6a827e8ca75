//! Laws about formulas. Each law is the contract of a function with an empty body.
ghost use Rattle.std.specs.Prelude.{◌≡◌, false, true, List};
ghost use Rattle.std.specs.List.{Contains, list_any};
ghost use Rattle.std.specs.Option.{MatchOption};
ghost use Rattle.sym_terms.specs.declared.node.Node.{Node};
ghost use Rattle.order_formula.specs.declared.read.Candidate.{Candidate};
ghost use Rattle.order_formula.specs.declared.formula.Conjunct.{Conjunct};
ghost use Rattle.order_formula.specs.declared.order.Choice.{Choice};
ghost use Rattle.order_formula.specs.declared.order.Pair.{Pair};
ghost use Rattle.order_formula.specs.Orders.{Grows, IsAsked, Order, choice_number, pair_number, same_choice, same_pair, with_formula};
ghost use Rattle.order_formula.specs.Reads.{Read};
ghost use Rattle.order_formula.specs.Truth.{IsSource, is_read, source_at};
ghost use Rattle.order_formula.specs.Worlds.{World};

/// A load takes its value from the last write to its cell that it sees, unless it sees none.
pub fn loads_take_from_the_last()
    ensures { (nodes : List Node) (w : World) (r : Read)
        → MatchOption (source_at nodes w r)
        ((c : Candidate) → Contains r.candidates c → is_read nodes w r c ≡ false) (IsSource nodes w r) }
{}

/// All questions of a formula are in the order that it leaves.
pub fn formulas_are_asked()
    ensures grows { (o : Order) (formula : List Conjunct) → Grows o (with_formula o formula) }
    ensures asked { (o : Order) (formula : List Conjunct) → IsAsked (with_formula o formula) formula }
{}

/// Questions stay in the order, with their numbers, while others are added.
pub fn questions_stay()
    ensures formulas { (o p : Order) (formula : List Conjunct) → Grows o p → IsAsked o formula → IsAsked p formula }
    ensures pairs { (o p : Order) (pair : Pair) → Grows o p → list_any (same_pair pair) o.pairs ≡ true
        → pair_number p pair ≡ pair_number o pair }
    ensures choices { (o p : Order) (choice : Choice) → Grows o p → list_any (same_choice choice) o.choices ≡ true
        → choice_number p choice ≡ choice_number o choice }
{}
