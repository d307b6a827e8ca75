//! Laws of conjuncts as literals: each is the clause of a function that does nothing.
ghost use Rattle.std.specs.Prelude.{ℕ, List};
ghost use Rattle.sym_terms.specs.declared.node.Node.{Node};
ghost use Rattle.order_formula.specs.declared.formula.Conjunct.{Conjunct};
ghost use Rattle.order_formula.specs.Orders.{IsOrder, Order};
ghost use Rattle.cnf_core.specs.Clauses.{IsUnsatisfiable};
ghost use Rattle.bit_order.specs.Layouts.{Layout};
ghost use Rattle.bit_blast.specs.Blasted.{BlastMeans, IsPosed, RootsTell, blast, impossible, layout_of};
ghost use Rattle.bit_blast.specs.Drafts.{Draft, DraftMeans, KeepsWorlds, drafted};
ghost use Rattle.bit_blast.specs.Laws.{CasesMean, ReadsMean, RootsMean};
ghost use Rattle.bit_blast.specs.Says.{DraftTells};
ghost use Rattle.bit_blast.specs.Whole.{IsReady, WholeMeans};

/// In every model, the literal of a conjunct with cases is true exactly if the conjunct is.
pub fn cases_mean()
    ensures { CasesMean }
{}

/// If the literal of a read is true, the load takes the value that it must; and in every world the
/// new variables have values that make the literal true if the load does so.
pub fn reads_mean()
    ensures { ReadsMean }
{}

/// The models of a formula's clauses are those whose worlds make the formula true.
pub fn roots_mean()
    ensures { RootsMean }
{}

/// The same for the clauses of an order, its terms and a formula together.
pub fn whole_means()
    ensures { (y : Layout) (nodes : List Node) (formula : List Conjunct) → IsReady y nodes formula → WholeMeans y nodes formula }
{}

/// Each model of a formula's clauses has a world of its order in which the formula is true, and
/// each such world has a model.
pub fn blast_means()
    ensures { (nodes : List Node) (formula : List Conjunct) (order : Order) (loads : ℕ) → IsPosed nodes formula order
        → IsOrder (layout_of order loads formula).order → BlastMeans nodes formula order loads }
{}

/// Each conjunct has its own clause, its root, and in every world the other clauses have a model.
/// So an impossibility follows from the conjuncts whose roots its refutation uses.
pub fn roots_tell()
    ensures { (nodes : List Node) (formula : List Conjunct) (order : Order) (loads : ℕ) → IsPosed nodes formula order
        → IsOrder (layout_of order loads formula).order
        → RootsTell nodes formula (record { order = order; loads = loads }) (blast nodes formula order loads) }
{}

/// The same for a draft to which clauses were added that hold in every world, once it is asserted.
pub fn drafts_mean()
    ensures { (nodes : List Node) (formula : List Conjunct) (order : Order) (loads : ℕ) (draft : Draft) → IsPosed nodes formula order
        → IsOrder (layout_of order loads formula).order
        → KeepsWorlds nodes formula (drafted nodes formula (layout_of order loads formula)) draft
        → DraftMeans nodes formula (record { order = order; loads = loads }) draft }
{}

/// In each model of a draft's clauses whose roots tell which conjuncts hold, the literals and words of
/// the draft agree with the model's world.
pub fn drafts_tell()
    ensures { (nodes : List Node) (formula : List Conjunct) (order : Order) (loads : ℕ) → IsPosed nodes formula order
        → IsOrder (layout_of order loads formula).order → DraftTells nodes formula (drafted nodes formula (layout_of order loads formula)) }
{}

/// The clauses of an impossible formula are unsatisfiable.
pub fn impossible_is_unsatisfiable()
    ensures { IsUnsatisfiable impossible.clauses.clauses }
{}
