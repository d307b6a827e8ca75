//! Laws of the added clauses: each is the clause of a function that does nothing.
ghost use Rattle.std.specs.Prelude.{◌≢◌, ℕ, ◌<◌, ◌==◌, Bool, List, ℤ, length};
ghost use Rattle.std.specs.List.{IsDistinct};
ghost use Rattle.order_cells.specs.sym_exec.path_walk.tc_code.Code.{Code};
ghost use Rattle.order_cells.specs.sym_exec.path_walk.tc_code.Lawful.{IsLawful};
ghost use Rattle.order_cells.specs.sym_exec.path_walk.Paths.{ArePaths, Paths};
ghost use Rattle.circuit_sizes.specs.sym_terms.Terms.{AreTerms};
ghost use Rattle.circuit_sizes.specs.sym_terms.declared.node.Node.{Node};
ghost use Rattle.order_cells.specs.sym_exec.Executed.{Symbolic};
ghost use Rattle.order_cells.specs.sym_exec.Ints.{AreInts};
ghost use Rattle.mutex_regions.specs.order_events.order_formula.declared.formula.Conjunct.{Conjunct};
ghost use Rattle.mutex_regions.specs.order_events.order_formula.Worlds.{IsWorld, World, position};
ghost use Rattle.mutex_regions.specs.order_events.lawful_order.Lawful.{IsWorldOf};
ghost use Rattle.mutex_regions.specs.order_events.lawful_order.Whole.{IsExecutedBy};
ghost use Rattle.mutex_regions.specs.InOrder.{IsInOrder};
ghost use Rattle.mutex_states.specs.Going.{RegionsGo, TestsHold, positions_of};
ghost use Rattle.cnf_core.specs.Clauses.{Formula};
ghost use Rattle.bit_gates.specs.Folded.{IsLarger};
ghost use Rattle.bit_gates.specs.Laws.{IsOf};
ghost use Rattle.bit_blast.specs.Drafts.{Draft, KeepsWorlds};
ghost use Rattle.bit_blast.specs.Says.{DraftTells, IsDraftOver};
ghost use Rattle.mutex_states.specs.Adding.{HasWorlds, StatesRules};
ghost use Rattle.mutex_states.specs.States.{with_states};
ghost use Rattle.mutex_states.specs.Laws.{InOrderMeans, PositionsRank, RanksMean, StatesFollow};
ghost use Rattle.mutex_states.specs.Ranks.{AreRanks};
ghost use Rattle.mutex_states.specs.Sizes.{most_size};
ghost use Rattle.mutex_states.specs.Steps.{AreSteps, Step};

/// The new variables have values that say the ranks of the regions, and then all clauses of ranks
/// hold; and exactly one region has each rank.
pub fn ranks_mean()
    ensures { (count : ℕ) (before : (first second : ℕ) → ℤ) (rank : ℕ → ℕ) (f : Formula) → 0 < f.vars
        → ((first second : ℕ) → first < count → second < count → first ≢ second → IsOf f.vars (before first second))
        → AreRanks count rank → RanksMean count before rank f }
{}

/// The ranks of different positions are ranks of the regions that begin there.
pub fn positions_rank()
    ensures { PositionsRank }
{}

/// The states after the ranks have values with which all their clauses hold: those to which the
/// regions go, one after another, or any where not all is in order.
pub fn states_follow()
    ensures { (cells : ℕ) (steps : List Step) (loads : List (List ℤ)) (roots : List ℤ) (ordered : ℤ) (before : (first second : ℕ) → ℤ) (f : Formula)
        → ((first second : ℕ) → first < length steps → second < length steps → first ≢ second → IsOf f.vars (before first second))
        → AreSteps cells steps loads roots ordered f → StatesFollow cells steps loads roots ordered before f }
{}

/// In a world in which the literal that all is in order is true, the rules on which the states of
/// the mutex's cells rest hold. Other rules may be broken.
pub fn in_order_means()
    ensures { (code : Code) (paths : Paths) (symbolic : Symbolic) (nodes : List Node) (formula : List Conjunct) (w : World) (m : ℕ) (d : Draft) (f : Formula)
        → IsDraftOver d f → InOrderMeans code paths symbolic nodes formula w m d f }
{}

/// In a world in which all is in order, each region goes from the state of its rank to the next, its
/// loads take what the state holds, and its tests come out as they are wanted.
pub fn regions_go()
    ensures { (code : Code) (paths : Paths) (symbolic : Symbolic) (nodes : List Node) (formula : List Conjunct) (w : World) (m top : ℕ) (holds : ℕ → Bool)
        → IsLawful code → ArePaths code paths → IsExecutedBy paths symbolic → AreTerms nodes → IsWorld w → IsWorldOf paths symbolic w
        → AreInts nodes w.loads → IsInOrder code paths symbolic nodes w m → ((e : ℕ) → position w e < top)
        → IsDistinct (λ p q. p == q) (positions_of code paths symbolic nodes w m) → TestsHold code paths symbolic nodes formula w holds
        → RegionsGo code paths symbolic nodes w m formula top holds }
{}

/// In every world the clauses of the states of all mutexes hold for some values of the new variables.
/// So what they refute is impossible by the rules alone.
pub fn states_keep()
    ensures { (code : Code) (paths : Paths) (symbolic : Symbolic) (nodes : List Node) (formula : List Conjunct) (d : Draft)
        → StatesRules code paths symbolic nodes formula → HasWorlds paths symbolic nodes d.layout → DraftTells nodes formula d
        → KeepsWorlds nodes formula d (with_states code paths symbolic nodes formula d) }
{}

/// The states of all mutexes have at most this many variables, and this many clauses.
pub fn states_have_room()
    ensures { (code : Code) (paths : Paths) (symbolic : Symbolic) (nodes : List Node) (formula : List Conjunct) (d : Draft)
        → IsLarger most_size d.clauses (with_states code paths symbolic nodes formula d).clauses }
{}
