//! Laws of orders as clauses: each is the clause of a function that does nothing.
ghost use Rattle.std.specs.Prelude.{◌≡◌, ◌≢◌, ◌<◌, ◌≤◌, ℕ, ℤ, List, IsTrue, true};
ghost use Rattle.std.specs.List.{All, Contains, list_any};
ghost use Rattle.cnf_core.specs.Clauses.{Valuation, clause_true, satisfies};
ghost use Rattle.cnf_core.specs.Gates.{Agree, IsOver};
ghost use Rattle.bit_gates.specs.Extended.{IsExtended};
ghost use Rattle.bit_gates.specs.Laws.{IsModel, IsOf};
ghost use Rattle.order_formula.specs.Orders.{Order, Grows, IsOrder, same_pair, pair_of};
ghost use Rattle.order_formula.specs.Worlds.{World};
ghost use Rattle.bit_order.specs.Clauses.{folded_clause};
ghost use Rattle.bit_order.specs.Layouts.{Layout, base};
ghost use Rattle.bit_order.specs.Comparators.{completed, ordered};
ghost use Rattle.bit_order.specs.Readings.{world_of};
ghost use Rattle.bit_order.specs.Laws.{IsWorldFor, SaysSame, LiteralsMean};

/// If variable 1 is true, a clause of any literals is true exactly if one of them is.
pub fn clauses_mean()
    ensures { (v : Valuation) (n : ℕ) (ls : List ℤ) → v 1 ≡ true → All (IsOf n) ls → satisfies v (folded_clause ls) ≡ clause_true v ls }
{}

/// Every valuation of the variables has a world, if there are at most 256 events.
pub fn values_say_worlds()
    ensures { (y : Layout) (v : Valuation) → y.order.events ≤ 256 → IsWorldFor y (world_of y v) }
{}

/// Each world has a model that is read as this world, up to the positions of its events.
pub fn worlds_have_values()
    ensures { (y : Layout) (w : World) → IsOrder y.order → IsWorldFor y w
        → (v : Valuation) × IsModel v (ordered y) × SaysSame y w (world_of y v) }
{}

/// In each model, the literals agree with the model's world.
pub fn literals_mean()
    ensures { (y : Layout) → IsOrder y.order → LiteralsMean y }
{}

/// Comparators and transitivity restrict no position, no load and no choice.
pub fn orders_extend()
    ensures over { (y : Layout) → IsOver (base y) }
    ensures extended { (y : Layout) → IsOrder y.order → IsExtended (base y) (ordered y) }
{}

/// The world depends only on the variables before any gate.
pub fn first_variables_say_the_world()
    ensures { (y : Layout) (v w : Valuation) → Agree (base y).vars v w → world_of y v ≡ world_of y w }
{}

/// A completed order keeps its pairs, with their numbers, and asks about each of the events and
/// every other event.
pub fn completed_orders_ask_all()
    ensures grows { (o : Order) (events : List ℕ) → Grows o (completed o events) }
    ensures asked { (o : Order) (events : List ℕ) (first second : ℕ) → Contains events first → second < o.events → first ≢ second
        → IsTrue (list_any (same_pair (pair_of first second)) (completed o events).pairs) }
{}
