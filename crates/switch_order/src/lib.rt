//! At most a given number of switches between threads, as clauses.
//!
//! Each event has a level, in unary: a variable for each number from 1 on, true if the level is at
//! least that. The level rises from an event to each later one of another thread. So each two
//! events of different threads have two clauses for each level. The order asks about every two
//! events.
#![tactic(auto)]

mod adding;

ghost use Rattle.std.specs.Prelude.{ℕ, List, Option};
ghost use Rattle.cnf_core.specs.Clauses.{Formula};
ghost use Rattle.bit_order.specs.Layouts.{Layout as PlainLayout};
ghost use Rattle.switch_order.specs.Laws.{IsReady, LevelsMean};

pub use adding::add_levels;

/// A model of a formula with levels up to a number is a model of the formula, and its world has at
/// most that many switches. Each such model extends to one with levels.
pub fn levels_mean()
    ensures { (y : PlainLayout) (threads : List ℕ) (failing : Option ℕ) (most : ℕ) (f : Formula) → IsReady y threads failing f
        → LevelsMean y threads failing most f }
{}
