//! The states of the cells of all mutexes, added to the clauses of a log.
#![tactic(auto)]

mod in_order;
mod last_loads;
mod literals;
mod log;
mod mutex;
mod shapes;
mod sizes;
mod states;
mod steps;
mod turns;

pub use states::add_states;
