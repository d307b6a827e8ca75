//! Formulas about an order of events: their conjuncts, their truth in a world, and the questions
//! that they ask about the order.
#![tactic(auto)]

mod formula;
mod group;
pub mod laws;
mod literal;
mod order;
mod read;
mod truth;
mod world;

pub use formula::{Body, Case, Cases, Conjunct, Formula};
pub use group::Group;
pub use literal::{Atom, Literal};
pub use order::{Choice, Order, Pair};
pub use read::{Candidate, Read};
pub use truth::holds;
pub use world::World;
