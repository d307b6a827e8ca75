//! The slots that are live at each place of a program: from there, some way reads the slot before
//! it writes it.
#![tactic(auto)]

mod check;
mod fill;
mod instrs;
mod live;
mod table;

pub use live::{LiveSlots, live_slots};
