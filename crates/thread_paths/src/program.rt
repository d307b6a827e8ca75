//! The program of a search.

use slot_liveness::LiveSlots;
use tc_code::Code;

/// A program, with the slots that are live at each of its places.
#[derive(Clone, Copy, Debug)]
pub struct Program<'a> {
    pub code: &'a Code,
    pub live: &'a LiveSlots,
}
