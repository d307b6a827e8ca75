//! Rounds of a loop that change nothing, as far as the places of a thread's steps show it.
ghost use Rattle.std.specs.Prelude.{◌≡◌, ◌+◌, ◌-◌, ◌<◌, ◌≤◌, ◌^◌, false, length, option_map, slice_index_or, IfSome, OnSome, IsTrue};
ghost use Rattle.std.specs.Option.{option_map_or};
ghost use Rattle.tc_code.specs.Code.{instr_at};
ghost use Rattle.tc_code.specs.Expr.{Expr.Slot};
ghost use Rattle.tc_code.specs.Lawful.{written};
ghost use Rattle.tc_code.specs.declared.instr.Instr.TheVariants.{Set};
ghost use Rattle.slot_liveness.specs.Tables.{liveness};
ghost use Rattle.thread_paths.specs.Turns.{is_idle, instr_of, HasFailed};
ghost use Rattle.thread_paths.specs.helpers.Rounds.{IsShown, IsPure, ArePure, EndsTurn};

use crate::failed::rules_out;
use crate::program::Program;
use int_ops::Update;
use tc_code::{Instr, Node};

/// The places that a thread comes to in a function, in order. The step at the last one isn't taken
/// yet.
#[derive(Clone, Copy)]
struct Visits<'a> {
    program: Program<'a>,
    function: usize,
    places: &'a [usize],
}

/// Whether an instruction changes nothing that other threads can use, whatever it reads.
fn is_idle(instr: &Instr) -> bool
    ensures { result ≡ is_idle instr.now }
{
    matches!(
        instr,
        Instr::Set { .. }
            | Instr::Load { .. }
            | Instr::Inside { .. }
            | Instr::Branch { .. }
            | Instr::Goto { .. }
            | Instr::Holds { .. }
            | Instr::Ready { .. }
            | Instr::Assert(_)
            | Instr::Nonzero(_)
            | Instr::InRange(_)
            | Instr::Fence
    )
}

/// The slot that an instruction writes.
pub fn written(instr: &Instr) -> Option<usize>
    ensures { result ≡ written instr.now }
{
    match instr {
        Instr::Set { slot, .. } | Instr::Load { slot, .. } | Instr::Modify { slot, .. } => Some(
            *slot as usize,
        ),
        _ => None,
    }
}

impl<'a> Visits<'a> {
    /// The number of steps before the last place.
    fn last(&self) -> usize
        ensures { result ≡ length self.now.places.now - 1 }
    {
        self.places.len().saturating_sub(1)
    }

    /// The place of a step.
    fn place(&self, step: usize) -> usize
        ensures { result ≡ slice_index_or self.now.places.now step 0 }
    {
        self.places.get(step).copied().unwrap_or(0)
    }

    /// The instruction of a step.
    fn instr(&self, step: usize) -> Option<&'a Instr>
        ensures seen { option_map (λ i. i.now) result ≡ instr_at self.now.program.code.now self.now.function (slice_index_or self.now.places.now step 0) }
        ensures room { OnSome result (slice_index_or self.now.places.now step 0 + 1 < 2 ^ 64) }
    {
        self.program.code.instr(self.function, self.place(step))
    }

    /// Whether an instruction writes a slot that is live at the last place.
    fn writes_live(&self, instr: &Instr) -> bool
        ensures { result ≡ option_map_or (liveness self.now.program.live.now self.now.function
            (slice_index_or self.now.places.now (length self.now.places.now - 1) 0)) (written instr.now) false }
    {
        match written(instr) {
            Some(slot) => self
                .program
                .live
                .is_live(self.function, self.place(self.last()), slot),
            None => false,
        }
    }

    /// Whether a branch of some step from this one on shows that a slot doesn't have this value, before
    /// another step writes the slot.
    fn show_another(&self, from: usize, slot: usize, value: i32) -> bool
        ensures { IsTrue result → IsShown self.now.program.code.now self.now.function self.now.places.now from slot value }
    {
        for step in from..self.last() {
            let Some(instr) = self.instr(step) else {
                return false;
            };
            if rules_out(instr, self.place(step), self.place(step + 1), slot, value) {
                return true;
            }
            if written(instr) == Some(slot) {
                return false;
            }
        }
        false
    }

    /// The slot to which a step copies another one.
    fn copy_of(&self, step: usize, slot: u32) -> Option<usize>
        ensures { IfSome result (λ copy. instr_of self.now.program.code.now self.now.function self.now.places.now step ≡ Set copy (Slot slot)) }
    {
        match self.instr(step)? {
            Instr::Set { slot: copy, value } => match &value.node {
                Node::Slot(from) if *from == slot => Some(*copy as usize),
                _ => None,
            },
            _ => None,
        }
    }

    /// Whether a step is a compare-and-exchange, and a later one shows that it failed.
    fn has_failed(&self, step: usize) -> bool
        requires step { step < length self.now.places.now - 1 }
        ensures { IsTrue result → HasFailed self.now.program.code.now self.now.function self.now.places.now (length self.now.places.now - 1) step }
    {
        let Some(Instr::Modify { slot, update, .. }) = self.instr(step) else {
            return false;
        };
        let Update::Cas(expected, _) = update else {
            return false;
        };
        let Node::Number(value) = &expected.node else {
            return false;
        };
        match self.copy_of(step + 1, *slot) {
            Some(copy) => self.show_another(step + 2, copy, *value),
            None => false,
        }
    }

    /// Whether a step changes nothing that others can use, and writes no slot that is live at the last
    /// place.
    fn is_pure(&self, step: usize) -> bool
        requires { step < length self.now.places.now - 1 }
        ensures { IsTrue result → IsPure self.now.program.code.now self.now.function self.now.places.now (liveness self.now.program.live.now) step }
    {
        let Some(instr) = self.instr(step) else {
            return false;
        };
        (is_idle(instr) || self.has_failed(step)) && !self.writes_live(instr)
    }

    /// Whether all steps from this one on are pure.
    fn are_pure(&self, first: usize) -> bool
        ensures { IsTrue result → ArePure self.now.program.code.now self.now.function self.now.places.now (liveness self.now.program.live.now) first }
    {
        for step in first..self.last() {
            if !self.is_pure(step) {
                return false;
            }
        }
        true
    }

    /// The last step before the end that was at the last place.
    fn last_visit(&self) -> Option<usize>
        ensures { IfSome result (λ k. (k < length self.now.places.now - 1)
            × (slice_index_or self.now.places.now k 0 ≡ slice_index_or self.now.places.now (length self.now.places.now - 1) 0)) }
    {
        let last = self.last();
        for step in (0..last).rev() {
            if self.place(step) == self.place(last) {
                return Some(step);
            }
        }
        None
    }
}

/// Whether the last of these places ends a pure turn.
pub fn ends_turn(program: Program<'_>, function: usize, places: &[usize]) -> bool
    ensures { IsTrue result → EndsTurn program.entry.code.now function places.now (liveness program.entry.live.now) }
{
    let visits = Visits {
        program,
        function,
        places,
    };
    match visits.last_visit() {
        Some(first) => visits.are_pure(first),
        None => false,
    }
}
