//! Shifts of words of literals: by one place, or by the number in another word (a barrel shifter).
#![tactic(auto)]

ghost use Rattle.std.specs.Prelude.{◌≡◌, ◌≤◌, ◌*◌, IfOk, OnOk, length};
ghost use Rattle.std.specs.Fn.{iterate};
ghost use Rattle.cnf_core.specs.Clauses.{var_of};
ghost use Rattle.bit_gates.specs.Folded.{HasRoom, IsLarger};
ghost use Rattle.bit_words.specs.Words.{AreWithin};
ghost use Rattle.bit_shift.specs.Laws.{ShiftsMean};
ghost use Rattle.bit_shift.specs.Shifts.{shifted_in, shifted_out, moved, stage, shifted};

use bit_gates::Circuit;
use bit_words::choose_words;
use cnf_core::Lit;
use std::alloc::AllocError;

/// The direction of a shift.
#[derive(Clone, Copy, Debug, PartialEq, Eq)]
pub enum Direction {
    /// To the higher places, as `<<` shifts.
    Up,
    /// To the lower places, as `>>` shifts.
    Down,
}

/// Shifting up multiplies and shifting down divides by a power of 2; at 32 bits, as for `int`.
pub fn shifts_mean()
    ensures { ShiftsMean }
{}

/// Shifts up by one place: the bit comes in at the bottom, and the highest is dropped.
pub fn shift_in(word: &mut [Lit], bit: Lit)
    ensures { word.new ≡ shifted_in bit word.old }
{
    let mut next = bit;
    for place in 0..word.len() {
        let here = word[place];
        word[place] = next;
        next = here;
    }
}

/// Shifts down by one place: the bit comes in at the top, and the lowest is dropped.
pub fn shift_out(word: &mut [Lit], bit: Lit)
    ensures { word.new ≡ shifted_out bit word.old }
{
    if !word.is_empty() {
        word.rotate_left(1);
        word[word.len() - 1] = bit;
    }
}

/// Shifts by one place, with the bit coming in.
fn move_place(word: &mut [Lit], to: Direction, bit: Lit)
    ensures { word.new ≡ moved to bit word.old }
{
    match to {
        Direction::Up => shift_in(word, bit),
        Direction::Down => shift_out(word, bit),
    }
}

/// Shifts by `by` places, with the bit coming in each time.
fn move_places(word: &mut [Lit], to: Direction, bit: Lit, by: usize)
    ensures { word.new ≡ iterate (moved to bit) by word.old }
{
    for _ in 0..by {
        move_place(word, to, bit);
    }
}

/// One stage of a barrel shifter: shifts by a fixed distance if the condition is true.
fn shift_stage<const W: usize>(
    circuit: &mut Circuit,
    word: &mut [Lit; W],
    to: Direction,
    bit: Lit,
    by: usize,
    condition: Lit,
) -> Result<(), AllocError>
    requires word { AreWithin circuit.old.vars word.old }
    requires bit { var_of bit ≤ circuit.old.vars }
    requires condition { var_of condition ≤ circuit.old.vars }
    requires room { HasRoom (9 * W) circuit.old }
    ensures word { OnOk result (word.new ≡ (stage to bit by condition circuit.old word.old).word) }
    ensures formula { OnOk result (circuit.new ≡ (stage to bit by condition circuit.old word.old).state) }
    ensures within { OnOk result (AreWithin circuit.new.vars word.new) }
    ensures larger { OnOk result (IsLarger (9 * W) circuit.old circuit.new) }
{
    let mut moved = *word;
    move_places(&mut moved, to, bit, by);
    choose_words(circuit, condition, &mut moved, word)?;
    *word = moved;
    Ok(())
}

/// Shifts by the distance, a word of up to 16 literals, with the bit coming in at each place.
pub fn shift<const W: usize>(
    circuit: &mut Circuit,
    to: Direction,
    bit: Lit,
    a: &[Lit; W],
    distance: &[Lit],
) -> Result<[Lit; W], AllocError>
    requires bit { var_of bit ≤ circuit.old.vars }
    requires first { AreWithin circuit.old.vars a.now }
    requires second { AreWithin circuit.old.vars distance.now }
    requires short { length distance.now ≤ 16 }
    requires room { HasRoom (9 * (W * length distance.now)) circuit.old }
    ensures word { IfOk result (λ out. out ≡ (shifted to bit 1 circuit.old a.now distance.now).word) }
    ensures formula { OnOk result (circuit.new ≡ (shifted to bit 1 circuit.old a.now distance.now).state) }
    ensures within { IfOk result (λ out. AreWithin circuit.new.vars out) }
    ensures larger { OnOk result (IsLarger (9 * (W * length distance.now)) circuit.old circuit.new) }
{
    let mut word = *a;
    let mut by = 1;
    for place in 0..distance.len() {
        shift_stage(circuit, &mut word, to, bit, by, distance[place])?;
        by += by;
    }
    Ok(word)
}
