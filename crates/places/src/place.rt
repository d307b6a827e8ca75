//! Places.
ghost use Rattle.std.specs.Prelude.{◌≡◌, ◌<◌, ◌-◌, ◌^◌, ℕ, IfOk, slice_index_or};
ghost use Rattle.places.specs.Places.{key, round_in, round_after, is_cut};
ghost use Rattle.places.specs.helpers.Jumps.{place_by};

use crate::loops::Loops;
use std::alloc::{AllocError, Global};
use std::marker::Model;

/// A round of a loop, which is known by its first instruction.
#[derive(Clone, Copy, Debug, PartialEq, Eq)]
pub struct Round {
    /// The loop's first instruction.
    pub first: usize,
    /// How often the thread has gone back to it since it came to the loop.
    pub number: usize,
}

/// A place: an instruction, and a round for each loop around it, outermost first.
#[derive(Drop)]
pub struct Place {
    instruction: usize,
    rounds: Vec<Round>,
}

impl Model for Place {
    ghost use Rattle.places.specs.Places as spec;

    ghost Value = { spec.Place };

    ghost view = { λ p. record { instruction = p.instruction; rounds = p.rounds.items } };
}

impl Place {
    /// Its instruction, by its number in the function.
    pub fn instruction(&self) -> usize
        ensures { result ≡ self.now.instruction }
    {
        self.instruction
    }

    /// The rounds of the loops around it, outermost first.
    pub fn rounds(&self) -> &[Round]
        ensures { result.now ≡ self.now.rounds }
    {
        &self.rounds
    }

    /// The numbers by which it is compared with other places of its function.
    pub(crate) fn key(&self, alloc: Global) -> Result<Vec<usize>, AllocError>
        ensures { IfOk result (λ k. k.items ≡ key self.now) }
    {
        let mut key = Vec::new(alloc);
        for round in &self.rounds {
            key.push(round.first)?;
            key.push(round.number)?;
        }
        key.push(self.instruction)?;
        Ok(key)
    }

    /// The first place of a function.
    pub(crate) fn first(alloc: Global, loops: &Loops) -> Result<Place, AllocError>
        ensures { IfOk result (λ p. p ≡ place_by loops.now 0 (λ a. 0)) }
    {
        let mut rounds = Vec::new(alloc);
        let firsts = loops.around(alloc, 0)?;
        for first in &firsts {
            rounds.push(Round {
                first: *first,
                number: 0,
            })?;
        }
        Ok(Place {
            instruction: 0,
            rounds,
        })
    }

    /// The number of the round of a loop; 0 outside it.
    fn round_in(&self, first: usize) -> usize
        ensures { result ≡ round_in self.now first }
    {
        for round in &self.rounds {
            if round.first == first {
                return round.number;
            }
        }
        0
    }

    /// Its number after a step to an instruction.
    fn round_after(&self, to: usize, first: usize) -> usize
        requires { round_in self.now first < 2 ^ 64 - 1 }
        ensures { result ≡ round_after self.now to first }
    {
        let number = self.round_in(first);
        if to == first && to <= self.instruction {
            number + 1
        } else {
            number
        }
    }

    /// The place after a step to an instruction.
    pub(crate) fn after(&self, alloc: Global, loops: &Loops, to: usize) -> Result<Place, AllocError>
        requires room { to < 2 ^ 64 - 1 }
        requires rounds { (first : ℕ) → round_in self.now first < 2 ^ 64 - 1 }
        ensures { IfOk result (λ p. p ≡ place_by loops.now to (round_after self.now to)) }
    {
        let mut rounds = Vec::new(alloc);
        let firsts = loops.around(alloc, to)?;
        for first in &firsts {
            rounds.push(Round {
                first: *first,
                number: self.round_after(to, *first),
            })?;
        }
        Ok(Place {
            instruction: to,
            rounds,
        })
    }

    /// Whether the place is past a cut.
    pub(crate) fn is_cut(&self, limits: &[u32]) -> bool
        ensures { result ≡ is_cut limits.now self.now }
    {
        self.rounds
            .iter()
            .any(|round| limit_of(limits, round.first) < round.number)
    }
}

/// How often a thread may go round a loop.
fn limit_of(limits: &[u32], first: usize) -> usize
    ensures { result ≡ slice_index_or limits.now first 0 }
{
    match limits.get(first) {
        Some(limit) => *limit as usize,
        None => 0,
    }
}
