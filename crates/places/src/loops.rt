//! Which loops are around an instruction.
ghost use Rattle.std.specs.Prelude.{◌≡◌, ◌<◌, ◌-◌, ◌^◌, IfOk, IfSome};
ghost use Rattle.tc_code.specs.declared.instr.Instr.{Instr};
ghost use Rattle.tc_code.specs.Lawful.{target};
ghost use Rattle.places.specs.Places.{jumps_to};
ghost use Rattle.places.specs.helpers.Jumps.{Tells, AreLastJumps, is_around_by, around_by};

use std::alloc::{AllocError, Global};
use std::marker::Model;
use tc_code::Instr;

/// The instruction to which an instruction may jump, if there is one.
pub(crate) fn target(instr: &Instr) -> Option<usize>
    ensures seen { result ≡ target instr.now }
    ensures room { IfSome result (λ to. to < 2 ^ 64 - 1) }
{
    match instr {
        Instr::Branch { target, .. } | Instr::Goto { target } => Some(*target as usize),
        _ => None,
    }
}

/// Whether an instruction may jump to the one with the number `first`.
fn jumps_to(instr: &Instr, first: usize) -> bool
    ensures { result ≡ jumps_to first instr.now }
{
    target(instr) == Some(first)
}

/// The last instruction that may jump to `first`, if there is one.
fn last_jump(instrs: &[Instr], first: usize) -> Option<usize>
    ensures { Tells instrs.now first result }
{
    let mut last = None;
    for (number, instr) in instrs.iter().enumerate() {
        if jumps_to(instr, first) {
            last = Some(number);
        }
    }
    last
}

/// For each instruction of a function, the last one that may jump to it.
#[derive(Drop)]
pub(crate) struct Loops {
    lasts: Vec<Option<usize>>,
}

impl Model for Loops {
    ghost use Rattle.std.specs.Prelude.{ℕ, List, Option};

    ghost Value = { List (Option ℕ) };

    ghost view = { λ l. l.lasts.items };
}

/// The loops of a function.
pub(crate) fn loops_of(alloc: Global, instrs: &[Instr]) -> Result<Loops, AllocError>
    ensures { IfOk result (λ l. AreLastJumps instrs.now l) }
{
    let mut lasts = Vec::new(alloc);
    for first in 0..instrs.len() {
        lasts.push(last_jump(instrs, first))?;
    }
    Ok(Loops { lasts })
}

impl Loops {
    /// Whether the loop at `first` is around an instruction.
    fn is_around(&self, at: usize, first: usize) -> bool
        ensures { result ≡ is_around_by self.now at first }
    {
        match self.lasts.get(first) {
            Some(Some(last)) => at <= *last,
            _ => false,
        }
    }

    /// Where the loops around an instruction begin, outermost first.
    pub(crate) fn around(&self, alloc: Global, at: usize) -> Result<Vec<usize>, AllocError>
        requires { at < 2 ^ 64 - 1 }
        ensures { IfOk result (λ r. r.items ≡ around_by self.now at) }
    {
        let mut firsts = Vec::new(alloc);
        for first in 0..at + 1 {
            if self.is_around(at, first) {
                firsts.push(first)?;
            }
        }
        Ok(firsts)
    }
}
