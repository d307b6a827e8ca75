//! Instructions that are being written.
ghost use Rattle.std.specs.Prelude.{◌≡◌, ◌+◌, ◌<◌, ◌^◌, [], ◌∷◌, ◌++◌, length, OnOk, IfOk, slice_set};
ghost use Rattle.tc_code.specs.declared.instr.Instr.TheVariants as flat;

use std::alloc::{AllocError, Global};
use std::marker::Model;
use tc_code::{Instr, Instrs};

/// The instructions of a function so far.
#[derive(Drop)]
pub(crate) struct Draft {
    instrs: Vec<Instr>,
}

impl Model for Draft {
    ghost use Rattle.std.specs.Prelude.{List};
    ghost use Rattle.std.specs.Coded.{coded_list};
    ghost use Rattle.tc_code.specs.contracts.instr.Instr as instr;
    ghost use Rattle.tc_code.specs.declared.instr.Instr.{Instr};

    ghost Value = { List Instr };

    ghost coded = { coded_list instr.the_row.coded };

    ghost view = { λ d. d.instrs.items };
}

impl Draft {
    pub(crate) fn new(alloc: Global) -> Draft
        ensures { result ≡ [] }
    {
        Draft {
            instrs: Vec::new(alloc),
        }
    }

    /// How many instructions there are: the place of the next one.
    pub(crate) fn len(&self) -> usize
        ensures { result ≡ length self.now }
    {
        self.instrs.len()
    }

    pub(crate) fn push(&mut self, instr: Instr) -> Result<(), AllocError>
        ensures { OnOk result (self.new ≡ self.old ++ instr ∷ []) }
    {
        self.instrs.push(instr)?;
        Ok(())
    }

    /// Leaves room for a jump, and gives its place.
    pub(crate) fn leave_room(&mut self) -> Result<usize, AllocError>
        ensures room { OnOk result (self.new ≡ self.old ++ flat.Goto 0 ∷ []) }
        ensures place { IfOk result (λ place. place ≡ length self.old) }
    {
        let place = self.instrs.len();
        self.instrs.push(Instr::Goto { target: 0 })?;
        Ok(place)
    }

    /// Writes an instruction into the room that was left.
    #[tactic(auto, using(crate::proofs::Lists::rows))]
    pub(crate) fn put(&mut self, place: usize, instr: Instr)
        requires { place < length self.old }
        ensures { self.new ≡ slice_set self.old place instr }
    {
        self.instrs[place] = instr;
    }

    /// The instructions.
    pub(crate) fn finish(self) -> Instrs
        ensures { result ≡ self }
    {
        Instrs::new(self.instrs)
    }
}
