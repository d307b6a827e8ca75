//! Adding the states of mutexes to the clauses of a log.
ghost use Rattle.std.specs.Prelude.{◌≡◌, ◌≤◌, ◌<◌, ◌+◌, ◌*◌, suc, length, IfOk, OnOk};
ghost use Rattle.std.specs.List.{All};
ghost use Rattle.cnf_core.specs.Clauses.{Formula, var_of};
ghost use Rattle.bit_gates.specs.Folded.{HasRoom, IsLarger};
ghost use Rattle.bit_words.specs.Words.{AreWithin};
ghost use Rattle.bit_blast.specs.Drafts.{DraftIsWithin};
ghost use Rattle.mutex_states.specs.Sizes.{last_size, most_size, ranks_size};
ghost use Rattle.read_write.specs.Accesses.{all_accesses};
ghost use Rattle.mutex_clauses.specs.helpers.Counted.{counted};
ghost use Rattle.mutex_clauses.specs.helpers.Logs.{AreAll, AreSteps, IsLog, IsNext, IsOf, draft_of, last_in, order_size_in, ordered_in, ranked_in, regions_in, size_in, spots_in, start_in, steps_in, symbolic_in, turned_in, turns_size_in, with_own};

use crate::in_order::{in_order, used_of};
use crate::last_loads::{LastState, add_last_loads};
use crate::literals::Literals;
use crate::mutex::{Mutex, Steps};
use crate::shapes::termed_steps;
use crate::sizes::{Counts, count_conjuncts};
use crate::steps::{Step, steps_of};
use crate::turns::{Turns, add_turns};
use bit_gates::Circuit;
use bit_ops::Word;
use cnf_core::Lit;
use mutex_regions::{regions_of, spots_of, variables_of};
use mutex_states::{Begins, Ranks, add_ranks};
use order_events::Placed;
use path_execution::Execution;
use std::alloc::{AllocError, Global};
use std::mem::drop;
use sym_exec::Access;
use tc_code::Code;
use tc_limits::limits::MUTEXES;

/// The greatest number of variables and of clauses of all states.
const MOST_SIZE: usize = 20_000_000;

/// A log, with the literals and words of a draft of its clauses.
#[derive(Clone, Copy)]
pub(crate) struct Log<'a> {
    /// The code.
    pub(crate) code: &'a Code,
    /// The paths and their execution.
    pub(crate) execution: &'a Execution,
    /// The literals and words of the draft.
    pub(crate) literals: Literals<'a>,
    /// All accesses.
    pub(crate) accesses: &'a [Placed<Access>],
    /// The word of each load's value.
    pub(crate) loads: &'a [Word],
}

impl Log<'_> {
    /// Adds the states of all mutexes; a mutex whose states have no room is left out.
    pub(crate) fn add_all(&self, alloc: Global, circuit: &mut Circuit) -> Result<(), AllocError>
        requires log { IsLog self.now }
        requires within { DraftIsWithin (draft_of self.now circuit.old) }
        requires room { HasRoom most_size circuit.old }
        ensures { OnOk result (AreAll self.now circuit.old circuit.new) }
    {
        let mut room = MOST_SIZE;
        for number in 0..MUTEXES as u32 {
            room = self.add_next(alloc, circuit, number, room)?;
        }
        Ok(())
    }

    /// Adds the states of a mutex, if they have room. Returns how much room is left.
    fn add_next(
        &self,
        alloc: Global,
        circuit: &mut Circuit,
        number: u32,
        room: usize,
    ) -> Result<usize, AllocError>
        requires log { IsLog self.now }
        requires within { DraftIsWithin (draft_of self.now circuit.old) }
        requires most { room ≤ most_size }
        requires room { HasRoom room circuit.old }
        ensures { IfOk result (λ left. IsNext self.now number circuit.old room circuit.new left) }
    {
        let mutex = self.mutex(alloc, number)?;
        let left = self.add_mutex(alloc, circuit, &mutex, room);
        drop(mutex);
        left
    }

    /// A mutex of the log.
    fn mutex(&self, alloc: Global, number: u32) -> Result<Mutex, AllocError>
        requires { IsLog self.now }
        ensures is { IfOk result (λ mutex. IsOf self.now mutex) }
        ensures number { IfOk result (λ mutex. mutex.number ≡ number) }
    {
        let regions = regions_of(alloc, &self.execution.paths, number)?;
        let variables = variables_of(alloc, regions.as_slice(), self.accesses)?;
        let spots = spots_of(alloc, variables.as_slice())?;
        Ok(Mutex {
            number,
            regions,
            variables,
            spots,
        })
    }

    /// Adds the states of a mutex, if it has several regions and some variable, and they have room.
    fn add_mutex(
        &self,
        alloc: Global,
        circuit: &mut Circuit,
        mutex: &Mutex,
        room: usize,
    ) -> Result<usize, AllocError>
        requires log { IsLog self.now }
        requires mutex { IsOf self.now mutex.now }
        requires within { DraftIsWithin (draft_of self.now circuit.old) }
        requires most { room ≤ most_size }
        requires room { HasRoom room circuit.old }
        ensures { IfOk result (λ left. IsNext self.now mutex.now.number circuit.old room circuit.new left) }
    {
        if mutex.regions.len() < 2 || mutex.spots.is_empty() {
            return Ok(room);
        }
        let steps = self.steps(alloc, mutex)?;
        let left = self.add_steps(alloc, circuit, mutex, steps.as_slice(), room);
        drop(steps);
        left
    }

    /// The regions of a mutex as steps.
    fn steps(&self, alloc: Global, mutex: &Mutex) -> Result<Vec<Step>, AllocError>
        requires log { IsLog self.now }
        requires mutex { IsOf self.now mutex.now }
        ensures { IfOk result (λ all. all.items ≡ steps_in self.now mutex.now.number) }
    {
        let symbolic = &self.execution.symbolic;
        let terms = &self.execution.terms;
        let conjuncts = self.literals.conjuncts.len();
        let regions = mutex.regions.as_slice();
        let variables = mutex.variables.as_slice();
        let steps = steps_of(
            alloc,
            symbolic,
            terms,
            conjuncts,
            variables,
            self.accesses,
            regions,
        )?;
        Ok(steps)
    }

    /// Adds the states of a mutex with these steps, if they have room.
    fn add_steps(
        &self,
        alloc: Global,
        circuit: &mut Circuit,
        mutex: &Mutex,
        all: &[Step],
        room: usize,
    ) -> Result<usize, AllocError>
        requires log { IsLog self.now }
        requires mutex { IsOf self.now mutex.now }
        requires steps { all.now ≡ steps_in self.now mutex.now.number }
        requires several { 2 ≤ length all.now }
        requires some { 1 ≤ length mutex.now.spots.items }
        requires within { DraftIsWithin (draft_of self.now circuit.old) }
        requires most { room ≤ most_size }
        requires room { HasRoom room circuit.old }
        ensures { IfOk result (λ left. IsNext self.now mutex.now.number circuit.old room circuit.new left) }
    {
        let termed = termed_steps(alloc, mutex.spots.len() as u32, all)?;
        let steps = Steps {
            mutex,
            all,
            termed: &termed,
        };
        let left = self.add_fitting(alloc, circuit, &steps, room);
        drop(termed);
        left
    }

    /// Adds the states of a mutex, if they have room.
    fn add_fitting(
        &self,
        alloc: Global,
        circuit: &mut Circuit,
        steps: &Steps<'_>,
        room: usize,
    ) -> Result<usize, AllocError>
        requires log { IsLog self.now }
        requires steps { AreSteps self.now steps.now }
        requires several { 2 ≤ length steps.now.all.now }
        requires some { 1 ≤ length steps.now.mutex.now.spots.items }
        requires within { DraftIsWithin (draft_of self.now circuit.old) }
        requires most { room ≤ most_size }
        requires room { HasRoom room circuit.old }
        ensures { IfOk result (λ left. IsNext self.now steps.now.mutex.now.number circuit.old room circuit.new left) }
    {
        let size = self.size(alloc, steps)?;
        if size > room {
            return Ok(room);
        }
        self.add_states(alloc, circuit, steps)?;
        Ok(room - size)
    }

    /// How large the states of a mutex are at most, as far as that can be counted.
    fn size(&self, alloc: Global, steps: &Steps<'_>) -> Result<usize, AllocError>
        requires log { IsLog self.now }
        requires steps { AreSteps self.now steps.now }
        ensures { IfOk result (λ size. size ≡ counted (size_in self.now steps.now.mutex.now.number)) }
    {
        let mutex = steps.mutex;
        let regions = mutex.regions.as_slice();
        let used = used_of(alloc, regions, mutex.variables.as_slice(), self.accesses)?;
        let counts = Counts {
            cells: mutex.spots.len(),
            conjuncts: count_conjuncts(self.literals.conjuncts, mutex.number),
            used: used.len(),
            accesses: self.accesses.len(),
        };
        Ok(counts.states_size(steps.all, steps.termed))
    }

    /// Adds the states of a mutex.
    fn add_states(
        &self,
        alloc: Global,
        circuit: &mut Circuit,
        steps: &Steps<'_>,
    ) -> Result<(), AllocError>
        requires log { IsLog self.now }
        requires steps { AreSteps self.now steps.now }
        requires few { size_in self.now steps.now.mutex.now.number ≤ most_size }
        requires within { DraftIsWithin (draft_of self.now circuit.old) }
        requires room { HasRoom (size_in self.now steps.now.mutex.now.number) circuit.old }
        ensures { OnOk result (draft_of self.now circuit.new ≡ with_own self.now steps.now.mutex.now.number circuit.old) }
    {
        let ordered = self.order(alloc, circuit, steps.mutex)?;
        let ranks = self.add_ranks(alloc, circuit, steps.mutex)?;
        let words = self.add_turns(alloc, circuit, steps, &ranks, ordered)?;
        self.add_last(alloc, circuit, steps.mutex, ordered, words.as_slice())
    }

    /// The literal that all is in order in the regions of a mutex.
    fn order(&self, alloc: Global, circuit: &mut Circuit, mutex: &Mutex) -> Result<Lit, AllocError>
        requires log { IsLog self.now }
        requires mutex { IsOf self.now mutex.now }
        requires within { DraftIsWithin (draft_of self.now circuit.old) }
        requires room { HasRoom (order_size_in self.now mutex.now.number) circuit.old }
        ensures literal { IfOk result (λ l. l ≡ (ordered_in self.now mutex.now.number circuit.old).literal) }
        ensures circuit { OnOk result (circuit.new ≡ (ordered_in self.now mutex.now.number circuit.old).formula) }
        ensures within { IfOk result (λ l. var_of l ≤ circuit.new.vars) }
        ensures larger { OnOk result (IsLarger (order_size_in self.now mutex.now.number) circuit.old circuit.new) }
    {
        let regions = mutex.regions.as_slice();
        let variables = mutex.variables.as_slice();
        in_order(
            alloc,
            circuit,
            &self.literals,
            mutex.number,
            regions,
            variables,
            self.accesses,
        )
    }

    /// Adds the ranks of the regions of a mutex.
    fn add_ranks(
        &self,
        alloc: Global,
        circuit: &mut Circuit,
        mutex: &Mutex,
    ) -> Result<Ranks, AllocError>
        requires log { IsLog self.now }
        requires mutex { IsOf self.now mutex.now }
        requires few { length (regions_in self.now mutex.now.number) ≤ 256 }
        requires within { DraftIsWithin (draft_of self.now circuit.old) }
        requires room { HasRoom (ranks_size (length (regions_in self.now mutex.now.number))) circuit.old }
        ensures ranks { IfOk result (λ ranks. ranks
            ≡ record { count = length (regions_in self.now mutex.now.number); start = suc circuit.old.vars }) }
        ensures circuit { OnOk result (circuit.new ≡ ranked_in self.now mutex.now.number circuit.old) }
        ensures larger { OnOk result (IsLarger (ranks_size (length (regions_in self.now mutex.now.number))) circuit.old circuit.new) }
    {
        let events = mutex.begins(alloc, self.literals.events)?;
        let begins = Begins {
            layout: self.literals.layout,
            events: events.as_slice(),
        };
        add_ranks(alloc, circuit, &begins)
    }

    /// Adds the states after the ranks. Returns the words of the last state.
    fn add_turns(
        &self,
        alloc: Global,
        circuit: &mut Circuit,
        steps: &Steps<'_>,
        ranks: &Ranks,
        ordered: Lit,
    ) -> Result<Vec<Word>, AllocError>
        requires log { IsLog self.now }
        requires steps { AreSteps self.now steps.now }
        requires ordered { var_of ordered ≤ circuit.old.vars }
        requires within { DraftIsWithin (draft_of self.now circuit.old) }
        requires count { ranks.now.count ≡ length (regions_in self.now steps.now.mutex.now.number) }
        requires there { ranks.now.start + ranks.now.count * ranks.now.count ≤ suc circuit.old.vars }
        requires room { HasRoom (turns_size_in self.now steps.now.mutex.now.number) circuit.old }
        ensures words { IfOk result (λ words. words.items ≡ (turned_in self.now steps.now.mutex.now.number ordered ranks.now.start
            (record { formula = circuit.old; words = start_in self.now steps.now.mutex.now.number })).words) }
        ensures formula { OnOk result (circuit.new ≡ (turned_in self.now steps.now.mutex.now.number ordered ranks.now.start
            (record { formula = circuit.old; words = start_in self.now steps.now.mutex.now.number })).formula) }
        ensures count { IfOk result (λ words. length words.items ≡ length (spots_in self.now steps.now.mutex.now.number)) }
        ensures within { IfOk result (λ words. All (AreWithin circuit.new.vars) words.items) }
        ensures larger { OnOk result (IsLarger (turns_size_in self.now steps.now.mutex.now.number) circuit.old circuit.new) }
    {
        let _one = circuit.vars();
        let first = steps.mutex.start_words(alloc, self.code)?;
        let turns = Turns {
            termed: steps.termed,
            ranks,
            ordered,
            loads: self.loads,
            roots: self.literals.roots,
        };
        let words = add_turns(alloc, circuit, &turns, first)?;
        Ok(words)
    }

    /// Adds clauses: the loads after all regions take the last state.
    fn add_last(
        &self,
        alloc: Global,
        circuit: &mut Circuit,
        mutex: &Mutex,
        ordered: Lit,
        words: &[Word],
    ) -> Result<(), AllocError>
        requires log { IsLog self.now }
        requires mutex { IsOf self.now mutex.now }
        requires ordered { var_of ordered ≤ circuit.old.vars }
        requires words { All (AreWithin circuit.old.vars) words.now }
        requires count { length words.now ≡ length (spots_in self.now mutex.now.number) }
        requires within { DraftIsWithin (draft_of self.now circuit.old) }
        requires room { HasRoom (last_size (length (regions_in self.now mutex.now.number))
            (length (spots_in self.now mutex.now.number)) (length (all_accesses (symbolic_in self.now)))) circuit.old }
        ensures { OnOk result ((base : Formula) → circuit.new ≡ last_in self.now mutex.now.number base ordered words.now circuit.old) }
    {
        let last = LastState {
            literals: self.literals,
            terms: &self.execution.terms,
            ordered,
            regions: mutex.regions.as_slice(),
            spots: mutex.spots.as_slice(),
            words,
        };
        add_last_loads(alloc, circuit, &last, self.accesses)
    }
}
