//! How a valuation is read as a world.
ghost use Rattle.std.specs.Prelude.{◌≡◌, ◌<◌, ◌≤◌, ◌+◌, ◌^◌, length, map, IfOk};
ghost use Rattle.std.specs.List.{range_with_len};
ghost use Rattle.cnf_core.specs.Clauses.{value_in};
ghost use Rattle.cnf_core.specs.declared.cnf.TheConstants.{LIMIT};
ghost use Rattle.bit_words.specs.Laws.{value};
ghost use Rattle.bit_arith.specs.Laws.{int_value};
ghost use Rattle.bit_order.specs.Layouts.{base, word_from, position_word, load_word};
ghost use Rattle.bit_order.specs.Comparators.{size_of};
ghost use Rattle.bit_order.specs.Readings.{bits_in, ender_in, world_of};

use crate::Layout;
use bit_ranks::ranks;
use cnf_core::Assignment;
use order_formula::World;
use std::alloc::{AllocError, Global};

/// The number of the word that begins at a variable.
fn number(assignment: &Assignment, first: u32, width: u32) -> u32
    requires positive { 0 < first }
    requires narrow { width ≤ 32 }
    requires there { first + width ≤ length assignment.now + 1 }
    requires small { first + width < 2 ^ 31 }
    ensures number { result ≡ value (value_in assignment.now) (word_from first width) }
    ensures below { result < 2 ^ width }
{
    let mut number = 0;
    for place in 0..width {
        number = 2 * number + u32::from(assignment.get(first + place));
    }
    number
}

impl Layout {
    /// The world of an assignment, which may have more variables than the order if other circuits
    /// were added.
    pub fn read_world(&self, alloc: Global, assignment: &Assignment) -> Result<World, AllocError>
        requires few { self.now.order.events ≤ 256 }
        requires values { (base self.now).vars ≤ length assignment.now }
        ensures { IfOk result (λ world. world ≡ world_of self.now (value_in assignment.now)) }
    {
        let bits = self.read_bits(alloc, assignment)?;
        let loads = self.read_loads(alloc, assignment)?;
        let enders = self.read_enders(alloc, assignment)?;
        Ok(World::new(ranks(alloc, &bits)?, loads, enders))
    }

    /// The bits of all positions.
    fn read_bits(&self, alloc: Global, assignment: &Assignment) -> Result<Vec<u8>, AllocError>
        requires { (base self.now).vars ≤ length assignment.now }
        ensures { IfOk result (λ v. v.items ≡ bits_in self.now (value_in assignment.now)) }
    {
        (0..self.order().events())
            .map(|event| self.read_position(assignment, event))
            .collect(alloc)
    }

    /// The bits of an event's position.
    fn read_position(&self, assignment: &Assignment, event: u32) -> u8
        requires event { event < self.now.order.events }
        requires small { size_of self.now < LIMIT }
        requires values { (base self.now).vars ≤ length assignment.now }
        ensures { result ≡ value (value_in assignment.now) (position_word event) }
    {
        number(assignment, 2 + 8 * event, 8) as u8
    }

    /// The values of all loads.
    fn read_loads(&self, alloc: Global, assignment: &Assignment) -> Result<Vec<i32>, AllocError>
        requires { (base self.now).vars ≤ length assignment.now }
        ensures { IfOk result
            (λ v. v.items ≡ map (λ load. int_value (value_in assignment.now) (load_word self.now load)) (range_with_len 0 self.now.loads)) }
    {
        (0..self.loads())
            .map(|load| self.read_load(assignment, load))
            .collect(alloc)
    }

    /// The value of a load.
    fn read_load(&self, assignment: &Assignment, load: u32) -> i32
        requires load { load < self.now.loads }
        requires values { (base self.now).vars ≤ length assignment.now }
        ensures { result ≡ int_value (value_in assignment.now) (load_word self.now load) }
    {
        number(assignment, self.load_start(load), 32).cast_signed()
    }

    /// What ends each sleep.
    fn read_enders(
        &self,
        alloc: Global,
        assignment: &Assignment,
    ) -> Result<Vec<Option<u32>>, AllocError>
        requires { (base self.now).vars ≤ length assignment.now }
        ensures { IfOk result (λ v. v.items ≡ map (ender_in self.now (value_in assignment.now)) (range_with_len 0 self.now.order.sleeps)) }
    {
        (0..self.order().sleeps())
            .map(|sleep| self.read_ender(assignment, sleep))
            .collect(alloc)
    }

    /// What ends a sleep: the event of the first choice that is made for it.
    fn read_ender(&self, assignment: &Assignment, sleep: u32) -> Option<u32>
        requires { (base self.now).vars ≤ length assignment.now }
        ensures { result ≡ ender_in self.now (value_in assignment.now) sleep }
    {
        let choices = self.order().choices();
        for number in 0..choices.len() {
            if choices[number].sleep == sleep && assignment.is_true(self.choice(number)) {
                return Some(choices[number].by);
            }
        }
        None
    }
}
