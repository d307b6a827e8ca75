//! Which of two events comes first.
ghost use Rattle.std.specs.Prelude.{◌≡◌, ◌<◌, ◌≤◌, ◌*◌, [], length, map, fold, IfOk, OnOk};
ghost use Rattle.std.specs.List.{All};
ghost use Rattle.cnf_core.specs.Clauses.{var_of};
ghost use Rattle.bit_gates.specs.Folded.{HasRoom, IsLarger};
ghost use Rattle.bit_words.specs.Words.{AreWithin};
ghost use Rattle.order_formula.specs.Orders.{pair_of, with_pair};
ghost use Rattle.bit_order.specs.Comparators.{completed, compared_pair, others, with_comparator};
ghost use Rattle.bit_order.specs.helpers.Places.{PairIsWithin};

use crate::words::position_word;
use bit_gates::Circuit;
use bit_words::compare;
use cnf_core::Lit;
use order_formula::{Order, Pair};
use std::alloc::{AllocError, Global};

/// Makes the order ask about each of these events and every other event. Earlier pairs keep their
/// numbers.
///
/// Used for the events of loads and of conjuncts that aren't a single literal. If a single literal
/// has one event before another, transitivity then covers the two and each of these events. So unit
/// propagation follows a chain of such literals from one of these events to the next.
pub fn complete(order: &mut Order, events: &[u32]) -> Result<(), AllocError>
    requires few { order.old.events ≤ 256 }
    requires events { All (λ event. event < order.old.events) events.now }
    ensures { OnOk result (order.new ≡ completed order.old events.now) }
{
    for event in events {
        ask_others(order, *event)?;
    }
    Ok(())
}

/// Makes the order ask about an event and every other event.
fn ask_others(order: &mut Order, event: u32) -> Result<(), AllocError>
    requires few { order.old.events ≤ 256 }
    requires event { event < order.old.events }
    ensures asked { OnOk result (order.new
        ≡ fold with_pair order.old (map (pair_of event) (others order.old.events event))) }
    ensures events { OnOk result (order.new.events ≡ order.old.events) }
{
    for other in 0..order.events() {
        if other != event {
            ask_pair(order, event, other)?;
        }
    }
    Ok(())
}

/// Makes the order ask about two events. No pair is asked twice, so each has a number.
#[tactic(auto, using(crate::proofs::Counts::few_pairs))]
fn ask_pair(order: &mut Order, first: u32, second: u32) -> Result<(), AllocError>
    requires few { order.old.events ≤ 256 }
    requires first { first < order.old.events }
    requires second { second < order.old.events }
    ensures { OnOk result (order.new ≡ with_pair order.old (pair_of first second)) }
{
    let _asked = order.pairs();
    order.before(first, second)?;
    Ok(())
}

/// The literals of all pairs, in order.
pub(crate) fn compare_pairs(
    alloc: Global,
    circuit: &mut Circuit,
    pairs: &[Pair],
) -> Result<Vec<Lit>, AllocError>
    requires positions { All (PairIsWithin circuit.old.vars) pairs.now }
    requires room { HasRoom (96 * length pairs.now) circuit.old }
    ensures literals { IfOk result (λ v. v.items ≡ (fold with_comparator (record { state = circuit.old; word = [] }) pairs.now).word) }
    ensures formula { OnOk result (circuit.new ≡ (fold with_comparator (record { state = circuit.old; word = [] }) pairs.now).state) }
    ensures within { IfOk result (λ v. AreWithin circuit.new.vars v.items) }
    ensures larger { OnOk result (IsLarger (96 * length pairs.now) circuit.old circuit.new) }
{
    let mut literals = Vec::new(alloc);
    for pair in pairs {
        literals.push(compare_pair(circuit, *pair)?)?;
    }
    Ok(literals)
}

/// Whether the first event of a pair comes before the second; equal positions compare by number.
#[tactic(auto, using(crate::proofs::Compared::position_are_within, crate::proofs::WordLaws::length_word), unfolding(crate::specs::Comparators::compared_pair))]
fn compare_pair(circuit: &mut Circuit, pair: Pair) -> Result<Lit, AllocError>
    requires positions { PairIsWithin circuit.old.vars pair }
    requires room { HasRoom 96 circuit.old }
    ensures literal { IfOk result (λ l. l ≡ (compared_pair circuit.old pair).literal) }
    ensures formula { OnOk result (circuit.new ≡ (compared_pair circuit.old pair).formula) }
    ensures within { IfOk result (λ l. var_of l ≤ circuit.new.vars) }
    ensures larger { OnOk result (IsLarger 96 circuit.old circuit.new) }
{
    let first = position_word(pair.lesser);
    let second = position_word(pair.greater);
    let low = circuit.constant(pair.lesser < pair.greater);
    compare(circuit, low, &first, &second)
}
