//! The clauses about choices.
ghost use Rattle.std.specs.Prelude.{◌≡◌, ◌<◌, ◌≤◌, ◌+◌, ◌*◌, ◌++◌, length, OnOk};
ghost use Rattle.std.specs.List.{flat_map, range_with_len};
ghost use Rattle.cnf_core.specs.declared.cnf.TheConstants.{LIMIT};
ghost use Rattle.order_formula.specs.Orders.{IsOrder};
ghost use Rattle.bit_order.specs.Layouts.{exclusion, exclusions};

use bit_gates::Circuit;
use cnf_core::Lit;
use order_formula::{Choice, Order};
use std::alloc::AllocError;

/// Adds clauses by which every two choices of a sleep exclude each other. No event is asked about
/// twice for a sleep, so a choice excludes at most one other for each event. `start` is the first
/// variable.
pub(crate) fn exclude(circuit: &mut Circuit, start: u32, order: &Order) -> Result<(), AllocError>
    requires lawful { IsOrder order.now }
    requires positive { 0 < start }
    requires variables { start + length order.now.choices ≤ circuit.old.vars + 1 }
    requires small { circuit.old.vars < LIMIT }
    requires room { length circuit.old.clauses + length order.now.choices * order.now.events < LIMIT }
    ensures vars { circuit.new.vars ≡ circuit.old.vars }
    ensures clauses { OnOk result (circuit.new.clauses ≡ circuit.old.clauses ++ exclusions start order.now.choices) }
    ensures few { OnOk result (length circuit.new.clauses ≤ length circuit.old.clauses + length order.now.choices * order.now.events) }
{
    let choices = order.choices();
    for later in 0..choices.len() {
        exclude_earlier(circuit, start, choices, later)?;
    }
    Ok(())
}

/// Adds clauses by which a choice excludes each earlier one of its sleep.
fn exclude_earlier(
    circuit: &mut Circuit,
    start: u32,
    choices: &[Choice],
    later: usize,
) -> Result<(), AllocError>
    requires positive { 0 < start }
    requires there { later < length choices.now }
    requires variables { start + length choices.now ≤ circuit.old.vars + 1 }
    requires small { circuit.old.vars < LIMIT }
    requires room { length circuit.old.clauses
        + length (flat_map (λ earlier. exclusion start choices.now earlier later) (range_with_len 0 later)) < LIMIT }
    ensures vars { circuit.new.vars ≡ circuit.old.vars }
    ensures clauses { OnOk result (circuit.new.clauses
        ≡ circuit.old.clauses ++ flat_map (λ earlier. exclusion start choices.now earlier later) (range_with_len 0 later)) }
{
    for earlier in 0..later {
        if choices[earlier].sleep == choices[later].sleep {
            let first = Lit::new(start + earlier as u32, true);
            let second = Lit::new(start + later as u32, true);
            circuit.push(&[first, second])?;
        }
    }
    Ok(())
}
