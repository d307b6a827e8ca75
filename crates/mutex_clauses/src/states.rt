//! The states of all mutexes, added to a draft.
ghost use Rattle.std.specs.Prelude.{◌≡◌, ◌≤◌, length, OnOk};
ghost use Rattle.std.specs.List.{All};
ghost use Rattle.path_walk.specs.tc_limits.declared.limits.TheConstants.{EVENTS};
ghost use Rattle.order_events.specs.lawful_order.Events.{all_events};
ghost use Rattle.bit_gates.specs.Folded.{HasRoom, IsLarger};
ghost use Rattle.bit_terms.specs.Laws.{IsIntNode};
ghost use Rattle.bit_blast.specs.Drafts.{DraftIsWithin};
ghost use Rattle.mutex_states.specs.Sizes.{most_size};
ghost use Rattle.mutex_states.specs.States.{with_states};
ghost use Rattle.mutex_clauses.specs.Loads.{LoadsAreBelow};
ghost use Rattle.mutex_clauses.specs.helpers.Logs.{HasStates};

use crate::literals::Literals;
use crate::log::Log;
use bit_blast::{Draft, load_words};
use order_events::Events;
use order_formula::Formula;
use path_execution::Execution;
use read_write::all_accesses;
use std::alloc::{AllocError, Global};
use tc_code::Code;

/// Adds the states of the cells of all mutexes to a draft of the formula.
pub fn add_states(
    alloc: Global,
    code: &Code,
    execution: &Execution,
    formula: &Formula,
    draft: &mut Draft,
) -> Result<(), AllocError>
    requires constants { All IsIntNode execution.now.terms }
    requires events { length (all_events execution.now.paths) ≤ EVENTS }
    requires within { DraftIsWithin draft.old }
    requires loads { LoadsAreBelow execution.now.symbolic draft.old.layout.loads }
    requires room { HasRoom most_size draft.old.clauses }
    ensures draft { OnOk result (draft.new
        ≡ with_states code.now execution.now.paths execution.now.symbolic execution.now.terms formula.now draft.old) }
    ensures within { OnOk result (DraftIsWithin draft.new) }
    ensures larger { OnOk result (IsLarger most_size draft.old.clauses draft.new.clauses) }
{
    add_to(alloc, code, execution, formula, draft)
}

/// The same, with a record as its contract.
fn add_to(
    alloc: Global,
    code: &Code,
    execution: &Execution,
    formula: &Formula,
    draft: &mut Draft,
) -> Result<(), AllocError>
    requires constants { All IsIntNode execution.now.terms }
    requires events { length (all_events execution.now.paths) ≤ EVENTS }
    requires within { DraftIsWithin draft.old }
    requires loads { LoadsAreBelow execution.now.symbolic draft.old.layout.loads }
    requires room { HasRoom most_size draft.old.clauses }
    ensures { OnOk result (HasStates code.now execution.now.paths execution.now.symbolic execution.now.terms formula.now
        draft.old draft.new) }
{
    let events = Events::of(alloc, &execution.paths)?;
    let accesses = all_accesses(alloc, &execution.symbolic)?;
    let loads = load_words(alloc, &draft.layout)?;
    let literals = Literals {
        paths: &execution.paths,
        events: &events,
        conjuncts: formula.conjuncts(),
        layout: &draft.layout,
        words: draft.words.as_slice(),
        roots: draft.roots.as_slice(),
    };
    let log = Log {
        code,
        execution,
        literals,
        accesses: accesses.as_slice(),
        loads: loads.as_slice(),
    };
    log.add_all(alloc, &mut draft.circuit)
}
