//! Systems.
ghost use Rattle.std.specs.Prelude.{◌≡◌, IfOk};
ghost use Rattle.order_formula.specs.Truth.{holds_at};
ghost use Rattle.clap_system.specs.Ready.{IsSound};
ghost use Rattle.clap_system.specs.Systems.{execution_of, system_from};

use order_formula::{Formula, Order, World, holds};
use path_execution::Execution;
use std::alloc::{AllocError, Global};
use std::marker::Model;
use sym_terms::Values;

/// The paths of a log, their execution, and the formula of a memory model over their events.
#[derive(Debug, Drop)]
pub struct System {
    pub(crate) execution: Execution,
    pub(crate) order: Order,
    pub(crate) formula: Formula,
}

impl Model for System {
    ghost use Rattle.clap_system.specs.Ready.{IsSound};
    ghost use Rattle.clap_system.specs.Systems.{System as PlainSystem, system_from};

    ghost Value = { PlainSystem };

    ghost view = { λ s. system_from s.execution s.order s.formula };

    ghost invariant = { λ s. IsSound (system_from s.execution s.order s.formula) };
}

impl System {
    /// The paths of the log, and their execution.
    pub fn execution(&self) -> &Execution
        ensures { result.now ≡ execution_of self.now }
    {
        &self.execution
    }

    /// The questions that the formula asks about the order of events.
    pub fn order(&self) -> &Order
        ensures { result.now ≡ self.now.order }
    {
        &self.order
    }

    /// The formula.
    pub fn formula(&self) -> &Formula
        ensures formula { result.now ≡ self.now.formula }
        ensures sound { IsSound self.now }
    {
        &self.formula
    }

    /// Whether the formula is true in a world.
    pub fn holds(&self, alloc: Global, world: &World) -> Result<bool, AllocError>
        ensures { IfOk result (λ is_true. is_true ≡ holds_at self.now.nodes world.now self.now.formula) }
    {
        let terms = &self.execution.terms;
        let mut values = Values::new(alloc, terms, world.loads())?;
        Ok(holds(terms, &self.formula, world, &mut values))
    }

    /// Its parts: the execution of the log's paths, the questions about the order, and the formula.
    pub fn into_parts(self) -> (Execution, Order, Formula)
        ensures parts { system_from result.0 result.1 result.2 ≡ self }
        ensures sound { IsSound self }
    {
        (self.execution, self.order, self.formula)
    }
}
