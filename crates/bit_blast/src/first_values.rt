//! Values of the variables that a search tries first.

use crate::Blasted;
use cnf_core::{Cnf, Lit};
use order_formula::World;
use std::alloc::{AllocError, Global};

impl Blasted {
    /// Values of the variables for a world, which a search tries first. They should satisfy the
    /// clauses if the formula is true in the world, so that the search ends at once; correctness
    /// doesn't need that.
    pub fn first_values(&self, alloc: Global, world: &World) -> Result<Vec<bool>, AllocError> {
        let mut values = self.layout().write_world(alloc, world)?;
        extend_values(self.clauses(), &mut values)?;
        Ok(values)
    }
}

/// Adds values for more variables, clause by clause: if all literals but the last are false, the
/// last is made true. A variable before it that has no value yet becomes true.
///
/// A gate gets its value if its variable follows those of its operands, and its clauses follow
/// theirs. Others (a read's truth, and which write it takes) are false only if earlier values say
/// so.
pub fn extend_values(cnf: &Cnf, values: &mut Vec<bool>) -> Result<(), AllocError> {
    for place in 0..cnf.len() {
        if let Some((last, others)) = cnf.clause(place).split_last() {
            extend_to(values, *last, others)?;
        }
    }
    values.resize(values.len().max(cnf.vars() as usize), true)?;
    Ok(())
}

/// Adds values up to a literal's variable, if it has none and the clause's others are false.
fn extend_to(values: &mut Vec<bool>, last: Lit, others: &[Lit]) -> Result<(), AllocError> {
    let place = last.var() as usize - 1;
    if values.len() <= place && are_false(values, others) {
        values.resize(place, true)?;
        values.push(!last.negative())?;
    }
    Ok(())
}

/// Whether all literals are false.
fn are_false(values: &[bool], literals: &[Lit]) -> bool {
    literals.iter().all(|lit| values.get(lit.var() as usize - 1) == Some(&lit.negative()))
}
