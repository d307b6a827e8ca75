//! What regions do, as text.
ghost use Rattle.std.specs.Prelude.{◌≤◌};
ghost use Rattle.std.specs.List.{sum_by};

use mutex_regions::{Doing, Holding, Loaded, Variable, function_of, regions_of, variables_of};
use order_events::Placed;
use path_walk::{Paths, Region};
use std::alloc::{AllocError, Global};
use std::fmt::Write;
use std::mem::drop;
use sym_exec::Access;
use sym_terms::Terms;
use tc_code::Expr;

/// The paths of a log, and what was found of them.
#[derive(Clone, Copy)]
pub(crate) struct Told<'a> {
    pub(crate) alloc: Global,
    pub(crate) paths: &'a Paths,
    pub(crate) terms: &'a Terms,
    pub(crate) accesses: &'a [Placed<Access>],
}

impl<'a> Told<'a> {
    /// All mutexes with their variables and regions, a line for each.
    pub(crate) fn all(&self, mutexes: u32) -> Result<String, AllocError> {
        let mut text = String::new(self.alloc);
        for mutex in 0..mutexes {
            self.push_mutex(&mut text, mutex)?;
        }
        Ok(text)
    }

    fn push_mutex(&self, text: &mut String, mutex: u32) -> Result<(), AllocError> {
        let regions = regions_of(self.alloc, self.paths, mutex)?;
        let variables = variables_of(self.alloc, &regions, self.accesses)?;
        push_variables(text, mutex, &variables)?;
        for region in &regions {
            self.push_region(text, &variables, region)?;
        }
        Ok(())
    }

    fn push_region(
        &self,
        text: &mut String,
        variables: &[Variable],
        region: &Placed<Region>,
    ) -> Result<(), AllocError>
        requires { sum_by (λ v. v.cells) variables.now ≤ 64 }
    {
        self.push_place(text, region)?;
        let doing = function_of(self.alloc, self.terms, variables, self.accesses, region)?;
        let told = push_doing(text, &doing);
        drop(doing);
        told
    }

    /// The thread of a region, where it begins, and where it ends.
    fn push_place(&self, text: &mut String, region: &Placed<Region>) -> Result<(), AllocError> {
        if let Some(walk) = self.paths.threads().get(region.thread) {
            write!(text, "\n  {} from {} ", walk.name(), region.it.from)?;
        }
        match region.it.to {
            Some(to) => write!(text, "to {to}"),
            None => text.push_str("on"),
        }
    }
}

/// A mutex, and the variables that it guards.
fn push_variables(text: &mut String, mutex: u32, variables: &[Variable]) -> Result<(), AllocError> {
    if mutex > 0 {
        text.push('\n')?;
    }
    write!(text, "mutex {mutex}:")?;
    for variable in variables {
        push_variable(text, variable)?;
    }
    Ok(())
}

/// A variable by its first cell.
fn push_variable(text: &mut String, variable: &Variable) -> Result<(), AllocError> {
    if variable.is_array {
        write!(text, " array {} of {}", variable.first, variable.cells)
    } else {
        write!(text, " cell {}", variable.first)
    }
}

/// What a region leaves in the cells, and what its loads take.
fn push_doing(text: &mut String, doing: &Doing) -> Result<(), AllocError> {
    text.push_str(if doing.is_closed() {
        ", closed"
    } else {
        ", open"
    })?;
    for cell in &doing.cells {
        push_cell(text, cell)?;
    }
    for load in &doing.loads {
        push_load(text, load)?;
    }
    Ok(())
}

fn push_cell(text: &mut String, cell: &Holding) -> Result<(), AllocError> {
    let variable = cell.spot.variable;
    write!(text, "\n    cell {}", variable.first)?;
    if variable.is_array {
        write!(text, "[{}]", cell.spot.index)?;
    }
    push_value(text, &cell.value)
}

fn push_load(text: &mut String, load: &Loaded) -> Result<(), AllocError> {
    write!(text, "\n    load {}", load.load)?;
    push_value(text, &load.value)
}

fn push_value(text: &mut String, value: &Option<Expr>) -> Result<(), AllocError> {
    match value {
        Some(e) => write!(text, " = {e}"),
        None => text.push_str(" = ?"),
    }
}
