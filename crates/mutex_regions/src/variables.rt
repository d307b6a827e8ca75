//! The variables of a mutex.
ghost use Rattle.std.specs.Prelude.{◌≡◌, ◌≤◌, ◌++◌, map, IfOk, OnOk};
ghost use Rattle.std.specs.List.{range_with_len, sum_by};
ghost use Rattle.mutex_regions.specs.Variables as spec;

use crate::lies_in;
use order_events::Placed;
use path_walk::Region;
use std::alloc::{AllocError, Global};
use sym_exec::{Access, Cell};

/// The greatest number of cells of a variable.
const LONGEST: u32 = 8;

/// The greatest number of cells of a state.
const CELLS: u32 = 64;

/// A cell or an array of the program.
#[derive(Clone, Copy)]
pub struct Variable {
    /// The number of its first cell.
    pub first: u32,
    /// The number of its cells.
    pub cells: u32,
    /// Whether an index chooses among them.
    pub is_array: bool,
}

impl Variable {
    /// The variable of an access's cell.
    pub fn of(cell: Cell) -> Variable
        ensures { result ≡ spec.variable_of cell }
    {
        match cell {
            Cell::Fixed(number) => Variable {
                first: number,
                cells: 1,
                is_array: false,
            },
            Cell::Element { first, length, .. } => Variable {
                first,
                cells: length,
                is_array: true,
            },
        }
    }

    /// Whether both are the same variable.
    pub fn is_same(&self, other: &Variable) -> bool
        ensures { result ≡ spec.same_variable self.now other.now }
    {
        self.first == other.first && self.is_array == other.is_array
    }

    /// Whether it is one of these.
    pub fn is_among(&self, variables: &[Variable]) -> bool
        ensures { result ≡ spec.is_among variables.now self.now }
    {
        variables.iter().any(|variable| self.is_same(variable))
    }
}

/// A cell of a state: one of a variable's cells.
#[derive(Clone, Copy)]
pub struct Spot {
    /// The variable.
    pub variable: Variable,
    /// The index of the cell among the variable's.
    pub index: u8,
}

/// The cells of a state, one variable after another.
pub fn spots_of(alloc: Global, variables: &[Variable]) -> Result<Vec<Spot>, AllocError>
    requires { sum_by (λ v. v.cells) variables.now ≤ 64 }
    ensures { IfOk result (λ spots. spots.items ≡ spec.spots_of variables.now) }
{
    let mut spots = Vec::new(alloc);
    for variable in variables {
        push_spots(&mut spots, variable)?;
    }
    Ok(spots)
}

/// Appends a variable's cells.
fn push_spots(spots: &mut Vec<Spot>, variable: &Variable) -> Result<(), AllocError>
    requires { variable.now.cells ≤ 64 }
    ensures { OnOk result (spots.new.items ≡ spots.old.items ++ map (λ k. record { variable = variable.now; index = k }) (range_with_len 0 variable.now.cells)) }
{
    for index in 0..variable.cells as u8 {
        spots.push(Spot {
            variable: *variable,
            index,
        })?;
    }
    Ok(())
}

/// The variables of a mutex with these regions: those that are written, and only in them.
pub fn variables_of(
    alloc: Global,
    regions: &[Placed<Region>],
    accesses: &[Placed<Access>],
) -> Result<Vec<Variable>, AllocError>
    ensures variables { IfOk result (λ variables. variables.items ≡ spec.variables_of regions.now accesses.now) }
    ensures few { IfOk result (λ variables. sum_by (λ v. v.cells) variables.items ≤ 64) }
{
    let mut variables = Vec::new(alloc);
    for access in accesses {
        if is_new(regions, accesses, variables.as_slice(), access) {
            variables.push(Variable::of(access.it.cell))?;
        }
    }
    Ok(variables)
}

/// Whether an access writes a variable that is guarded, fits and isn't there yet.
fn is_new(
    regions: &[Placed<Region>],
    accesses: &[Placed<Access>],
    variables: &[Variable],
    access: &Placed<Access>,
) -> bool
    ensures { result ≡ spec.is_new regions.now accesses.now variables.now access.now }
{
    let variable = Variable::of(access.it.cell);
    access.it.writes.is_some()
        && !variable.is_among(variables)
        && is_guarded(regions, accesses, &variable)
        && fits(variables, &variable)
}

/// Whether all writes to a variable lie in the regions.
fn is_guarded(regions: &[Placed<Region>], accesses: &[Placed<Access>], variable: &Variable) -> bool
    ensures { result ≡ spec.is_guarded regions.now accesses.now variable.now }
{
    accesses
        .iter()
        .all(|access| is_proper(regions, variable, access))
}

/// Whether an access is to another variable; or has this length, and lies in a region if it writes.
fn is_proper(regions: &[Placed<Region>], variable: &Variable, access: &Placed<Access>) -> bool
    ensures { result ≡ spec.is_proper regions.now variable.now access.now }
{
    let other = Variable::of(access.it.cell);
    !variable.is_same(&other)
        || (variable.cells == other.cells
            && (access.it.writes.is_none() || is_inside(regions, access)))
}

/// Whether an access lies in one of the regions.
pub fn is_inside(regions: &[Placed<Region>], access: &Placed<Access>) -> bool
    ensures { result ≡ spec.is_inside regions.now access.now }
{
    regions.iter().any(|region| lies_in(region, access))
}

/// Whether a variable is short, and a state of it and some others has few cells.
fn fits(variables: &[Variable], variable: &Variable) -> bool
    ensures { result ≡ spec.fits variables.now variable.now }
{
    let mut cells: u32 = 0;
    for other in variables {
        cells = cells.saturating_add(other.cells);
    }
    variable.cells <= LONGEST && cells <= CELLS && cells + variable.cells <= CELLS
}
