//! A region as a function of the state before it.
ghost use Rattle.std.specs.Prelude.{◌≡◌, ◌≤◌, filter, map, IfOk, OnOk};
ghost use Rattle.std.specs.List.{sum_by};
ghost use Rattle.std.specs.Option.{option_map_or};
ghost use Rattle.mutex_regions.specs.Functions as spec;
ghost use Rattle.mutex_regions.specs.Variables.{same_variable, variable_of};

use crate::exprs::{chosen, copy_of, index_over, term_over, where_known};
use crate::{Spot, Variable, lies_in, spots_of};
use order_events::Placed;
use path_walk::Region;
use std::alloc::{AllocError, Global};
use std::marker::Model;
use std::mem::drop;
use sym_exec::Access;
use sym_terms::{Id, Terms};
use tc_code::Expr;

/// A load, and the value that it takes.
#[derive(Drop)]
pub struct Loaded {
    /// The number of the load.
    pub load: u32,
    /// Its value as an expression, if it is one.
    pub value: Option<Expr>,
}

/// A cell of the state, and the value that it holds.
#[derive(Drop)]
pub struct Holding {
    /// The cell.
    pub spot: Spot,
    /// Its value as an expression, if it is one.
    pub value: Option<Expr>,
}

/// What a region has done so far: what the cells hold now, and its loads.
#[derive(Drop)]
pub struct Doing {
    /// What the cells hold.
    pub cells: Vec<Holding>,
    /// The loads, in order.
    pub loads: Vec<Loaded>,
}

impl Model for Doing {
    ghost use Rattle.mutex_regions.specs.Functions.{Doing as PlainDoing};
    ghost use Rattle.std.specs.Coded.{codes};
    ghost use Rattle.tc_code.specs.helpers.CodedExpr.{coded_expr};

    ghost Value = { PlainDoing };

    ghost coded = { Prim.hlevel (codes, coded_expr) };

    ghost view = { λ d. record { cells = d.cells.items; loads = d.loads.items } };
}

/// What a region does.
pub fn function_of(
    alloc: Global,
    terms: &Terms,
    variables: &[Variable],
    accesses: &[Placed<Access>],
    region: &Placed<Region>,
) -> Result<Doing, AllocError>
    requires { sum_by (λ v. v.cells) variables.now ≤ 64 }
    ensures { IfOk result (λ does. does ≡ spec.function_of terms.now variables.now accesses.now region.now) }
{
    let mut doing = Doing::at_begin(alloc, variables)?;
    for access in accesses {
        if is_used(variables, region, access) {
            doing.follow(alloc, terms, access)?;
        }
    }
    Ok(doing)
}

/// Whether a region's access is to one of the variables.
pub fn is_used(variables: &[Variable], region: &Placed<Region>, access: &Placed<Access>) -> bool
    ensures { result ≡ spec.is_used variables.now region.now access.now }
{
    lies_in(region, access) && Variable::of(access.it.cell).is_among(variables)
}

impl Doing {
    /// Before a region each cell is a slot.
    fn at_begin(alloc: Global, variables: &[Variable]) -> Result<Doing, AllocError>
        requires { sum_by (λ v. v.cells) variables.now ≤ 64 }
        ensures { IfOk result (λ does. does ≡ spec.at_begin variables.now) }
    {
        let spots = spots_of(alloc, variables)?;
        let mut cells = Vec::new(alloc);
        for (slot, spot) in spots.iter().enumerate() {
            cells.push(Holding {
                spot: *spot,
                value: Some(Expr::slot(slot as u32)),
            })?;
        }
        Ok(Doing {
            cells,
            loads: Vec::new(alloc),
        })
    }

    /// An access loads, then stores.
    fn follow(
        &mut self,
        alloc: Global,
        terms: &Terms,
        access: &Placed<Access>,
    ) -> Result<(), AllocError>
        ensures { OnOk result (self.new ≡ spec.with_access terms.now self.old access.now) }
    {
        self.take(alloc, terms, access)?;
        self.write(alloc, terms, access)
    }

    /// Loads a cell, if the access does.
    fn take(
        &mut self,
        alloc: Global,
        terms: &Terms,
        access: &Placed<Access>,
    ) -> Result<(), AllocError>
        ensures { OnOk result (self.new ≡ option_map_or (spec.with_load terms.now access.now.it.cell self.old) access.now.it.takes self.old) }
    {
        match access.it.takes {
            Some(load) => self.load(alloc, terms, access, load),
            None => Ok(()),
        }
    }

    /// Stores to a cell, if the access does.
    fn write(
        &mut self,
        alloc: Global,
        terms: &Terms,
        access: &Placed<Access>,
    ) -> Result<(), AllocError>
        ensures { OnOk result (self.new ≡ option_map_or (spec.with_store terms.now access.now.it.cell self.old) access.now.it.writes self.old) }
    {
        match access.it.writes {
            Some(term) => self.store(alloc, terms, access, term),
            None => Ok(()),
        }
    }

    /// Loads a cell.
    fn load(
        &mut self,
        alloc: Global,
        terms: &Terms,
        access: &Placed<Access>,
        load: u32,
    ) -> Result<(), AllocError>
        ensures { OnOk result (self.new ≡ spec.with_load terms.now access.now.it.cell self.old load) }
    {
        let value = self.taken(alloc, terms, access)?;
        self.loads.push(Loaded { load, value })?;
        Ok(())
    }

    /// What a load takes.
    fn taken(
        &self,
        alloc: Global,
        terms: &Terms,
        access: &Placed<Access>,
    ) -> Result<Option<Expr>, AllocError>
        ensures { IfOk result (λ value. value ≡ spec.chosen (spec.index_over terms.now self.now.loads access.now.it.cell)
            (filter (λ x. same_variable x.spot.variable (variable_of access.now.it.cell)) self.now.cells)) }
    {
        let index = index_over(alloc, terms, self.loads.as_slice(), access.it.cell)?;
        let variable = Variable::of(access.it.cell);
        let value = chosen(alloc, &index, self.cells.as_slice(), &variable);
        drop(index);
        value
    }

    /// Stores a term to a cell.
    fn store(
        &mut self,
        alloc: Global,
        terms: &Terms,
        access: &Placed<Access>,
        term: Id,
    ) -> Result<(), AllocError>
        ensures { OnOk result (self.new ≡ spec.with_store terms.now access.now.it.cell self.old term) }
    {
        let value = term_over(alloc, terms, self.loads.as_slice(), term)?;
        self.cells = self.after_store(alloc, terms, access, value)?;
        Ok(())
    }

    /// What the cells hold after a store of a value.
    fn after_store(
        &self,
        alloc: Global,
        terms: &Terms,
        access: &Placed<Access>,
        value: Option<Expr>,
    ) -> Result<Vec<Holding>, AllocError>
        ensures { IfOk result (λ after. after.items
            ≡ map (spec.stored (variable_of access.now.it.cell) (spec.index_over terms.now self.now.loads access.now.it.cell) value) self.now.cells) }
    {
        let index = index_over(alloc, terms, self.loads.as_slice(), access.it.cell)?;
        let variable = Variable::of(access.it.cell);
        let after = all_stored(alloc, &variable, &index, &value, self.cells.as_slice());
        drop(index);
        drop(value);
        after
    }

    /// Whether what the region leaves in the cells is a function of the state.
    pub fn is_closed(&self) -> bool
        ensures { result ≡ spec.is_closed self.now }
    {
        self.cells.iter().all(|cell| cell.value.is_some())
    }
}

/// All cells after a store of a value at an index of a variable.
fn all_stored(
    alloc: Global,
    variable: &Variable,
    index: &Option<Expr>,
    value: &Option<Expr>,
    cells: &[Holding],
) -> Result<Vec<Holding>, AllocError>
    ensures { IfOk result (λ after. after.items ≡ map (spec.stored variable.now index.now value.now) cells.now) }
{
    let mut after = Vec::new(alloc);
    for cell in cells {
        after.push(stored(alloc, variable, index, value, cell)?)?;
    }
    Ok(after)
}

/// A cell after a store of a value at an index of a variable.
fn stored(
    alloc: Global,
    variable: &Variable,
    index: &Option<Expr>,
    value: &Option<Expr>,
    cell: &Holding,
) -> Result<Holding, AllocError>
    ensures { IfOk result (λ after. after ≡ spec.stored variable.now index.now value.now cell.now) }
{
    let spot = cell.spot;
    let value = if spot.variable.is_same(variable) {
        where_known(alloc, index, spot.index, value, &cell.value)?
    } else {
        copy_of(alloc, &cell.value)?
    };
    Ok(Holding { spot, value })
}
