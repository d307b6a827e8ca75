//! From the steps of a mutex's regions to terms and shapes.
ghost use Rattle.std.specs.Prelude.{◌≡◌, [], filter, fold, length, map, IfOk, IsTrue, OnOk};
ghost use Rattle.std.specs.List.{All, flat_map, list_any};
ghost use Rattle.indexmap.specs.IndexSet.{insert_key};
ghost use Rattle.tc_code.specs.Expr.{names_slots};
ghost use Rattle.mutex_states.specs.Steps.{exprs_of, pool, same_shape};
ghost use Rattle.mutex_clauses.specs.shapes.Termed as spec;
ghost use Rattle.mutex_clauses.specs.shapes.Termed.{AreBelow};

use crate::shapes::pool::Pool;
use crate::shapes::{Shape, Termed, TermedSteps};
use crate::steps::Step;
use std::alloc::{AllocError, Global};

/// Steps over this many cells, with the terms of their expressions and their shapes.
pub fn termed_steps(alloc: Global, cells: u32, steps: &[Step]) -> Result<TermedSteps, AllocError>
    requires { All (λ e. IsTrue (names_slots cells e)) (flat_map exprs_of steps.now) }
    ensures made { IfOk result (λ made. made ≡ spec.termed_steps cells steps.now) }
    ensures below { IfOk result (λ made. AreBelow (length (pool cells steps.now)) made) }
{
    let mut pool = Pool::new(alloc, cells)?;
    pool.add_steps(steps)?;
    let steps = pool.steps(alloc, steps)?;
    let shapes = shapes_of(alloc, steps.as_slice())?;
    Ok(TermedSteps {
        terms: pool.terms,
        steps,
        shapes,
    })
}

/// The shapes of the steps that leave functions of the state, each once.
fn shapes_of(alloc: Global, steps: &[Termed]) -> Result<Vec<Shape>, AllocError>
    ensures { IfOk result (λ shapes. shapes.items
        ≡ fold (insert_key same_shape) [] (map (λ s. s.shape) (filter (λ s. s.is_closed) steps.now))) }
{
    let mut shapes = Vec::new(alloc);
    for step in steps {
        if step.is_closed {
            insert(alloc, &mut shapes, &step.shape)?;
        }
    }
    Ok(shapes)
}

/// Adds a shape if it isn't there.
fn insert(alloc: Global, shapes: &mut Vec<Shape>, shape: &Shape) -> Result<(), AllocError>
    ensures { OnOk result (shapes.new.items ≡ insert_key same_shape shapes.old.items shape.now) }
{
    if !is_among(shapes.as_slice(), shape) {
        shapes.push(shape.copy(alloc)?)?;
    }
    Ok(())
}

/// Whether a shape is among others.
fn is_among(shapes: &[Shape], shape: &Shape) -> bool
    ensures { result ≡ list_any (same_shape shape.now) shapes.now }
{
    shapes.iter().any(|other| shape.is_same(other))
}
