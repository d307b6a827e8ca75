//! Partial store order: a queue of stores for each cell.
ghost use Rattle.std.specs.Prelude.{refl, true};
ghost use Rattle.store_buffers.specs.Buffers.{cell_buffer};
ghost use Rattle.memory_models.specs.declared.model.Model.TheVariants as model;
ghost use Rattle.store_buffers.specs.Pending.{binds_cells};
ghost use Rattle.store_buffers.specs.helpers.Partial.{pso_laws};

use crate::MemoryModel;
use crate::segments::Segments;
use memory_models::Model;
use std::alloc::{AllocError, Global};

/// Partial store order.
#[derive(Clone, Copy, Debug)]
pub struct PsoModel;

impl MemoryModel for PsoModel {
    type Buffer = Segments;

    const MODEL: Model = Model::Pso;

    const BUFFERED: bool = true;

    ghost MODEL = { model.Pso };

    ghost BUFFERED = { true };

    ghost ops = { cell_buffer };

    ghost bound = { binds_cells };

    ghost buffered = { refl };

    ghost laws = { pso_laws };

    fn empty(alloc: Global) -> Segments {
        Segments::new(alloc)
    }

    fn issue(buffer: &mut Segments, cell: u32, value: i32) -> Result<(), AllocError> {
        buffer.issue(cell, value)
    }

    fn forward(buffer: &Segments, cell: u32) -> Option<i32> {
        buffer.forward(cell)
    }

    fn is_empty(buffer: &Segments) -> bool {
        buffer.is_empty()
    }

    fn may_drain(buffer: &Segments, form: Option<u32>) -> bool {
        match form {
            Some(cell) => buffer.may_drain(cell),
            None => false,
        }
    }

    fn drain(buffer: &mut Segments, form: Option<u32>) -> Option<(u32, i32)> {
        let cell = form?;
        if !buffer.may_drain(cell) {
            return None;
        }
        let value = buffer.drain(cell)?;
        Some((cell, value))
    }

    fn bar(buffer: &mut Segments) -> Result<(), AllocError> {
        buffer.bar()
    }

    fn forms(alloc: Global, buffer: &Segments) -> Result<Vec<Option<u32>>, AllocError> {
        buffer.forms(alloc)
    }

    fn bound(same_cell: bool, barred: bool) -> bool {
        same_cell || barred
    }
}
