//! Total store order: one queue of stores.
ghost use Rattle.std.specs.Prelude.{refl, true};
ghost use Rattle.store_buffers.specs.Buffers.{fifo_buffer};
ghost use Rattle.memory_models.specs.declared.model.Model.TheVariants as model;
ghost use Rattle.store_buffers.specs.Pending.{binds_all};
ghost use Rattle.store_buffers.specs.helpers.Total.{tso_laws};

use crate::MemoryModel;
use crate::queue::Queue;
use memory_models::Model;
use std::alloc::{AllocError, Global};

/// Total store order.
#[derive(Clone, Copy, Debug)]
pub struct TsoModel;

impl MemoryModel for TsoModel {
    type Buffer = Queue;

    const MODEL: Model = Model::Tso;

    const BUFFERED: bool = true;

    ghost MODEL = { model.Tso };

    ghost BUFFERED = { true };

    ghost ops = { fifo_buffer };

    ghost bound = { binds_all };

    ghost buffered = { refl };

    ghost laws = { tso_laws };

    fn empty(alloc: Global) -> Queue {
        Queue::new(alloc)
    }

    fn issue(buffer: &mut Queue, cell: u32, value: i32) -> Result<(), AllocError> {
        buffer.push(cell, value)
    }

    fn forward(buffer: &Queue, cell: u32) -> Option<i32> {
        buffer.newest(cell)
    }

    fn is_empty(buffer: &Queue) -> bool {
        buffer.is_empty()
    }

    fn may_drain(buffer: &Queue, form: Option<u32>) -> bool {
        form.is_none() && !buffer.is_empty()
    }

    fn drain(buffer: &mut Queue, form: Option<u32>) -> Option<(u32, i32)> {
        match form {
            Some(_) => None,
            None => buffer.pop(),
        }
    }

    fn bar(_buffer: &mut Queue) -> Result<(), AllocError> {
        Ok(())
    }

    fn forms(alloc: Global, buffer: &Queue) -> Result<Vec<Option<u32>>, AllocError> {
        let mut forms = Vec::new(alloc);
        if buffer.is_empty() {
            return Ok(forms);
        }
        forms.push(None)?;
        Ok(forms)
    }

    fn bound(_same_cell: bool, _barred: bool) -> bool {
        true
    }
}
