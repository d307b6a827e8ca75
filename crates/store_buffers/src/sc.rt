//! Sequential consistency: no store is ever buffered.
ghost use Rattle.std.specs.Prelude.{refl, true, false};
ghost use Rattle.store_buffers.specs.Buffers.{no_buffer};
ghost use Rattle.memory_models.specs.declared.model.Model.TheVariants as model;
ghost use Rattle.store_buffers.specs.Pending.{binds_all};
ghost use Rattle.store_buffers.specs.helpers.Sequential.{sc_laws};

use crate::MemoryModel;
use memory_models::Model;
use std::alloc::{AllocError, Global};

/// Sequential consistency.
#[derive(Clone, Copy, Debug)]
pub struct Sc;

impl MemoryModel for Sc {
    type Buffer = ();

    const MODEL: Model = Model::Sc;

    const BUFFERED: bool = false;

    ghost MODEL = { model.Sc };

    ghost BUFFERED = { false };

    ghost ops = { no_buffer };

    ghost bound = { binds_all };

    ghost buffered = { refl };

    ghost laws = { sc_laws };

    fn empty(_alloc: Global) {}

    fn issue(_buffer: &mut (), _cell: u32, _value: i32) -> Result<(), AllocError> {
        Ok(())
    }

    fn forward(_buffer: &(), _cell: u32) -> Option<i32> {
        None
    }

    fn is_empty(_buffer: &()) -> bool {
        true
    }

    fn may_drain(_buffer: &(), _form: Option<u32>) -> bool {
        false
    }

    fn drain(_buffer: &mut (), _form: Option<u32>) -> Option<(u32, i32)> {
        None
    }

    fn bar(_buffer: &mut ()) -> Result<(), AllocError> {
        Ok(())
    }

    fn forms(alloc: Global, _buffer: &()) -> Result<Vec<Option<u32>>, AllocError> {
        Ok(Vec::new(alloc))
    }

    fn bound(_same_cell: bool, _barred: bool) -> bool {
        true
    }
}
