//! Valuations for worlds.
ghost use Rattle.std.specs.Prelude.{◌≤◌};

use crate::Layout;
use order_formula::World;
use std::alloc::{AllocError, Global};

impl Layout {
    /// Values of the variables before any gate that [`read_world`](Layout::read_world) reads as
    /// `world`, up to the ranks of its positions. A missing position or load value is 0.
    pub fn write_world(&self, alloc: Global, world: &World) -> Result<Vec<bool>, AllocError> {
        let mut values = Vec::new(alloc);
        values.push(true)?;
        self.write_positions(world, &mut values)?;
        self.write_loads(world, &mut values)?;
        self.write_choices(world, &mut values)?;
        Ok(values)
    }

    /// The bits of all positions.
    fn write_positions(&self, world: &World, values: &mut Vec<bool>) -> Result<(), AllocError> {
        for event in 0..self.order().events() {
            write_bits(values, u32::from(world.position(event)), 8)?;
        }
        Ok(())
    }

    /// The bits of the values of all loads.
    fn write_loads(&self, world: &World, values: &mut Vec<bool>) -> Result<(), AllocError> {
        for load in 0..self.loads() as usize {
            let value = world.loads().get(load).copied().unwrap_or(0);
            write_bits(values, value.cast_unsigned(), 32)?;
        }
        Ok(())
    }

    /// Whether each choice is made.
    fn write_choices(&self, world: &World, values: &mut Vec<bool>) -> Result<(), AllocError> {
        for choice in self.order().choices() {
            values.push(world.is_ended(choice.sleep, choice.by))?;
        }
        Ok(())
    }
}

/// The lowest `width` bits of a number, the highest of them first.
fn write_bits(values: &mut Vec<bool>, number: u32, width: u32) -> Result<(), AllocError>
    requires { width ≤ 32 }
{
    for place in (0..width).rev() {
        values.push(number >> place & 1 == 1)?;
    }
    Ok(())
}
