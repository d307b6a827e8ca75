//! Items of threads.
ghost use Rattle.std.specs.Prelude.{◌≡◌, ◌++◌, OnOk};
ghost use Rattle.lawful_order.specs.Events.{placed_in};

use lawful_order::Placed;
use std::alloc::AllocError;

/// Appends the items of a thread.
pub fn push_items<T: Copy>(
    all: &mut Vec<Placed<T>>,
    thread: usize,
    items: &[T],
) -> Result<(), AllocError>
    ensures { OnOk result (all.new.items ≡ all.old.items ++ placed_in thread items.now) }
{
    for item in items {
        all.push(Placed { thread, it: *item })?;
    }
    Ok(())
}
