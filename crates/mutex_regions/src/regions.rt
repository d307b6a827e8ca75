//! The regions of a mutex.
ghost use Rattle.std.specs.Prelude.{◌≡◌, IfOk};
ghost use Rattle.mutex_regions.specs.Regions as spec;

use order_events::{Placed, push_items};
use path_walk::{Paths, Region};
use std::alloc::{AllocError, Global};
use sym_exec::Access;

/// Whether an access lies in a region: after its begin and, if it has an end, before that.
pub fn lies_in(region: &Placed<Region>, access: &Placed<Access>) -> bool
    ensures { result ≡ spec.lies_in region.now access.now }
{
    let step = access.it.step;
    let is_begun = access.thread == region.thread && region.it.from < step;
    match region.it.to {
        Some(to) => is_begun && step < to,
        None => is_begun,
    }
}

/// The regions of a mutex, one thread after another.
pub fn regions_of(
    alloc: Global,
    paths: &Paths,
    mutex: u32,
) -> Result<Vec<Placed<Region>>, AllocError>
    ensures { IfOk result (λ regions. regions.items ≡ spec.regions_of paths.now mutex) }
{
    let all = all_regions(alloc, paths)?;
    let mut own = Vec::new(alloc);
    for region in &all {
        if region.it.mutex == mutex {
            own.push(*region)?;
        }
    }
    Ok(own)
}

/// The regions of all threads, in order.
fn all_regions(alloc: Global, paths: &Paths) -> Result<Vec<Placed<Region>>, AllocError>
    ensures { IfOk result (λ all. all.items ≡ spec.all_regions paths.now) }
{
    let mut all = Vec::new(alloc);
    for (thread, walk) in paths.threads().iter().enumerate() {
        push_items(&mut all, thread, walk.regions())?;
    }
    Ok(all)
}
