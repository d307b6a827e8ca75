//! The accesses of all threads.
ghost use Rattle.std.specs.Prelude.{◌≡◌, IfOk};
ghost use Rattle.read_write.specs.Accesses as spec;

use order_events::{Placed, push_items};
use std::alloc::{AllocError, Global};
use sym_exec::{Access, Symbolic};

/// Whether two accesses are the same.
pub(crate) fn is_one(access: &Placed<Access>, other: &Placed<Access>) -> bool
    ensures { result ≡ spec.is_one access.now other.now }
{
    access.thread == other.thread && access.it.step == other.it.step
}

/// Whether an access is earlier than another on the same path.
pub(crate) fn is_earlier(access: &Placed<Access>, other: &Placed<Access>) -> bool
    ensures { result ≡ spec.is_earlier access.now other.now }
{
    access.thread == other.thread && access.it.step < other.it.step
}

/// The accesses of all threads, in order.
pub fn all_accesses(alloc: Global, symbolic: &Symbolic) -> Result<Vec<Placed<Access>>, AllocError>
    ensures { IfOk result (λ all. all.items ≡ spec.all_accesses symbolic.now) }
{
    let mut all = Vec::new(alloc);
    for (thread, course) in symbolic.threads().iter().enumerate() {
        push_items(&mut all, thread, course.accesses())?;
    }
    Ok(all)
}
