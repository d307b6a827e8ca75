//! The sleeps of all threads.
ghost use Rattle.std.specs.Prelude.{◌≡◌, ◌++◌, IfOk, OnOk};
ghost use Rattle.lawful_order.specs.Events.{all_sleeps, all_from};

use crate::items::push_items;
use lawful_order::Placed;
use path_walk::{Paths, Sleep, Walk};
use std::alloc::{AllocError, Global};
use std::marker::Model;

/// All sleeps, one thread after another, each thread's by step. The number of a sleep is its index.
#[derive(Debug, Drop)]
pub struct Sleeps {
    all: Vec<Placed<Sleep>>,
}

impl Model for Sleeps {
    ghost use Rattle.std.specs.Prelude.{List};
    ghost use Rattle.lawful_order.specs.Events.{Placed};
    ghost use Rattle.path_walk.specs.declared.event.Sleep.{Sleep};

    ghost Value = { List (Placed Sleep) };

    ghost view = { λ s. s.all.items };
}

impl Sleeps {
    /// All sleeps of the paths.
    pub fn of(alloc: Global, paths: &Paths) -> Result<Sleeps, AllocError>
        ensures { IfOk result (λ sleeps. sleeps ≡ all_sleeps paths.now) }
    {
        let mut all = Vec::new(alloc);
        push_walks(&mut all, paths.threads())?;
        Ok(Sleeps { all })
    }

    /// All of them.
    pub fn all(&self) -> &[Placed<Sleep>]
        ensures { result.now ≡ self.now }
    {
        self.all.as_slice()
    }
}

/// Appends the sleeps of all threads, the first of which has index 0.
fn push_walks(all: &mut Vec<Placed<Sleep>>, threads: &[Walk]) -> Result<(), AllocError>
    ensures { OnOk result (all.new.items ≡ all.old.items ++ all_from (λ w. w.sleeps) 0 threads.now) }
{
    for (thread, walk) in threads.iter().enumerate() {
        push_items(all, thread, walk.sleeps())?;
    }
    Ok(())
}
