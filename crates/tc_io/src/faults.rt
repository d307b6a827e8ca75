//! The faults of a shelf.
ghost use Rattle.std.specs.Prelude.{◌≡◌, Some, string_bytes};
ghost use Rattle.tc_io.specs.Faults.{no_faults, fault_of};
ghost use Rattle.tc_io.specs.Outside.{capped_sum};

use std::marker::Model;

/// What a call of a shelf does.
#[derive(Clone, Copy)]
pub enum Access {
    Read,
    Write,
}

/// How many calls of a shelf failed, and what the last of them was, with its name.
#[derive(Drop)]
pub struct Faults {
    count: u64,
    last: Option<(Access, String)>,
}

impl Model for Faults {
    ghost use Rattle.std.specs.Prelude.{string_bytes, option_map};
    ghost use Rattle.tc_io.specs.Faults.{PlainFaults, fault_of};

    ghost Value = { PlainFaults };

    ghost view = { λ f. record { count = f.count; last = option_map (λ last. fault_of last.0 (string_bytes last.1)) f.last } };
}

impl Faults {
    /// No failed call.
    pub fn new() -> Self
        ensures { result ≡ no_faults }
    {
        Faults {
            count: 0,
            last: None,
        }
    }

    /// Counts a failed call with this name.
    pub fn add(&mut self, access: Access, name: String)
        ensures { self.new ≡ record { count = capped_sum self.old.count 1; last = Some (fault_of access (string_bytes name)) } }
    {
        self.count = self.count.saturating_add(1);
        self.last = Some((access, name));
    }
}
