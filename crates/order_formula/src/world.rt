//! Worlds: an order of all events, the values of loads, and the event that ends each sleep.
ghost use Rattle.std.specs.Prelude.{◌≡◌, ◌==◌, Bool};
ghost use Rattle.std.specs.List.{IsDistinct};
ghost use Rattle.order_formula.specs.Worlds.{position, is_before, is_ended};

use std::marker::Model;

/// A position for each event, a value for each load, and for each sleep the event that ends it, if
/// one does. All positions differ. Events, loads and sleeps are numbered by thread name, then by
/// step.
#[derive(Debug, Drop)]
pub struct World {
    positions: Vec<u8>,
    loads: Vec<i32>,
    enders: Vec<Option<u32>>,
}

impl Model for World {
    ghost use Rattle.order_formula.specs.Worlds.{World as PlainWorld, IsWorld};

    ghost Value = { PlainWorld };

    ghost view = { λ w. record { positions = w.positions.items; loads = w.loads.items; enders = w.enders.items } };

    ghost invariant = { λ w. IsWorld (record { positions = w.positions.items; loads = w.loads.items; enders = w.enders.items }) };
}

impl World {
    /// The world with these positions, values of loads, and events that end sleeps.
    pub fn new(positions: Vec<u8>, loads: Vec<i32>, enders: Vec<Option<u32>>) -> World
        requires { IsDistinct (λ p q. p == q) positions.items }
        ensures { result ≡ record { positions = positions.items; loads = loads.items; enders = enders.items } }
    {
        World {
            positions,
            loads,
            enders,
        }
    }

    /// The position of each event.
    pub fn positions(&self) -> &[u8]
        ensures positions { result.now ≡ self.now.positions }
        ensures distinct { IsDistinct (λ p q. p == q) self.now.positions }
    {
        self.positions.as_slice()
    }

    /// The value that each load takes.
    pub fn loads(&self) -> &[i32]
        ensures { result.now ≡ self.now.loads }
    {
        self.loads.as_slice()
    }

    /// The event that ends each sleep, if one does.
    pub fn enders(&self) -> &[Option<u32>]
        ensures { result.now ≡ self.now.enders }
    {
        self.enders.as_slice()
    }

    /// The position of an event, or 0 if there is no such event.
    pub fn position(&self, event: u32) -> u8
        ensures { result ≡ position self.now event }
    {
        self.positions.get(event as usize).copied().unwrap_or(0)
    }

    /// Whether the first event comes before the second.
    pub fn is_before(&self, first: u32, second: u32) -> bool
        ensures { result ≡ is_before self.now first second }
    {
        self.position(first) < self.position(second)
    }

    /// Whether the event ends the sleep.
    pub fn is_ended(&self, sleep: u32, by: u32) -> bool
        ensures { result ≡ is_ended self.now sleep by }
    {
        match self.enders.get(sleep as usize) {
            Some(Some(ender)) => *ender == by,
            _ => false,
        }
    }
}
